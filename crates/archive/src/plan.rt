// A plan's clocks, as the check leaves them, and how many words they give.
ghost use Rattle.std.specs.Prelude.{◌≡◌, ◌<◌, ◌^◌};
ghost use Rattle.archive.specs.Columns as columns;
ghost use Rattle.archive.specs.Private.Steps.{Sound};

use crate::MAX_FLOWS;
use checker::CLOCK_SIZE;

// The words of a clock that are read here: by their place, as C reads them.
const PERIOD: usize = 0;

const PHASE: usize = 1;

// The clocks of so many flows without conditions, for traces of `ticks` ticks.
#[derive(Clone, Copy)]
pub(crate) struct Plan<'a> {
    pub flows: usize,
    pub ticks: u32,
    pub clocks: &'a [u32],
    ghost sound: { Sound flows clocks.now },
    ghost short: { ticks < 2 ^ 24 },
}

// A flow's next due tick, and the place of its word in store.
#[derive(Clone, Copy)]
pub(crate) struct Next {
    pub tick: u32,
    pub place: usize,
}

impl Next {
    pub const NONE: Next = Next { tick: 0, place: 0 };
}

// How many of the first `ticks` ticks are phase p plus whole periods n.
fn points(n: u32, p: u32, ticks: u32) -> u32
    requires { 0 < n }
    ensures { result ≡ columns.points n p ticks }
{
    ticks.saturating_sub(p).div_ceil(n)
}

impl Plan<'_> {
    ghost use Rattle.std.specs.Prelude.{◌≡◌, ◌*◌, ◌≤◌, ◌<◌, ◌^◌};
    ghost use Rattle.checker.specs.Rules.{max_derived};
    ghost use Rattle.archive.specs.Private.Steps.{period_in, phase_in};
    ghost use Rattle.archive.specs.Private.Plans.{words_of, PeriodsIn, TicksIn, CarriedBy};

    // Flow f's period.
    pub(crate) fn period(&self, f: usize) -> u32
        requires { f < self.now.flows }
        ensures value { result ≡ period_in self.now.clocks.now f }
        ensures positive { 0 < result }
        ensures fits { result ≤ max_derived }
    {
        self.clocks[CLOCK_SIZE * f + PERIOD]
    }

    // Its phase.
    pub(crate) fn phase(&self, f: usize) -> u32
        requires { f < self.now.flows }
        ensures { result ≡ phase_in self.now.clocks.now f }
    {
        self.clocks[CLOCK_SIZE * f + PHASE]
    }

    // How many cells the trace has.
    pub(crate) fn cells(&self) -> usize
        ensures value { result ≡ self.now.ticks * self.now.flows }
        ensures fits { result < 2 ^ 32 }
    {
        (self.ticks as usize) * self.flows
    }

    // Each flow's first due tick with the place of its first word, and how many words there are.
    pub(crate) fn place_words(&self, next: &mut [Next; MAX_FLOWS]) -> u32
        ensures value { result ≡ words_of self.now }
        ensures carried { CarriedBy self.now 0 next.new }
    {
        let mut w: u32 = 0;
        for f in 0..self.flows {
            let phase = self.phase(f);
            next[f] = Next {
                tick: phase,
                place: w as usize,
            };
            w += points(self.period(f), phase, self.ticks);
        }
        w
    }

    // Each flow's period and first due tick.
    pub(crate) fn gather(&self, periods: &mut [u32; MAX_FLOWS], ticks: &mut [u32; MAX_FLOWS])
        ensures periods { PeriodsIn self.now periods.new }
        ensures ticks { TicksIn self.now 0 ticks.new }
    {
        for f in 0..self.flows {
            periods[f] = self.period(f);
            ticks[f] = self.phase(f);
        }
    }
}
