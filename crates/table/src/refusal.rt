// Why a plan comes back: each cause with its number, and the refusal that a call answers.
ghost use Rattle.std.specs.Prelude.{◌≡◌};
ghost use Rattle.table.specs.Answers.{named, number};

use std::error::Error;
use std::fmt;

// The causes of table and codec, of the check, of the runs, of the load page, of the least part, of the call that fills in rates, and of the
// archive.
#[derive(Clone, Copy, Debug, PartialEq, Eq)]
pub enum Refusal {
    NoRoom,
    BadCount,
    CutShort,
    UnknownKind,
    OutOfRange,
    Misplaced,
    BadFilling,
    ClocksDiffer,
    BeyondLimits,
    NotPlain,
    BadView,
    TooManyTicks,
    WrongLog,
    ShortTrace,
    Clash,
    ShortWindow,
    WrongTimes,
    ShortPage,
    NotDiffering,
    Unjoined,
    HasConditions,
    WrongLength,
    OffCalendar,
}

// A refusal with the row or flow that it names and, of a clash, the tick; 0 where it names none, as the paper and C have it.
#[derive(Clone, Copy, Debug, PartialEq, Eq)]
pub struct Refused {
    pub why: Refusal,
    pub flow: u32,
    pub tick: u32,
}

impl Refusal {
    // The number that stands for a cause.
    pub fn number(self) -> u32
        ensures { result ≡ number self }
    {
        match self {
            Refusal::NoRoom => 10,
            Refusal::BadCount => 11,
            Refusal::CutShort => 12,
            Refusal::UnknownKind => 13,
            Refusal::OutOfRange => 14,
            Refusal::Misplaced => 15,
            Refusal::BadFilling => 16,
            Refusal::ClocksDiffer => 21,
            Refusal::BeyondLimits => 22,
            Refusal::NotPlain => 23,
            Refusal::TooManyTicks => 31,
            Refusal::WrongLog => 32,
            Refusal::ShortTrace => 33,
            Refusal::Clash => 34,
            Refusal::ShortWindow => 35,
            Refusal::WrongTimes => 36,
            Refusal::ShortPage => 37,
            Refusal::NotDiffering => 38,
            Refusal::Unjoined => 39,
            Refusal::BadView => 40,
            Refusal::HasConditions => 41,
            Refusal::WrongLength => 42,
            Refusal::OffCalendar => 43,
        }
    }

    // A refusal that names a row or flow.
    pub fn at(self, flow: u32) -> Refused
        ensures { result ≡ named self flow }
    {
        Refused {
            why: self,
            flow,
            tick: 0,
        }
    }
}

// A cause by itself names no row or flow.
impl From<Refusal> for Refused {
    ghost from_gives = { λ why r. r ≡ named why 0 };

    fn from(why: Refusal) -> Refused {
        why.at(0)
    }
}

// The number, and then the row or flow and the tick.
impl fmt::Display for Refused {
    ghost use Rattle.std.specs.Prelude.{Some};
    ghost use Rattle.table.specs.Answers.{refused_text};

    ghost output = { λ r. Some (refused_text r) };

    fn fmt<W: fmt::Write>(&self, f: &mut fmt::Formatter<W>) -> fmt::Result {
        write!(
            f,
            "refused with {} at flow {}, tick {}",
            self.why.number(),
            self.flow,
            self.tick
        )
    }
}

impl Error for Refused {}
