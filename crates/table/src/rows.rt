// The rows of a table: the constant lists by field and by kind, and the tests of a row.
ghost use Rattle.std.specs.Prelude.{◌≡◌, true, ◌<◌, get_or};
ghost use Rattle.table.specs.Rows.{unused, each, kind_at, kind_count};
ghost use Rattle.table.specs.Plain.{words_of};
ghost use Rattle.table.specs.Links.{is_flow};
ghost use Rattle.table.specs.Lengths.{row_length, record_lengths};
ghost use Rattle.table.specs.Private.Codes.{code, field_list, kind_fields, leasts, mosts, widths, bounded, barred_kind, Within, Known, Accepted, Fault};

use super::{KINDS, Record, Refusal, UNRATED};

// The fields. Numbers and no enum: three of them stand in one number of FIELDS.
const OPERAND: u32 = 0;

const SOURCE: u32 = 1;

const COPIES: u32 = 2;

const PERIOD: u32 = 3;

const TICKS: u32 = 4;

const VALUE: u32 = 5;

const UNUSED: u32 = 6;

// By field: the least and the greatest number that it holds, and its bits in packed form.
const LEAST: [u32; 7] = [0, 0, 1, 1, 0, 0, 0];

const MOST: [u32; 7] = [63, 63, 63, 4095, 4095, 4294967295, 0];

const WIDTH: [u32; 7] = [6, 6, 6, 12, 12, 32, 0];

// By field: one more than its greatest number.
pub(crate) const BOUND: [u64; 7] = [64, 64, 64, 4096, 4096, 4294967296, 1];

// By kind: the bits of a row in packed form.
const LENGTH: [u32; KINDS as usize] = [
    29, // input
    61, // constant
    17, // add
    17, // subtract
    17, // less
    17, // equal
    17, // larger
    49, // register
    29, // faster
    17, // slower
    23, // later
    55, // head
    11, // tail
    17, // when
    17, // when-not
    23, // merge
    5, // unrated input
    29, // when-seen
    29, // when-not-seen
];

// By kind: its three fields as digits to base 8, the first one lowest.
const FIELDS: [u32; KINDS as usize] = [
    PERIOD + 8 * TICKS + 64 * UNUSED, // input
    VALUE + 8 * PERIOD + 64 * TICKS, // constant
    OPERAND + 8 * OPERAND + 64 * UNUSED, // add
    OPERAND + 8 * OPERAND + 64 * UNUSED, // subtract
    OPERAND + 8 * OPERAND + 64 * UNUSED, // less
    OPERAND + 8 * OPERAND + 64 * UNUSED, // equal
    OPERAND + 8 * OPERAND + 64 * UNUSED, // larger
    VALUE + 8 * OPERAND + 64 * SOURCE, // register
    OPERAND + 8 * COPIES + 64 * PERIOD, // faster
    OPERAND + 8 * COPIES + 64 * UNUSED, // slower
    OPERAND + 8 * TICKS + 64 * UNUSED, // later
    OPERAND + 8 * VALUE + 64 * TICKS, // head
    OPERAND + 8 * UNUSED + 64 * UNUSED, // tail
    OPERAND + 8 * OPERAND + 64 * UNUSED, // when
    OPERAND + 8 * OPERAND + 64 * UNUSED, // when-not
    OPERAND + 8 * OPERAND + 64 * OPERAND, // merge
    UNUSED + 8 * UNUSED + 64 * UNUSED, // unrated input
    OPERAND + 8 * OPERAND + 64 * PERIOD, // when-seen
    OPERAND + 8 * OPERAND + 64 * PERIOD, // when-not-seen
];

// The fields of each kind. A constant list is laid down anew wherever it is named: so these are apart from the other lists, which fewer need.
#[derive(Drop)]
pub(crate) struct Fields {
    list: [u32; KINDS as usize],
    ghost by_kind: { list ≡ kind_fields },
}

impl Fields {
    pub(crate) fn new() -> Fields {
        Fields { list: FIELDS }
    }

    // The field of a known kind at a place.
    pub(crate) fn at(&self, kind: u32, place: usize) -> usize
        requires { (kind < kind_count) × (place < 3) }
        ensures { result ≡ code (get_or (field_list (kind_at kind)) place unused) }
    {
        ((self.list[kind as usize] >> (3 * place)) % 8) as usize
    }

    // Whether the field of a known kind at a place holds a flow's number.
    pub(crate) fn holds_flow(&self, kind: u32, place: usize) -> bool
        requires { (kind < kind_count) × (place < 3) }
        ensures { result ≡ is_flow (get_or (field_list (kind_at kind)) place unused) }
    {
        self.at(kind, place) <= (SOURCE as usize)
    }
}

// All lists, for a loop over rows, which makes them once, before it begins.
#[derive(Drop)]
pub(crate) struct Layout {
    pub(crate) fields: Fields,
    pub(crate) least: [u32; 7],
    pub(crate) most: [u32; 7],
    pub(crate) width: [u32; 7],
    lengths: [u32; KINDS as usize],
    ghost by_length: { lengths ≡ record_lengths },
    ghost by_least: { least ≡ leasts },
    ghost by_most: { most ≡ mosts },
    ghost by_width: { width ≡ widths },
}

impl Layout {
    pub(crate) fn new() -> Layout {
        Layout {
            fields: Fields::new(),
            least: LEAST,
            most: MOST,
            width: WIDTH,
            lengths: LENGTH,
        }
    }

    // The bits of a row of a known kind in packed form.
    pub(crate) fn length_of(&self, kind: u32) -> usize
        requires { kind < kind_count }
        ensures { result ≡ row_length kind }
    {
        self.lengths[kind as usize] as usize
    }

    // Whether x is neither below a field's least number nor at its bound or above.
    fn within(&self, x: u32, field: usize, bound: &[u64; 7]) -> bool
        requires { field < 7 }
        ensures { Within bound.now field x result }
    {
        if x < self.least[field] {
            return false;
        }
        u64::from(x) < bound[field]
    }

    // Whether each field of a row of a known kind is within its bounds.
    fn all_within(&self, r: Record, bound: &[u64; 7]) -> bool
        requires { r.kind < kind_count }
        ensures { result ≡ each (bounded bound.now) (kind_at r.kind) (words_of r) }
    {
        if self.within(r.one, self.fields.at(r.kind, 0), bound) {
            if self.within(r.two, self.fields.at(r.kind, 1), bound) {
                return self.within(r.three, self.fields.at(r.kind, 2), bound);
            }
        }
        false
    }

    // Whether a row is accepted, by the bounds of the row and the count.
    pub(crate) fn accepts(&self, barred: u32, r: Record, bound: &[u64; 7]) -> bool
        ensures { Accepted barred bound.now (words_of r) result }
    {
        if !known(barred, r.kind) {
            return false;
        }
        self.all_within(r, bound)
    }

    // Why a row that is not accepted is refused. By the lists of the loop, and out of it: with lists of its own it takes 34 instructions more, and in
    // the loop each row takes 7 more.
    #[inline(never)]
    pub(crate) fn why(&self, rated: bool, r: Record) -> Refusal
        ensures { Fault rated (words_of r) result }
    {
        if !known(barred_kind(rated), r.kind) {
            return Refusal::UnknownKind;
        }
        if self.all_within(r, &BOUND) {
            return Refusal::Misplaced;
        }
        Refusal::OutOfRange
    }
}

// The kind that is not known: where the rates are asked for (data, no choice of a step), that of an unrated input; else one that there is not, so
// that one comparison serves both.
pub(crate) fn barred_kind(rated: bool) -> u32
    ensures { result ≡ barred_kind rated }
{
    if rated { UNRATED } else { KINDS }
}

// Whether a kind is known, by the one that is not.
fn known(barred: u32, kind: u32) -> bool
    ensures { Known barred kind result × (result ≡ true → kind < kind_count) }
{
    if kind == barred {
        return false;
    }
    kind < KINDS
}
