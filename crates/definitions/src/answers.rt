// The answers of the public entries. specs/Refusals.antt gives document 01's number and values for each case.
use crate::packets::Placement;
use crate::table::Table;

// The causes of refusal: 1 to 12, 20 to 22, 30 to 36, 50 to 53, in this order.
#[derive(Clone, Copy, PartialEq, Eq)]
pub enum Refusal {
    TextLength,
    TextByte,
    Opening,
    NeitherOptionNorEnd,
    NotListed,
    Form,
    Limit,
    Repeated,
    ModifierWithoutPattern,
    Unusable,
    CountExceeded,
    Missing,
    IllFormed,
    CanonicalLength,
    ShortBuffer,
    BufferLength,
    NotIpv4,
    Lengths,
    Fragment,
    Transport,
    FieldSpan,
    EarlierCount,
    BookLength,
    RuleForm,
    RuleOrder,
    RuleCount,
}

// A refusal of a text, and its place there.
#[derive(Clone, Copy, PartialEq, Eq)]
pub struct TextRefusal {
    pub refusal: Refusal,
    pub place: usize,
}

// A refusal of a rule book, and the number of the line.
#[derive(Clone, Copy, PartialEq, Eq)]
pub struct BookRefusal {
    pub refusal: Refusal,
    pub line: usize,
}

// The reader's answer. A refused text has a table too, the empty one: document 01 says what stands in it, and callers may rest on that.
#[derive(Clone, Copy, PartialEq, Eq)]
pub struct Reading {
    pub outcome: Result<(), TextRefusal>,
    pub table: Table,
}

// What the verdict says of a packet that is not refused.
#[derive(Clone, Copy, PartialEq, Eq)]
pub enum Verdict {
    Met,
    NotMet,
}

// What "first" and "next" say of a packet that is not refused.
#[derive(Clone, Copy, PartialEq, Eq)]
pub enum Found {
    Placed,
    Nothing,
}

// The answer of "first" or "next". Where none is found or something is due there is a placement too, of count 0: document 01 says so, and it is what the next
// "next" is handed.
#[derive(Clone, Copy, PartialEq, Eq)]
pub struct Answer {
    pub found: Result<Found, Refusal>,
    pub placement: Placement,
}

// One query of a list of queries.
#[derive(Clone, Copy, PartialEq, Eq)]
pub enum Query {
    First,
    Next,
}
