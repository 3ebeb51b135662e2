// What the guard sees of a packet, the map of its fields, and placements.
use crate::limits::PATTERNS;
use crate::table::Context;

// Where a packet comes from.
#[derive(Clone, Copy, PartialEq, Eq)]
pub enum Direction {
    Client,
    Server,
}

// The header fields of a datagram by value: its length, where its payload starts, and the header fields that tests compare.
// The ports are 0 where the protocol has none.
#[derive(Clone, Copy, PartialEq, Eq)]
pub struct PacketHeader {
    pub total: usize,
    pub payload: usize,
    pub protocol: u8,
    pub tos: u8,
    pub id: u16,
    pub ttl: u8,
    pub checksum: u16,
    pub source: u32,
    pub destination: u32,
    pub sport: u16,
    pub dport: u16,
}

// A field's place in its buffer.
#[derive(Clone, Copy, PartialEq, Eq)]
pub struct Span {
    pub start: usize,
    pub len: usize,
}

// The field map, each field at its span or absent: body, banner and file lie in the payload; uri, header and host in the decoded buffer.
#[derive(Clone, Copy, PartialEq, Eq)]
pub struct FieldMap {
    pub uri: Option<Span>,
    pub header: Option<Span>,
    pub body: Option<Span>,
    pub banner: Option<Span>,
    pub host: Option<Span>,
    pub file: Option<Span>,
}

// The last positive pattern before an item: its context and the end at which it lies.
#[derive(Clone, Copy, PartialEq, Eq)]
pub struct Match {
    pub context: Context,
    pub end: usize,
}

// An entry of a placement: where a positive pattern lies, counted from its field's start.
#[derive(Clone, Copy, PartialEq, Eq)]
pub struct Start {
    pub at: usize,
}

// A start for each positive pattern, in text order; starts not in use are zero.
#[derive(Clone, Copy, PartialEq, Eq)]
pub struct Placement {
    pub count: usize,
    pub starts: [Start; PATTERNS],
}
