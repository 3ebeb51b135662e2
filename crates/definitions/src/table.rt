// The rule table, a struct by value. Each table that some text reads as has one representation: unused room is zero.
use crate::limits::{ADDRESSES, ITEMS, NAME_BYTES, PATTERN_BYTES};

// The flow that a rule asks for.
#[derive(Clone, Copy, PartialEq, Eq)]
pub enum Flow {
    Any,
    FromClient,
    FromServer,
}

// src_addr and dst_addr: `count` of the slot's addresses are in use.
#[derive(Clone, Copy, PartialEq, Eq)]
pub enum Side {
    Source,
    Destination,
}

// src_addr or dst_addr, negated or not, against the first addresses of its slot.
#[derive(Clone, Copy, PartialEq, Eq)]
pub struct AddressTest {
    pub side: Side,
    pub negated: bool,
    pub count: usize,
}

// ip_id, src_port, dst_port, ip_tos: the field is equal to the number. No text reads as an ip_id: it is kept so that a table which holds one can be handed in,
// and is refused (document 02, T-09).
#[derive(Clone, Copy, PartialEq, Eq)]
pub enum NumberField {
    IpId,
    SourcePort,
    DestinationPort,
    Tos,
}

// A header number that must be equal.
#[derive(Clone, Copy, PartialEq, Eq)]
pub struct NumberTest {
    pub field: NumberField,
    pub number: u16,
}

// The operator of ip_ttl and data_size; none, or `=`, is Equal.
#[derive(Clone, Copy, PartialEq, Eq)]
pub enum Order {
    Equal,
    Less,
    Greater,
}

// ip_ttl: an order and a number.
#[derive(Clone, Copy, PartialEq, Eq)]
pub struct TtlTest {
    pub order: Order,
    pub number: u8,
}

// ip.total_length, ip.id, ip.checksum, ip.ttl. A missing mask is the full mask.
#[derive(Clone, Copy, PartialEq, Eq)]
pub enum HeaderField {
    TotalLength,
    Id,
    Checksum,
    Ttl,
}

// The operator of a field test.
#[derive(Clone, Copy, PartialEq, Eq)]
pub enum Operator {
    Equal,
    Unequal,
    Less,
    Greater,
    AtMost,
    AtLeast,
}

// A field test: the field AND the mask, compared with the number.
#[derive(Clone, Copy, PartialEq, Eq)]
pub struct FieldTest {
    pub field: HeaderField,
    pub mask: u16,
    pub operator: Operator,
    pub number: u16,
}

// data_size, and the field whose size it is.
#[derive(Clone, Copy, PartialEq, Eq)]
pub enum SizeField {
    Payload,
    Uri,
    Header,
    Body,
}

// data_size: an order, a number, and the field whose size it is.
#[derive(Clone, Copy, PartialEq, Eq)]
pub struct SizeTest {
    pub order: Order,
    pub number: u16,
    pub field: SizeField,
}

// data_at.
#[derive(Clone, Copy, PartialEq, Eq)]
pub struct AtTest {
    pub number: u16,
    pub relative: bool,
}

// How many bytes a byte test reads. No other count can be handed in.
#[derive(Clone, Copy, PartialEq, Eq)]
pub enum Width {
    One,
    Two,
    Four,
}

// The operator of a byte test.
#[derive(Clone, Copy, PartialEq, Eq)]
pub enum ByteOperator {
    Greater,
    Less,
    Equal,
    Unequal,
}

// byte_test: the number that some bytes write, compared with a value (document 02, T-01). Whatever is handed in, some text says it.
#[derive(Clone, Copy, PartialEq, Eq)]
pub struct ByteTest {
    pub width: Width,
    pub operator: ByteOperator,
    pub value: u32,
    pub offset: u16,
    pub relative: bool,
    pub little: bool,
}

// The field that a pattern lies in.
#[derive(Clone, Copy, PartialEq, Eq)]
pub enum Context {
    Packet,
    Uri,
    Header,
    Body,
    Banner,
    Host,
    File,
}

// What distance and within are counted from.
#[derive(Clone, Copy, PartialEq, Eq)]
pub enum Reference {
    Match,
    Packet,
    Context,
}

// distance: by so much. -0 is 0, since the offset is one signed number.
#[derive(Clone, Copy, PartialEq, Eq)]
pub struct DistanceValue {
    pub offset: i32,
    pub reference: Reference,
    pub reverse: bool,
}

// within: so many bytes.
#[derive(Clone, Copy, PartialEq, Eq)]
pub struct WithinValue {
    pub number: u16,
    pub reference: Reference,
}

// A pattern with its modifiers. Its bytes are the next `len` of the table's, after those of the patterns before it.
#[derive(Clone, Copy, PartialEq, Eq)]
pub struct Pattern {
    pub negated: bool,
    pub len: usize,
    pub context: Context,
    pub nocase: bool,
    pub distance: Option<DistanceValue>,
    pub within: Option<WithinValue>,
}

// An item of a table: a test, a pattern, or none.
#[derive(Clone, Copy, PartialEq, Eq)]
pub enum Item {
    Unused,
    Address(AddressTest),
    SameIp,
    Number(NumberTest),
    Ttl(TtlTest),
    Field(FieldTest),
    Size(SizeTest),
    At(AtTest),
    Byte(ByteTest),
    Pattern(Pattern),
}

// An address of a test: its bits after the prefix are kept as read.
#[derive(Clone, Copy, PartialEq, Eq)]
pub struct Address {
    pub number: u32,
    pub prefix: u8,
}

// An item, and beside it the addresses of an address test; all zero for any other item.
#[derive(Clone, Copy, PartialEq, Eq)]
pub struct Slot {
    pub item: Item,
    pub addresses: [Address; ADDRESSES],
}

// The table of a rule: name, protocol, flow, pattern bytes, items.
#[derive(Clone, Copy, PartialEq, Eq)]
pub struct Table {
    pub name: [u8; NAME_BYTES],
    pub len: usize,
    pub protocol: u8,
    pub flow: Flow,
    pub bytes: [u8; PATTERN_BYTES],
    pub used: usize,
    pub items: [Slot; ITEMS],
    pub count: usize,
}
