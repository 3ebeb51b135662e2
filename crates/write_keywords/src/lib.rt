// Keywords, as canonical text has them; what it leaves out is empty. They stand in one table, and one function puts any of them.
#![tactic(auto)]

ghost use Rattle.definitions.specs.Canonical.{side_name, number_name, order_text, field_name, operator_text, byte_operator_text, size_field_text, reference_text};
ghost use Rattle.write_keywords.specs.Keywords.{Listed, spelled, Spells, flow_keyword, context_keyword};
ghost use Rattle.write_bytes.specs.Puts.{Puts};

use definitions::table::{
    ByteOperator, Context, Flow, HeaderField, NumberField, Operator, Order, Reference, Side,
    SizeField,
};
use write_bytes::put_word;

// A keyword: where its bytes start in the table, and the place after them.
#[derive(Clone, Copy)]
pub struct Keyword(pub usize, pub usize);

// Any keyword.
pub fn put_keyword(out: &mut [u8], at: usize, k: Keyword) -> usize
    requires { Listed k }
    ensures { Puts out.old at (spelled k) out.new result }
{
    let table: &[u8] = b"src_addrdst_addrip_idsrc_portdst_portip_tos\
        ip.total_lengthip.idip.checksumip.ttl\
        !=<=>=\
        ,uri,header,body,packet,context\
        \x20--flow from_client; --flow from_server;\
        \x20--context uri; --context header; --context body;\
        \x20--context banner; --context host; --context file;";
    put_word(out, at, &table[k.0..k.1])
}

// The option flow, empty where none is given.
pub fn flow_keyword(f: Flow) -> Keyword
    ensures { Spells result (flow_keyword f) }
{
    match f {
        Flow::Any => Keyword(0, 0),
        Flow::FromClient => Keyword(117, 137),
        Flow::FromServer => Keyword(137, 157),
    }
}

// The name of the option that tests a side's address.
pub fn side_keyword(s: Side) -> Keyword
    ensures { Spells result (side_name s) }
{
    match s {
        Side::Source => Keyword(0, 8),
        Side::Destination => Keyword(8, 16),
    }
}

// The name of the option that tests a number. A table with an ip_id is refused before it comes here.
pub fn number_field_keyword(f: NumberField) -> Keyword
    ensures { Spells result (number_name f) }
{
    match f {
        NumberField::IpId => Keyword(16, 21),
        NumberField::SourcePort => Keyword(21, 29),
        NumberField::DestinationPort => Keyword(29, 37),
        NumberField::Tos => Keyword(37, 43),
    }
}

// The sign before a number; equal is left out.
pub fn order_keyword(o: Order) -> Keyword
    ensures { Spells result (order_text o) }
{
    match o {
        Order::Equal => Keyword(0, 0),
        Order::Less => Keyword(82, 83),
        Order::Greater => Keyword(84, 85),
    }
}

// The name of the option that tests a field of the header.
pub fn header_field_keyword(f: HeaderField) -> Keyword
    ensures { Spells result (field_name f) }
{
    match f {
        HeaderField::TotalLength => Keyword(43, 58),
        HeaderField::Id => Keyword(58, 63),
        HeaderField::Checksum => Keyword(63, 74),
        HeaderField::Ttl => Keyword(74, 80),
    }
}

// The operator of a field test.
pub fn operator_keyword(o: Operator) -> Keyword
    ensures { Spells result (operator_text o) }
{
    match o {
        Operator::Equal => Keyword(81, 82),
        Operator::Unequal => Keyword(80, 82),
        Operator::Less => Keyword(82, 83),
        Operator::Greater => Keyword(84, 85),
        Operator::AtMost => Keyword(82, 84),
        Operator::AtLeast => Keyword(84, 86),
    }
}

// The operator of a byte test.
pub fn byte_operator_keyword(o: ByteOperator) -> Keyword
    ensures { Spells result (byte_operator_text o) }
{
    match o {
        ByteOperator::Greater => Keyword(84, 85),
        ByteOperator::Less => Keyword(82, 83),
        ByteOperator::Equal => Keyword(81, 82),
        ByteOperator::Unequal => Keyword(80, 81),
    }
}

// The part whose size is tested, after a comma; the payload is left out.
pub fn size_field_keyword(f: SizeField) -> Keyword
    ensures { Spells result (size_field_text f) }
{
    match f {
        SizeField::Payload => Keyword(0, 0),
        SizeField::Uri => Keyword(86, 90),
        SizeField::Header => Keyword(90, 97),
        SizeField::Body => Keyword(97, 102),
    }
}

// What a place is counted from, after a comma; the last match is left out.
pub fn reference_keyword(r: Reference) -> Keyword
    ensures { Spells result (reference_text r) }
{
    match r {
        Reference::Match => Keyword(0, 0),
        Reference::Packet => Keyword(102, 109),
        Reference::Context => Keyword(109, 117),
    }
}

// The option context; packet is left out.
pub fn context_keyword(c: Context) -> Keyword
    ensures { Spells result (context_keyword c) }
{
    match c {
        Context::Packet => Keyword(0, 0),
        Context::Uri => Keyword(157, 172),
        Context::Header => Keyword(172, 190),
        Context::Body => Keyword(190, 206),
        Context::Banner => Keyword(206, 224),
        Context::Host => Keyword(224, 240),
        Context::File => Keyword(240, 256),
    }
}
