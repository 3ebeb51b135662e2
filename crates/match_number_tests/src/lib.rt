// Tests of the header's numbers.
#![tactic(auto)]

ghost use Rattle.std.specs.Prelude.{◌≡◌, ◌&&◌, eqb};
ghost use Rattle.definitions.specs.Packet.{has_ports};
ghost use Rattle.definitions.specs.Tests.{number_holds, order_holds, header_value, operator_holds, field_holds};

use definitions::packets::PacketHeader;
use definitions::table::{
    FieldTest, HeaderField, NumberField, NumberTest, Operator, Order, TtlTest,
};
use packet_header::protocols::has_ports;

// A port test on other protocols doesn't hold.
fn port_holds(protocol: u8, port: u16, n: u16) -> bool
    ensures { result ≡ (has_ports protocol && eqb port n) }
{
    has_ports(protocol) && port == n
}

// ip_id, src_port, dst_port, ip_tos. A table with an ip_id is refused before it comes here.
#[tactic(auto, unfolding(definitions::specs::Tests::number_holds))]
pub fn number_holds(f: PacketHeader, t: NumberTest) -> bool
    ensures { result ≡ number_holds f t.field t.number }
{
    match t.field {
        NumberField::IpId => f.id == t.number,
        NumberField::SourcePort => port_holds(f.protocol, f.sport, t.number),
        NumberField::DestinationPort => port_holds(f.protocol, f.dport, t.number),
        NumberField::Tos => u16::from(f.tos) == t.number,
    }
}

// ip_ttl and data_size: x is compared with n.
pub fn order_holds(order: Order, x: usize, n: usize) -> bool
    ensures { result ≡ order_holds order x n }
{
    match order {
        Order::Equal => x == n,
        Order::Less => x < n,
        Order::Greater => n < x,
    }
}

// ip_ttl: the time to live compared with the number.
pub fn ttl_holds(f: PacketHeader, t: TtlTest) -> bool
    ensures { result ≡ order_holds t.order f.ttl t.number }
{
    order_holds(t.order, usize::from(f.ttl), usize::from(t.number))
}

fn header_value(f: PacketHeader, field: HeaderField) -> usize
    ensures { result ≡ header_value f field }
{
    match field {
        HeaderField::TotalLength => f.total,
        HeaderField::Id => usize::from(f.id),
        HeaderField::Checksum => usize::from(f.checksum),
        HeaderField::Ttl => usize::from(f.ttl),
    }
}

// x is compared with n, as a field test or a byte test asks.
pub fn operator_holds(operator: Operator, x: usize, n: usize) -> bool
    ensures { result ≡ operator_holds operator x n }
{
    match operator {
        Operator::Equal => x == n,
        Operator::Unequal => x != n,
        Operator::Less => x < n,
        Operator::Greater => n < x,
        Operator::AtMost => x <= n,
        Operator::AtLeast => n <= x,
    }
}

// ip.total_length, ip.id, ip.checksum, ip.ttl: the field and the mask, compared, whatever the field's width.
#[tactic(auto, unfolding(definitions::specs::Tests::field_holds))]
pub fn field_holds(f: PacketHeader, t: FieldTest) -> bool
    ensures { result ≡ field_holds f t }
{
    let value = header_value(f, t.field) & usize::from(t.mask);
    operator_holds(t.operator, value, usize::from(t.number))
}
