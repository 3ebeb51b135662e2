// byte_test: the number of some bytes of a field, compared with a value. On an absent field, or past the field's end, it doesn't hold.
#![tactic(auto)]

ghost use Rattle.std.specs.Prelude.{◌≡◌, ◌+◌, leb, length};
ghost use Rattle.definitions.specs.ByteCounts.{byte_count};
ghost use Rattle.definitions.specs.Packet.{big_endian};
ghost use Rattle.definitions.specs.Tests.{operator_holds, compared_by, big_end_first, bytes_hold, byte_holds};
ghost use Rattle.fields.specs.Seen.{seen};
ghost use Rattle.definitions.specs.declared.packets.PacketHeader.{PacketHeader};

use definitions::packets::{FieldMap, Match};
use definitions::table::{ByteOperator, ByteTest, Operator};
use fields::{field_of, is_present};
use match_number_tests::operator_holds;
use match_origins::{at_context, at_start};
use packet_header::byte_numbers::number_of;
use table_limits::byte_count;

// The operator as that of a field test: `!` is not equal.
fn compared_by(o: ByteOperator) -> Operator
    ensures { result ≡ compared_by o }
{
    match o {
        ByteOperator::Greater => Operator::Greater,
        ByteOperator::Less => Operator::Less,
        ByteOperator::Equal => Operator::Equal,
        ByteOperator::Unequal => Operator::Unequal,
    }
}

// n bytes at an offset after a start lie in a field of so many bytes; no sum of these can wrap here.
fn lie_inside(start: usize, offset: usize, n: usize, len: usize) -> bool
    ensures { result ≡ leb (start + offset + n) len }
{
    start <= len && offset <= len - start && n <= len - start - offset
}

// The number of some bytes, compared with the test's value.
fn compared(part: &[u8], t: ByteTest) -> bool
    requires { length part.now ≡ byte_count t.width }
    ensures { result ≡ operator_holds (compared_by t.operator) (big_endian (byte_count t.width) (big_end_first t.little part.now) 0) t.value }
{
    let x = number_of(part, t.little);
    operator_holds(compared_by(t.operator), x as usize, t.value as usize)
}

// The test in a field, counted from a start there.
#[tactic(auto, unfolding(definitions::specs::Tests::bytes_hold, definitions::specs::Tests::number_at))]
fn bytes_hold(d: &[u8], t: ByteTest, start: usize) -> bool
    ensures { result ≡ bytes_hold t (start + t.offset) d.now }
{
    let n = byte_count(t.width) as usize;
    let offset = usize::from(t.offset);
    lie_inside(start, offset, n, d.len()) && compared(&d[start + offset..start + offset + n], t)
}

// byte_test.
#[tactic(auto, unfolding(definitions::specs::Tests::byte_holds))]
pub fn byte_holds<'a>(
    payload: &'a [u8],
    decoded: &'a [u8],
    m: FieldMap,
    t: ByteTest,
    last: Option<Match>,
) -> bool
    ensures { (f : PacketHeader) → result ≡ byte_holds (seen f payload.now decoded.now m) t last }
{
    let context = at_context(t.relative, last);
    is_present(m, context)
        && bytes_hold(
            field_of(payload, decoded, m, context),
            t,
            at_start(t.relative, last),
        )
}
