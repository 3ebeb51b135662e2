// Tests of a field's length. On an absent field none holds.
#![tactic(auto)]

ghost use Rattle.std.specs.Prelude.{◌≡◌, length};
ghost use Rattle.definitions.specs.Fields.{field_of, size_context};
ghost use Rattle.definitions.specs.Tests.{data_follows, size_holds, at_holds};
ghost use Rattle.fields.specs.Seen.{seen};
ghost use Rattle.definitions.specs.declared.packets.PacketHeader.{PacketHeader};

use definitions::packets::{FieldMap, Match};
use definitions::table::{AtTest, Context, SizeField, SizeTest};
use fields::{field_of, is_present};
use match_number_tests::order_holds;
use match_origins::{at_context, at_start};

fn field_length<'a>(payload: &'a [u8], decoded: &'a [u8], m: FieldMap, c: Context) -> usize
    ensures { result ≡ length (field_of payload.now decoded.now m c) }
{
    field_of(payload, decoded, m, c).len()
}

fn size_context(field: SizeField) -> Context
    ensures { result ≡ size_context field }
{
    match field {
        SizeField::Payload => Context::Packet,
        SizeField::Uri => Context::Uri,
        SizeField::Header => Context::Header,
        SizeField::Body => Context::Body,
    }
}

// data_size.
#[tactic(auto, unfolding(definitions::specs::Tests::size_holds))]
pub fn size_holds<'a>(payload: &'a [u8], decoded: &'a [u8], m: FieldMap, t: SizeTest) -> bool
    ensures { (f : PacketHeader) → result ≡ size_holds (seen f payload.now decoded.now m) t }
{
    let c = size_context(t.field);
    is_present(m, c)
        && order_holds(
            t.order,
            field_length(payload, decoded, m, c),
            usize::from(t.number),
        )
}

// At least n bytes follow a start in a field of so many bytes; no sum of the two can wrap here.
fn data_follows(n: usize, start: usize, len: usize) -> bool
    ensures { result ≡ data_follows n start len }
{
    start <= len && n <= len - start
}

// data_at.
#[tactic(auto, unfolding(definitions::specs::Tests::at_holds))]
pub fn at_holds<'a>(
    payload: &'a [u8],
    decoded: &'a [u8],
    m: FieldMap,
    t: AtTest,
    last: Option<Match>,
) -> bool
    ensures { (f : PacketHeader) → result ≡ at_holds (seen f payload.now decoded.now m) t last }
{
    let context = at_context(t.relative, last);
    is_present(m, context)
        && data_follows(
            usize::from(t.number),
            at_start(t.relative, last),
            field_length(payload, decoded, m, context),
        )
}
