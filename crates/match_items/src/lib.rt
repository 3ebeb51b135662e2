// When an item holds: every test by one function, a negated pattern, and a table's protocol and flow.
#![tactic(auto)]

pub mod heads;
pub mod negated;

ghost use Rattle.std.specs.Prelude.{◌≡◌};
ghost use Rattle.definitions.specs.Tests.{test_holds};
ghost use Rattle.fields.specs.Seen.{seen};

use definitions::limits::ADDRESSES;
use definitions::packets::{FieldMap, Match, PacketHeader};
use definitions::table::{Address, Item};
use match_address_tests::{address_holds, same_ip};
use match_byte_tests::byte_holds;
use match_length_tests::{at_holds, size_holds};
use match_number_tests::{field_holds, number_holds, ttl_holds};

// Whether a test holds after the last positive pattern. A slot that is not in use, and a pattern, are no tests.
#[tactic(auto, unfolding(definitions::specs::Tests::test_holds))]
pub fn test_holds<'a>(
    f: PacketHeader,
    payload: &'a [u8],
    decoded: &'a [u8],
    m: FieldMap,
    item: Item,
    addresses: [Address; ADDRESSES],
    last: Option<Match>,
) -> bool
    ensures { result ≡ test_holds (seen f payload.now decoded.now m) item addresses last }
{
    match item {
        Item::Unused => false,
        Item::Address(a) => address_holds(f, a, addresses),
        Item::SameIp => same_ip(f),
        Item::Number(t) => number_holds(f, t),
        Item::Ttl(t) => ttl_holds(f, t),
        Item::Field(t) => field_holds(f, t),
        Item::Size(t) => size_holds(payload, decoded, m, t),
        Item::At(t) => at_holds(payload, decoded, m, t, last),
        Item::Byte(t) => byte_holds(payload, decoded, m, t, last),
        Item::Pattern(_) => false,
    }
}
