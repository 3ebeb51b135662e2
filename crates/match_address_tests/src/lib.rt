// Tests of addresses.
#![tactic(auto)]

ghost use Rattle.std.specs.Prelude.{◌≡◌, ◌-◌, eqb, take};
ghost use Rattle.definitions.specs.Limits.{max_prefix};
ghost use Rattle.definitions.specs.Tests.{packet_address, same_bits, in_addresses, address_holds};

use definitions::limits::ADDRESSES;
use definitions::packets::PacketHeader;
use definitions::table::{Address, AddressTest, Side};

fn packet_address(f: PacketHeader, side: Side) -> u32
    ensures { result ≡ packet_address f side }
{
    match side {
        Side::Source => f.source,
        Side::Destination => f.destination,
    }
}

// How many bits of an address stand after a prefix.
fn bits_after(prefix: u8) -> u64
    ensures { result ≡ max_prefix - prefix }
{
    u64::from(32u8.saturating_sub(prefix))
}

// Equal in the first bits, as many as the prefix says.
fn same_bits(prefix: u8, a: u32, b: u32) -> bool
    ensures { result ≡ same_bits prefix a b }
{
    let k = bits_after(prefix);
    u64::from(a) >> k == u64::from(b) >> k
}

// Equal in its prefix to one of the first addresses.
fn in_addresses(x: u32, addresses: [Address; ADDRESSES], count: usize) -> bool
    ensures { result ≡ in_addresses x (take count addresses) }
{
    addresses
        .iter()
        .take(count)
        .any(|a| same_bits(a.prefix, x, a.number))
}

// src_addr and dst_addr: `!` turns the whole answer.
#[tactic(auto, unfolding(definitions::specs::Tests::address_holds))]
pub fn address_holds(f: PacketHeader, a: AddressTest, addresses: [Address; ADDRESSES]) -> bool
    ensures { result ≡ address_holds f a addresses }
{
    let among = in_addresses(packet_address(f, a.side), addresses, a.count);
    among != a.negated
}

// same_ip: source and destination are the same address.
pub fn same_ip(f: PacketHeader) -> bool
    ensures { result ≡ eqb f.source f.destination }
{
    f.source == f.destination
}
