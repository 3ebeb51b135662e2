// The addresses of a slot.
ghost use Rattle.std.specs.Prelude.{◌≡◌, ◌≤◌, take, drop};
ghost use Rattle.definitions.specs.Limits.{max_addresses};
ghost use Rattle.definitions.specs.Lists.{all?};
ghost use Rattle.definitions.specs.WellFormed.{address_fits, address_unused};

use definitions::limits::ADDRESSES;
use definitions::table::Address;
use table_limits::{address_fits, address_unused};

// The first addresses of a slot are addresses.
pub fn addresses_fit(list: [Address; ADDRESSES], n: usize) -> bool
    requires { n ≤ max_addresses }
    ensures { result ≡ all? address_fits (take n list) }
{
    list[..n].iter().all(|a| address_fits(*a))
}

// A slot's addresses are not in use, from a place on.
pub fn addresses_unused(list: [Address; ADDRESSES], from: usize) -> bool
    ensures { result ≡ all? address_unused (drop from list) }
{
    let rest = &list[from.min(ADDRESSES)..];
    rest.iter().all(|a| address_unused(*a))
}
