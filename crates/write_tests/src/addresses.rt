// Lists of addresses, in brackets only for two or more.
ghost use Rattle.std.specs.Prelude.{◌≤◌, take};
ghost use Rattle.definitions.specs.Limits.{max_addresses};
ghost use Rattle.definitions.specs.Canonical.{addresses_text, bracketed};
ghost use Rattle.write_bytes.specs.Puts.{Puts};

use definitions::limits::ADDRESSES;
use definitions::table::Address;
use write_bytes::limits::at_most;
use write_bytes::{put, put_if};
use write_values::put_address;

// The first `n` addresses, a comma between two.
fn put_list(out: &mut [u8], at: usize, list: [Address; ADDRESSES], n: usize) -> usize
    requires { n ≤ max_addresses }
    ensures { Puts out.old at (addresses_text (take n list)) out.new result }
{
    let mut next = at;
    for (i, a) in list[..n].iter().enumerate() {
        let comma = put_if(out, next, 0 < i, b",");
        next = put_address(out, comma, *a);
    }
    next
}

// The first `count` addresses of a list, in brackets if they are two or more.
pub fn put_bracketed(out: &mut [u8], at: usize, list: [Address; ADDRESSES], count: usize) -> usize
    ensures { Puts out.old at (bracketed (take count list)) out.new result }
{
    let n = at_most(count, ADDRESSES);
    if 1 < n {
        let a1 = put(out, at, b'[');
        let a2 = put_list(out, a1, list, n);
        return put(out, a2, b']');
    }
    put_list(out, at, list, n)
}
