// Addresses: four numbers with dots, and an optional prefix.
ghost use Rattle.std.specs.Prelude.{◌≡◌, ◌+◌, ◌*◌, ◌≤◌};
ghost use Rattle.definitions.specs.Limits.{max_byte};
ghost use Rattle.definitions.specs.Numbers.{number};
ghost use Rattle.definitions.specs.Forms.{dotted, address};
ghost use Rattle.scan_cursors.specs.Reads.{Inside, Reads};
ghost use Rattle.read_addresses.specs.Listing.{prefixed};

use definitions::limits::{MAX_BYTE, MAX_PREFIX};
use definitions::table::Address;
use scan_cursors::{Cursor, Scanned};
use scan_steps::literals::{next_is, then_literal};
use scan_steps::numbers::then_number;

// A number that fits a byte.
fn then_byte(s: &[u8], c: Cursor, limit: u64) -> Scanned<u8>
    requires { Inside s.now c × (limit ≤ max_byte) }
    ensures { Reads (number limit) s.now c result.value result.cursor }
{
    let n = then_number(s, c, limit);
    Scanned {
        value: n.value as u8,
        cursor: n.cursor,
    }
}

// A number and a dot.
fn then_dotted(s: &[u8], c: Cursor) -> Scanned<u8>
    requires { Inside s.now c }
    ensures { Reads dotted s.now c result.value result.cursor }
{
    let n = then_byte(s, c, MAX_BYTE);
    Scanned {
        cursor: then_literal(s, n.cursor, b'.'),
        ..n
    }
}

// `/` and a number, or nothing.
fn then_prefix(s: &[u8], c: Cursor) -> Scanned<u8>
    requires { Inside s.now c }
    ensures { Reads prefixed s.now c result.value result.cursor }
{
    if next_is(s, c, b'/') {
        let slash = then_literal(s, c, b'/');
        return then_byte(s, slash, MAX_PREFIX as u64);
    }
    Scanned {
        value: MAX_PREFIX,
        cursor: c,
    }
}

// The number that four bytes write.
fn number_of(a: u8, b: u8, c: u8, d: u8) -> u32
    ensures { result ≡ ((a * 256 + b) * 256 + c) * 256 + d }
{
    u32::from_be_bytes([a, b, c, d])
}

// An address with its prefix.
pub fn then_address(s: &[u8], c: Cursor) -> Scanned<Address>
    requires { Inside s.now c }
    ensures { Reads address s.now c result.value result.cursor }
{
    let n1 = then_dotted(s, c);
    let n2 = then_dotted(s, n1.cursor);
    let n3 = then_dotted(s, n2.cursor);
    let n4 = then_byte(s, n3.cursor, MAX_BYTE);
    let p = then_prefix(s, n4.cursor);
    Scanned {
        value: Address {
            number: number_of(n1.value, n2.value, n3.value, n4.value),
            prefix: p.value,
        },
        cursor: p.cursor,
    }
}
