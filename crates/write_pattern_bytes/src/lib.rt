// The bytes of a pattern: plain ones as themselves, the rest in hex, neighbours in one block.
#![tactic(auto)]

ghost use Rattle.std.specs.Prelude.{◌≡◌, false, ◌<◌};
ghost use Rattle.definitions.specs.Canonical.{hex_digit, pattern_text};
ghost use Rattle.write_pattern_bytes.specs.Parts.{byte_text};
ghost use Rattle.write_bytes.specs.Puts.{Puts};

use scan_bytes::bytes::is_plain;
use write_bytes::{put, put_if};

// 0 to 9, A to F.
fn hex_digit(d: u8) -> u8
    requires { d < 16 }
    ensures { result ≡ hex_digit d }
{
    if d < 10 { b'0' + d } else { b'A' - 10 + d }
}

// One byte; `opened` tells whether a block of hex is open before it.
fn put_byte(out: &mut [u8], at: usize, opened: bool, plain: bool, b: u8) -> usize
    ensures { Puts out.old at (byte_text opened plain b) out.new result }
{
    if plain {
        let a1 = put_if(out, at, opened, b"|");
        return put(out, a1, b);
    }
    let high = hex_digit(b / 16);
    let low = hex_digit(b % 16);
    let a1 = put_if(out, at, !opened, b"|");
    let a2 = put(out, a1, high);
    put(out, a2, low)
}

// The bytes of a pattern, as they stand between its quotes.
pub fn put_bytes(out: &mut [u8], at: usize, b: &[u8]) -> usize
    ensures { Puts out.old at (pattern_text false b.now) out.new result }
{
    let mut next = at;
    let mut opened = false;
    for x in b {
        let plain = is_plain(*x);
        next = put_byte(out, next, opened, plain, *x);
        opened = !plain;
    }
    put_if(out, next, opened, b"|")
}
