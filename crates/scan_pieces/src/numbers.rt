// Numbers up to a limit, in decimal or hex.
ghost use Rattle.std.specs.Prelude.{◌≤◌, ◌<◌, length, ◌≡◌};
ghost use Rattle.definitions.specs.Numbers.{number, numeral};
ghost use Rattle.scan_bytes.specs.Classes.{class_of};
ghost use Rattle.scan_bytes.specs.Capped.{number_cap};
ghost use Rattle.scan_cursors.specs.Reads.{Reads};
ghost use Rattle.scan_cursors.specs.declared.Cursor.TheVariants.{Parsed};
ghost use Rattle.scan_pieces.specs.Digits.{digits_within, hex_prefixed};

use crate::literals::{stands, starts};
use scan_bytes::bytes::Class;
use scan_bytes::numbers::value_of;
use scan_bytes::runs::run_of;
use scan_cursors::{Cursor, Scanned};

// The run of digits of a class as a number in a base, up to a limit; one beyond it is told by its first digit, and its value is 0.
fn digits_at(s: &[u8], at: usize, k: Class, base: u64, limit: u64) -> Scanned<u64>
    requires { (at ≤ length s.now) × (limit < number_cap) × (1 ≤ base) × (base ≤ 16) }
    ensures { Reads (digits_within (class_of k) base limit) s.now (Parsed at) result.value result.cursor × (result.value ≤ limit) }
{
    let end = run_of(s, at, k);
    if end == at {
        return Scanned {
            value: 0,
            cursor: Cursor::Failed(at),
        };
    }
    let value = value_of(s, at, end, base);
    if value <= limit {
        Scanned {
            value,
            cursor: Cursor::Parsed(end),
        }
    } else {
        Scanned {
            value: 0,
            cursor: Cursor::OutOfRange(at, end),
        }
    }
}

// A decimal number up to a limit.
pub fn number_at(s: &[u8], at: usize, limit: u64) -> Scanned<u64>
    requires { (at ≤ length s.now) × (limit < number_cap) }
    ensures { Reads (number limit) s.now (Parsed at) result.value result.cursor × (result.value ≤ limit) }
{
    digits_at(s, at, Class::Digit, 10, limit)
}

// Whether `0x` or `0X` stands at the place.
fn is_hex_prefix(s: &[u8], at: usize) -> bool
    ensures { result ≡ hex_prefixed s.now at }
{
    stands(s, at, b'0') && starts(s, at + 1, b'x')
}

// A number in decimal, or in hex after `0x` or `0X`, up to a limit.
pub fn numeral_at(s: &[u8], at: usize, limit: u64) -> Scanned<u64>
    requires { (at ≤ length s.now) × (limit < number_cap) }
    ensures { Reads (numeral limit) s.now (Parsed at) result.value result.cursor × (result.value ≤ limit) }
{
    if is_hex_prefix(s, at) {
        digits_at(s, at + 2, Class::HexDigit, 16, limit)
    } else {
        number_at(s, at, limit)
    }
}
