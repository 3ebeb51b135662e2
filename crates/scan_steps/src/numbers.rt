// Numbers up to a limit, from a cursor on.
ghost use Rattle.std.specs.Prelude.{◌≤◌, ◌<◌};
ghost use Rattle.definitions.specs.Numbers.{number, numeral};
ghost use Rattle.scan_bytes.specs.Capped.{number_cap};
ghost use Rattle.scan_cursors.specs.Reads.{Inside, Reads};

use scan_cursors::{Cursor, Scanned};
use scan_pieces::numbers::{number_at, numeral_at};

// A decimal number up to a limit.
pub fn then_number(s: &[u8], c: Cursor, limit: u64) -> Scanned<u64>
    requires { Inside s.now c × (limit < number_cap) }
    ensures { Reads (number limit) s.now c result.value result.cursor × (result.value ≤ limit) }
{
    number_at(s, c.place(), limit).after(c)
}

// A number in decimal, or in hex after `0x` or `0X`, up to a limit.
pub fn then_numeral(s: &[u8], c: Cursor, limit: u64) -> Scanned<u64>
    requires { Inside s.now c × (limit < number_cap) }
    ensures { Reads (numeral limit) s.now c result.value result.cursor × (result.value ≤ limit) }
{
    numeral_at(s, c.place(), limit).after(c)
}
