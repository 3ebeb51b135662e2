// Pattern bytes in hex, stored as they are read in a lent buffer, after those in use.
ghost use Rattle.std.specs.Prelude.{◌≡◌, ◌∷◌, [], ◌≤◌, ◌<◌, length, drop};
ghost use Rattle.forms.specs.Scan.{begins};
ghost use Rattle.definitions.specs.Numbers.{hex_digits};
ghost use Rattle.definitions.specs.Forms.{hex_pair, block};
ghost use Rattle.read_value.specs.Values.{pattern_bytes_of, appended};
ghost use Rattle.scan_cursors.specs.Reads.{Reads};
ghost use Rattle.scan_cursors.specs.declared.Cursor.TheVariants.{Parsed};
ghost use Rattle.read_quoted.specs.Storing.{hex_pairs, Ready, Stores};

use scan_bytes::bytes::{Class, in_class};
use scan_bytes::numbers::value_of;
use scan_cursors::{Cursor, Scanned};
use scan_pieces::literals::spaces_at;
use scan_steps::literals::{then_literal, then_spaces};

// The byte after those in use; the answer counts it with them.
pub fn put(bytes: &mut [u8], used: usize, b: u8) -> usize
    requires { used < length bytes.old }
    ensures { pattern_bytes_of bytes.new result ≡ appended (pattern_bytes_of bytes.old used) (b ∷ []) }
{
    bytes[used] = b;
    used + 1
}

// Whether a hex digit stands at the place.
fn is_hex_at(s: &[u8], at: usize) -> bool
    ensures { result ≡ begins hex_digits (drop at s.now) }
{
    at < s.len() && in_class(Class::HexDigit, s[at])
}

// Two hex digits, and the byte that they write.
fn pair_at(s: &[u8], at: usize) -> Scanned<u8>
    requires { at ≤ length s.now }
    ensures { Reads hex_pair s.now (Parsed at) result.value result.cursor }
{
    if !is_hex_at(s, at) {
        return Scanned {
            value: 0,
            cursor: Cursor::Failed(at),
        };
    }
    if !is_hex_at(s, at + 1) {
        return Scanned {
            value: 0,
            cursor: Cursor::Failed(at + 1),
        };
    }
    Scanned {
        value: value_of(s, at, at + 2, 16) as u8,
        cursor: Cursor::Parsed(at + 2),
    }
}

// One or more pairs, spaces after each; the value is how many bytes are in use then. The loop goes from place to place: a cursor for each pair would be tested at each.
fn pairs_at(s: &[u8], at: usize, bytes: &mut [u8], used: usize) -> Scanned<usize>
    requires { Ready s.now (Parsed at) (pattern_bytes_of bytes.old used) }
    ensures { Stores hex_pairs s.now (Parsed at) (pattern_bytes_of bytes.old used) (pattern_bytes_of bytes.new result.value) result.cursor }
{
    let mut here = at;
    let mut to = used;
    loop {
        let p = pair_at(s, here);
        let Cursor::Parsed(end) = p.cursor else {
            return Scanned {
                value: to,
                cursor: p.cursor,
            };
        };
        to = put(bytes, to, p.value);
        here = spaces_at(s, end);
        if !is_hex_at(s, here) {
            return Scanned {
                value: to,
                cursor: Cursor::Parsed(here),
            };
        }
    }
}

// The pairs from any cursor on.
fn then_pairs(s: &[u8], c: Cursor, bytes: &mut [u8], used: usize) -> Scanned<usize>
    requires { Ready s.now c (pattern_bytes_of bytes.old used) }
    ensures { Stores hex_pairs s.now c (pattern_bytes_of bytes.old used) (pattern_bytes_of bytes.new result.value) result.cursor }
{
    pairs_at(s, c.place(), bytes, used).after(c)
}

// A block between two bars.
pub fn then_block(s: &[u8], c: Cursor, bytes: &mut [u8], used: usize) -> Scanned<usize>
    requires { Ready s.now c (pattern_bytes_of bytes.old used) }
    ensures { Stores block s.now c (pattern_bytes_of bytes.old used) (pattern_bytes_of bytes.new result.value) result.cursor }
{
    let bar = then_literal(s, c, b'|');
    let from = then_spaces(s, bar);
    let p = then_pairs(s, from, bytes, used);
    Scanned {
        cursor: then_literal(s, p.cursor, b'|'),
        ..p
    }
}
