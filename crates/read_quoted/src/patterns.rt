// The bytes of a pattern, stored as they are read: one pass over the text.
ghost use Rattle.std.specs.Prelude.{◌≡◌, drop};
ghost use Rattle.forms.specs.Scan.{first_set, begins};
ghost use Rattle.definitions.specs.Forms.{plain_bytes, pattern_bytes};
ghost use Rattle.read_value.specs.Values.{pattern_bytes_of};
ghost use Rattle.scan_cursors.specs.declared.Cursor.TheVariants.{Parsed};
ghost use Rattle.read_quoted.specs.Storing.{element, Ready, Stores, PatternReads};

use crate::pattern_blocks::{put, then_block};
use scan_bytes::bytes::is_plain;
use scan_cursors::{Cursor, Scanned};
use scan_pieces::literals::stands;
use scan_steps::literals::then_literal;

// Whether a byte that stands for itself stands at the place.
fn is_plain_at(s: &[u8], at: usize) -> bool
    ensures { result ≡ begins plain_bytes (drop at s.now) }
{
    at < s.len() && is_plain(s[at])
}

// Whether pattern bytes go on at the place.
fn goes_on(s: &[u8], at: usize) -> bool
    ensures { result ≡ begins (first_set element) (drop at s.now) }
{
    is_plain_at(s, at) || stands(s, at, b'|')
}

// A plain byte or a block; the value is how many bytes are in use then.
fn element_at(s: &[u8], at: usize, bytes: &mut [u8], used: usize) -> Scanned<usize>
    requires { Ready s.now (Parsed at) (pattern_bytes_of bytes.old used) }
    ensures { Stores element s.now (Parsed at) (pattern_bytes_of bytes.old used) (pattern_bytes_of bytes.new result.value) result.cursor }
{
    if is_plain_at(s, at) {
        Scanned {
            value: put(bytes, used, s[at]),
            cursor: Cursor::Parsed(at + 1),
        }
    } else {
        then_block(s, Cursor::Parsed(at), bytes, used)
    }
}

// One or more elements. The loop goes from place to place: a cursor for each byte would be tested at each.
fn bytes_at(s: &[u8], at: usize, bytes: &mut [u8], used: usize) -> Scanned<usize>
    requires { Ready s.now (Parsed at) (pattern_bytes_of bytes.old used) }
    ensures { Stores pattern_bytes s.now (Parsed at) (pattern_bytes_of bytes.old used) (pattern_bytes_of bytes.new result.value) result.cursor }
{
    let mut here = at;
    let mut to = used;
    loop {
        let e = element_at(s, here, bytes, to);
        let Cursor::Parsed(end) = e.cursor else {
            return e;
        };
        if !goes_on(s, end) {
            return e;
        }
        here = end;
        to = e.value;
    }
}

// The elements from any cursor on.
fn then_bytes(s: &[u8], c: Cursor, bytes: &mut [u8], used: usize) -> Scanned<usize>
    requires { Ready s.now c (pattern_bytes_of bytes.old used) }
    ensures { Stores pattern_bytes s.now c (pattern_bytes_of bytes.old used) (pattern_bytes_of bytes.new result.value) result.cursor }
{
    bytes_at(s, c.place(), bytes, used).after(c)
}

// How many bytes are in use, and how many of them are the pattern's.
#[derive(Clone, Copy)]
pub struct StoredPattern {
    pub used: usize,
    pub len: usize,
}

// A pattern in quotes.
pub fn then_pattern(s: &[u8], c: Cursor, bytes: &mut [u8], used: usize) -> Scanned<StoredPattern>
    requires { Ready s.now c (pattern_bytes_of bytes.old used) }
    ensures { PatternReads s.now c (pattern_bytes_of bytes.old used) (pattern_bytes_of bytes.new result.value.used) result.value.len result.cursor }
{
    let open = then_literal(s, c, b'"');
    let p = then_bytes(s, open, bytes, used);
    Scanned {
        value: StoredPattern {
            used: p.value,
            len: p.value - used,
        },
        cursor: then_literal(s, p.cursor, b'"'),
    }
}
