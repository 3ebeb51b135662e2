// Words from a cursor on, their letter case ignored.
ghost use Rattle.std.specs.Prelude.{true, false, ◌≤◌, length, get_or, ◌≡◌, if◌then◌else◌};
ghost use Rattle.forms.specs.Pieces.{or, keyword, word};
ghost use Rattle.definitions.specs.Forms.{comma};
ghost use Rattle.scan_bytes.specs.Classes.{case_class};
ghost use Rattle.scan_cursors.specs.Reads.{Inside, next_in, Reads};

use crate::literals::{next_is, next_is_letter, then_literal};
use scan_cursors::{Cursor, Scanned};
use scan_pieces::words::word_at;

// The word, which is written in small letters.
pub fn then_word(s: &[u8], c: Cursor, w: &[u8]) -> Cursor
    requires { Inside s.now c }
    ensures { Reads (word w.now) s.now c 0 result }
{
    c.join(word_at(s, c.place(), w))
}

// The word, and what it stands for.
pub fn then_keyword<T: Copy>(s: &[u8], c: Cursor, w: &[u8], value: T) -> Scanned<T>
    requires { Inside s.now c }
    ensures reads { Reads (keyword w.now value) s.now c result.value result.cursor }
    ensures says { result.value ≡ value }
{
    Scanned {
        value,
        cursor: then_word(s, c, w),
    }
}

// Either of two words, and what it stands for: the first letter of the one decides which must stand, also where a number before it was
// beyond its limit.
pub fn then_either_keyword<T: Copy>(
    s: &[u8],
    c: Cursor,
    one: &[u8],
    first: T,
    other: &[u8],
    second: T,
) -> Scanned<T>
    requires { Inside s.now c × (1 ≤ length one.now) }
    ensures reads { Reads (or (keyword one.now first) (keyword other.now second)) s.now c result.value result.cursor }
    ensures says { result.value ≡ (if next_in (case_class (get_or one.now 0 0)) s.now c then first else second) }
{
    if next_is_letter(s, c, one[0]) {
        then_keyword(s, c, one, first)
    } else {
        then_keyword(s, c, other, second)
    }
}

// Whether it is the first of two words.
pub fn then_either_word(s: &[u8], c: Cursor, one: &[u8], other: &[u8]) -> Scanned<bool>
    requires { Inside s.now c × (1 ≤ length one.now) }
    ensures { Reads (or (keyword one.now true) (keyword other.now false)) s.now c result.value result.cursor × (result.value ≡ next_in (case_class (get_or one.now 0 0)) s.now c) }
{
    then_either_keyword(s, c, one, true, other, false)
}

// Optional `,` and the word, which is written in small letters.
pub fn then_comma_word(s: &[u8], c: Cursor, w: &[u8]) -> Scanned<bool>
    requires { Inside s.now c }
    ensures { Reads (comma false (keyword w.now true)) s.now c result.value result.cursor }
{
    if next_is(s, c, b',') {
        let comma = then_literal(s, c, b',');
        return then_keyword(s, comma, w, true);
    }
    Scanned {
        value: false,
        cursor: c,
    }
}
