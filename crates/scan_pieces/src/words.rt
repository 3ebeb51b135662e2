// Words, their letter case ignored.
ghost use Rattle.std.specs.Prelude.{◌≤◌, length};
ghost use Rattle.forms.specs.Pieces.{word};
ghost use Rattle.scan_cursors.specs.Reads.{Reads};
ghost use Rattle.scan_cursors.specs.declared.Cursor.TheVariants.{Parsed};

use crate::literals::starts;
use scan_cursors::Cursor;

// The word, which is written in small letters; it stops at the first byte that differs.
pub fn word_at(s: &[u8], at: usize, w: &[u8]) -> Cursor
    requires { at ≤ length s.now }
    ensures { Reads (word w.now) s.now (Parsed at) 0 result }
{
    for (i, &y) in w.iter().enumerate() {
        if !starts(s, at + i, y) {
            return Cursor::Failed(at + i);
        }
    }
    Cursor::Parsed(at + w.len())
}
