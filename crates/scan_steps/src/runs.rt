// Runs of bytes from a cursor on.
ghost use Rattle.std.specs.Prelude.{◌+◌, ◌≤◌, length, take, drop};
ghost use Rattle.forms.specs.Form.{byte};
ghost use Rattle.forms.specs.Pieces.{some};
ghost use Rattle.scan_bytes.specs.Classes.{class_of};
ghost use Rattle.scan_cursors.specs.Reads.{Inside, Reads};

use definitions::packets::Span;
use scan_bytes::bytes::Class;
use scan_cursors::{Cursor, Scanned};
use scan_pieces::runs::run_at;

// One or more bytes of a class, told by their place in the text and their number.
pub fn then_run(s: &[u8], c: Cursor, k: Class) -> Scanned<Span>
    requires { Inside s.now c }
    ensures { Reads (some (byte (class_of k))) s.now c (take result.value.len (drop result.value.start s.now)) result.cursor × (result.value.start + result.value.len ≤ length s.now) }
{
    run_at(s, c.place(), k).after(c)
}
