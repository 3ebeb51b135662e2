// Runs of bytes of a class, one byte at least.
ghost use Rattle.std.specs.Prelude.{◌+◌, ◌≤◌, length, take, drop};
ghost use Rattle.forms.specs.Form.{byte};
ghost use Rattle.forms.specs.Pieces.{some};
ghost use Rattle.scan_bytes.specs.Classes.{class_of};
ghost use Rattle.scan_cursors.specs.Reads.{Reads};
ghost use Rattle.scan_cursors.specs.declared.Cursor.TheVariants.{Parsed};

use definitions::packets::Span;
use scan_bytes::bytes::Class;
use scan_bytes::runs::run_of;
use scan_cursors::{Cursor, Scanned};

// One or more bytes of a class, told by their place in the text and their number.
pub fn run_at(s: &[u8], at: usize, k: Class) -> Scanned<Span>
    requires { at ≤ length s.now }
    ensures { Reads (some (byte (class_of k))) s.now (Parsed at) (take result.value.len (drop result.value.start s.now)) result.cursor × (result.value.start + result.value.len ≤ length s.now) }
{
    let end = run_of(s, at, k);
    let value = Span {
        start: at,
        len: end - at,
    };
    let cursor = if end == at {
        Cursor::Failed(at)
    } else {
        Cursor::Parsed(end)
    };
    Scanned { value, cursor }
}
