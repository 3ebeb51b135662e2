// Names in quotes.
ghost use Rattle.scan_cursors.specs.Reads.{Inside};
ghost use Rattle.read_quoted.specs.Quoting.{NameRead};

use definitions::limits::NAME_BYTES;
use definitions::packets::Span;
use scan_bytes::bytes::Class;
use scan_cursors::{Cursor, Scanned, limited};
use scan_steps::literals::then_literal;
use scan_steps::runs::then_run;

// A name, one byte or more between two quotes; one that is too long is told by its opening quote.
pub fn then_name(s: &[u8], c: Cursor) -> Scanned<Span>
    requires { Inside s.now c }
    ensures { NameRead s.now c result.value.start result.value.len result.cursor }
{
    let open = then_literal(s, c, b'"');
    let run = then_run(s, open, Class::Quotable);
    let close = then_literal(s, run.cursor, b'"');
    Scanned {
        cursor: limited(c, run.value.len <= NAME_BYTES, close),
        ..run
    }
}
