// The answer to a text, put into a lent buffer: its canonical text, or a refusal and its place.
ghost use Rattle.std.specs.Prelude.{◌++◌, take};
ghost use Rattle.forms.specs.Bytes.{text};
ghost use Rattle.definitions.specs.Limits.{document_limits};
ghost use Rattle.definitions.specs.Lines.{line_of};
ghost use Rattle.write_bytes.specs.Puts.{Puts};

use definitions::limits::CANONICAL_BYTES;
use line_refusals::put_refused;
use reader::read;
use write_bytes::{put_front, put_word};
use writer::write_formed;

// `ok`, tab, and the first `n` bytes of a canonical text's buffer.
fn put_ok(out: &mut [u8], at: usize, canonical: &[u8], n: usize) -> usize
    ensures { Puts out.old at (text "ok\t" ++ take n canonical.now) out.new result }
{
    let a1 = put_word(out, at, b"ok\t");
    put_front(out, a1, canonical, n)
}

// THE ANSWER to a text, without its number and the LF.
pub fn answer_text(out: &mut [u8], at: usize, s: &[u8]) -> usize
    ensures { Puts out.old at (line_of document_limits s.now) out.new result }
{
    let reading = read(s);
    if let Err(e) = reading.outcome {
        return put_refused(out, at, e.refusal, e.place);
    }
    let mut room = [0; CANONICAL_BYTES];
    match write_formed(reading.table, &mut room) {
        Ok(n) => put_ok(out, at, &room, n),
        Err(r) => put_refused(out, at, r, 0),
    }
}
