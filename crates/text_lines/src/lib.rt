// The line program's work on slices: texts one a line in, answers out, in parts of any length.
#![tactic(auto)]

pub mod answers;

ghost use Rattle.std.specs.Prelude.{take};
ghost use Rattle.definitions.specs.Limits.{document_limits};
ghost use Rattle.definitions.specs.Lines.{line_of};
ghost use Rattle.write_bytes.specs.Puts.{Puts};
ghost use Rattle.line_stream.specs.Stream.{last_line, Feeds};
ghost use Rattle.line_stream.specs.Whole.{WholeLines, WholeLast};

use crate::answers::answer_text;
use definitions::limits::TEXT_BYTES;
use line_stream::{Begun, Fed, end_line, first_line, kept, last_line, next_line};

// Bytes of a line that are kept: one more than a text may have, so that a longer line is known to be longer.
pub const LINE_BYTES: usize = TEXT_BYTES + 1;

// Takes bytes of the input until all are taken, or an answer has no room in the output.
pub fn feed(input: &[u8], line: &mut [u8; LINE_BYTES], out: &mut [u8], begun: Begun) -> Fed
    ensures feeds { Feeds (line_of document_limits) input.now line.old out.old begun line.new out.new result }
    ensures whole { WholeLines (line_of document_limits) input.now line.old begun line.new out.new result }
{
    let mut t = first_line(input, line, out, begun);
    while t.waits {
        let at = answer_text(out, t.at, kept(line, t.fed.begun));
        t = next_line(input, line, out, t.fed, at);
    }
    t.fed
}

// After the last byte: the answer to a line that lacks its LF. The answer is how many bytes it has, more than the buffer's if it has no room.
pub fn finish(line: &[u8; LINE_BYTES], out: &mut [u8], begun: Begun) -> usize
    ensures puts { Puts out.old 0 (last_line (line_of document_limits) begun.number (take begun.len line.now)) out.new result }
    ensures whole { WholeLast (line_of document_limits) line.now out.old begun out.new result }
{
    let t = last_line(line, out, begun);
    if t.waits {
        let at = answer_text(out, t.at, kept(line, begun));
        return end_line(out, at);
    }
    t.at
}
