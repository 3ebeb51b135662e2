// What stands around the options of a text: its front, the dashes of an option, and how reading an option ends.
#![tactic(auto)]

ghost use Rattle.std.specs.Prelude.{◌≡◌, ◌<◌, ◌≤◌, ◌↔◌, IsTrue, length, drop};
ghost use Rattle.forms.specs.Bytes.{run};
ghost use Rattle.definitions.specs.Limits.{document_limits};
ghost use Rattle.definitions.specs.Options.{printable};
ghost use Rattle.definitions.specs.Reading.{dashes};
ghost use Rattle.read_frame.specs.Framing.{is_opened, Fronts, ended_by};

use definitions::answers::{Refusal, TextRefusal};
use definitions::limits::TEXT_BYTES;
use scan_bytes::bytes::Class;
use scan_bytes::runs::run_of;
use scan_cursors::Cursor;

// The bytes of `F-SBID(`.
pub const OPENING_BYTES: usize = 7;

// How many bytes at the front a text may hold.
fn printable_run(s: &[u8]) -> usize
    ensures { result ≡ run printable s.now }
{
    run_of(s, 0, Class::Printable)
}

// Whether `F-SBID(` stands at the front.
fn is_opened(s: &[u8]) -> bool
    ensures { result ≡ is_opened s.now }
{
    s.starts_with(b"F-SBID(")
}

// Whether a text may have so many bytes.
fn is_text_length(len: usize) -> bool
    ensures { IsTrue result ↔ ((1 ≤ len) × (len ≤ document_limits.text)) }
{
    (1..=TEXT_BYTES).contains(&len)
}

// The refusals before the options, in their order: length, bytes, `F-SBID(`.
pub fn front_of(s: &[u8]) -> Result<(), TextRefusal>
    ensures { Fronts s.now result }
{
    if !is_text_length(s.len()) {
        return Err(TextRefusal {
            refusal: Refusal::TextLength,
            place: 0,
        });
    }
    let run = printable_run(s);
    if run < s.len() {
        return Err(TextRefusal {
            refusal: Refusal::TextByte,
            place: run,
        });
    }
    if !is_opened(s) {
        return Err(TextRefusal {
            refusal: Refusal::Opening,
            place: 0,
        });
    }
    Ok(())
}

// Whether `--` stands at the place.
pub fn dashes_at(s: &[u8], at: usize) -> bool
    requires { at < length s.now }
    ensures { result ≡ dashes (drop at s.now) }
{
    s[at..].starts_with(b"--")
}

// A cursor that goes on is the place after the option; a broken limit is 7 at its place, a form that failed 6 where it did.
pub fn ended_by(c: Cursor) -> Result<usize, TextRefusal>
    ensures { result ≡ ended_by c }
{
    match c {
        Cursor::Parsed(n) => Ok(n),
        Cursor::OutOfRange(place, _) => Err(TextRefusal {
            refusal: Refusal::Limit,
            place,
        }),
        Cursor::Failed(place) => Err(TextRefusal {
            refusal: Refusal::Form,
            place,
        }),
    }
}
