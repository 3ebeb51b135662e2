// Writes a table as canonical text into a lent buffer.
#![tactic(auto)]

ghost use Rattle.std.specs.Prelude.{◌≡◌, true, length};
ghost use Rattle.definitions.specs.Limits.{document_limits};
ghost use Rattle.definitions.specs.WellFormed.{well_formed};
ghost use Rattle.definitions.specs.Canonical.{canonical_text};
ghost use Rattle.definitions.specs.Writing.{writes, buffer_after};
ghost use Rattle.definitions.specs.AnswerNumbers.{write_numbers, write_in_numbers};
ghost use Rattle.write_bytes.specs.Clipped.{at_most};
ghost use Rattle.write_bytes.specs.Puts.{max_counted, Puts};

use definitions::answers::Refusal;
use definitions::limits::CANONICAL_BYTES;
use definitions::table::Table;
use table_well_formed::well_formed;
use write_bytes::put_front;
use write_canonical::put_canonical;

// For a caller that knows its table to be well formed, as one that was read is: the canonical text is put into room of the length that it may have, which also
// measures it; or 21.
pub fn write_formed(t: Table, room: &mut [u8; CANONICAL_BYTES]) -> Result<usize, Refusal>
    requires { well_formed t ≡ true }
    ensures answer { result ≡ writes document_limits t room.old }
    ensures put { Puts room.old 0 (canonical_text t) room.new (at_most (length (canonical_text t)) max_counted) }
{
    let n = put_canonical(
        room, t.name, t.len, t.protocol, t.flow, t.items, t.count, &t.bytes,
    );
    if CANONICAL_BYTES < n {
        return Err(Refusal::CanonicalLength);
    }
    Ok(n)
}

// THE WRITER. Any table and any buffer: 20, 21 and 22 in this order, each leaving the buffer as it was; else the canonical text at its front, the
// bytes after it untouched, and the text's length.
pub fn write(t: Table, out: &mut [u8]) -> Result<usize, Refusal>
    ensures answer { result ≡ writes document_limits t out.old }
    ensures buffer { out.new ≡ buffer_after document_limits t out.old }
    ensures numbers { write_numbers result ≡ write_in_numbers document_limits t (length out.old) }
{
    if !well_formed(t.name, t.len, t.items, t.count, &t.bytes, t.used) {
        return Err(Refusal::IllFormed);
    }
    let mut room = [0u8; CANONICAL_BYTES];
    let n = write_formed(t, &mut room)?;
    if out.len() < n {
        return Err(Refusal::ShortBuffer);
    }
    Ok(put_front(out, 0, &room, n))
}
