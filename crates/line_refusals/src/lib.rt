// A refusal as the line programs write it, put into a lent buffer.
#![tactic(auto)]

ghost use Rattle.std.specs.Prelude.{◌++◌};
ghost use Rattle.forms.specs.Bytes.{text};
ghost use Rattle.definitions.specs.Lines.{refused_line};
ghost use Rattle.write_bytes.specs.Puts.{Puts};

use definitions::answers::Refusal;
use refusal_numbers::number_of;
use write_bytes::{put, put_decimal, put_word};

// Refusal, tab, and a place of a text or a line of a book.
pub fn put_refused(out: &mut [u8], at: usize, r: Refusal, place: usize) -> usize
    ensures { Puts out.old at (refused_line r place) out.new result }
{
    let a1 = put_decimal(out, at, number_of(r));
    let a2 = put(out, a1, b'\t');
    put_decimal(out, a2, place as u64)
}

// All that is written for a refused book: which book it is, as a word with its tab, the refusal, the line and LF.
pub fn put_refused_book(out: &mut [u8], at: usize, which: &[u8], r: Refusal, line: usize) -> usize
    ensures { Puts out.old at (which.now ++ (refused_line r line ++ text "\n")) out.new result }
{
    let a1 = put_word(out, at, which);
    let a2 = put_refused(out, a1, r, line);
    put(out, a2, b'\n')
}
