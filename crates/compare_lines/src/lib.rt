// The lines that are written for two rule books, put into a lent buffer.
#![tactic(auto)]

ghost use Rattle.forms.specs.Bytes.{text};
ghost use Rattle.write_bytes.specs.Puts.{Puts};
ghost use Rattle.compare_laws.specs.Comparisons.{differing, commas, number_line, changed_line};

use write_bytes::{put, put_decimal, put_if, put_word};

// A word with its tab, and a rule's number.
fn put_number_line(out: &mut [u8], at: usize, word: &[u8], number: u16) -> usize
    ensures { Puts out.old at (number_line word.now number) out.new result }
{
    let a1 = put_word(out, at, word);
    let a2 = put_decimal(out, a1, number as u64);
    put(out, a2, b'\n')
}

// A rule that is in the first book only.
pub fn put_old(out: &mut [u8], at: usize, number: u16) -> usize
    ensures { Puts out.old at (number_line (text "old\t") number) out.new result }
{
    put_number_line(out, at, b"old\t", number)
}

// A rule that is in the second book only.
pub fn put_new(out: &mut [u8], at: usize, number: u16) -> usize
    ensures { Puts out.old at (number_line (text "new\t") number) out.new result }
{
    put_number_line(out, at, b"new\t", number)
}

// What differs, parted by commas.
fn put_differing(out: &mut [u8], at: usize, state: bool, action: bool, table: bool) -> usize
    ensures { Puts out.old at (commas (differing state action table)) out.new result }
{
    let a1 = put_if(out, at, state, b"state");
    let a2 = put_if(out, a1, state & action, b",");
    let a3 = put_if(out, a2, action, b"action");
    let a4 = put_if(out, a3, (state | action) & table, b",");
    put_if(out, a4, table, b"text")
}

// A rule that is in both books; nothing if nothing differs.
pub fn put_changed(
    out: &mut [u8],
    at: usize,
    number: u16,
    state: bool,
    action: bool,
    table: bool,
) -> usize
    ensures { Puts out.old at (changed_line number (differing state action table)) out.new result }
{
    if !(state | action | table) {
        return at;
    }
    let a1 = put_word(out, at, b"changed\t");
    let a2 = put_decimal(out, a1, number as u64);
    let a3 = put(out, a2, b'\t');
    let a4 = put_differing(out, a3, state, action, table);
    put(out, a4, b'\n')
}
