// What is said of a trace's next lines, decided together: each rule's text is read once for all of them.
#![tactic(auto)]

ghost use Rattle.std.specs.Prelude.{◌≡◌, ◌∷◌, [], ◌≤◌, ◌<◌, length, take};
ghost use Rattle.definitions.specs.Limits.{document_limits};
ghost use Rattle.definitions.specs.LoadedBooks.{rules_in};
ghost use Rattle.line_stream.specs.Ended.{ended_lines};
ghost use Rattle.replay_batches.specs.Numbers.{numbered};
ghost use Rattle.replay_batches.specs.Batches.{Gathers, Adds, Decides};

use definitions::books::Rules;
use guard_blocks::decide_block;
use line_stream::lf_from;
use replay_records::put_line;
use replay_totals::BAD;

// Lines that are decided together, at most.
pub const LINES: usize = 8192;

// Bytes of a record at most: 30, and those that the hex digits of a line write.
const MAX_RECORD: usize = 8222;

// Bytes of the block that holds their records.
pub const RECORDS: usize = 262144;

// So many lines were gathered, and their records have so many bytes.
#[derive(Clone, Copy)]
pub struct Gathered {
    pub lines: usize,
    pub bytes: usize,
}

// One line more.
fn add_line(block: &mut [u8], marks: &mut [u32], g: Gathered, line: &[u8]) -> Gathered
    requires { g.lines < length marks.old }
    ensures { Adds block.old block.new marks.old marks.new g line.now result }
{
    let next = put_line(block, g.bytes, line);
    marks[g.lines] = if next.is_some() { 0 } else { BAD };
    Gathered {
        lines: g.lines + 1,
        bytes: next.unwrap_or(g.bytes),
    }
}

// The first line, and those that end in the rest, as many as have room.
fn gather(
    first: &[u8],
    rest: &[u8],
    block: &mut [u8; RECORDS],
    marks: &mut [u32; LINES],
) -> Gathered
    ensures { Gathers (first.now ∷ ended_lines [] rest.now) block.new marks.new result }
{
    let none = Gathered { lines: 0, bytes: 0 };
    let mut g = add_line(block, marks, none, first);
    // Each LF is found by groups of bytes, and three things end it, so that no `for` is plainer.
    let mut at = 0;
    while g.lines < LINES {
        if RECORDS - MAX_RECORD < g.bytes {
            break;
        }
        let end = lf_from(rest, at);
        if rest.len() <= end {
            break;
        }
        g = add_line(block, marks, g, &rest[at..end]);
        at = end + 1;
    }
    g
}

// In the place of what was noted of each good line, its number.
fn number_lines(marks: &mut [u32], n: usize, numbers: &[u32])
    requires { (n ≤ length marks.old) × (n ≤ length numbers.now) }
    ensures { take n marks.new ≡ numbered (take n marks.old) numbers.now }
{
    let mut k = 0;
    for i in 0..n {
        if marks[i] != BAD {
            marks[i] = numbers[k];
            k += 1;
        }
    }
}

// THE NUMBERS of the first line and of those that end in the rest, as many as have room; at least that of the first.
pub fn decide_lines(
    book: &[u8],
    rules: Rules,
    first: &[u8],
    rest: &[u8],
    block: &mut [u8; RECORDS],
    numbers: &mut [u32; LINES],
    answers: &mut [u32; LINES],
) -> usize
    ensures { Decides document_limits (rules_in book.now rules) (first.now ∷ ended_lines [] rest.now) answers.new result }
{
    let g = gather(first, rest, block, answers);
    decide_block(book, rules, &block[0..g.bytes], numbers);
    number_lines(answers, g.lines, numbers);
    g.lines
}
