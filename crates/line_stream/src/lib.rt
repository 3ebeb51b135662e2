// Lines in, answers out, in parts of any length: the loop of each program that answers its input line by line, cut into steps. The program calls them in
// turn, and between two steps it puts the one thing that they do not know, the answer to the line that waits.
#![tactic(auto)]

ghost use Rattle.std.specs.Prelude.{◌≡◌, ◌++◌, ◌≤◌, ◌<◌, length, take};
ghost use Rattle.forms.specs.Bytes.{text};
ghost use Rattle.definitions.specs.Canonical.{decimal};
ghost use Rattle.line_stream.specs.Stream.{has_room, next_number};
ghost use Rattle.line_stream.specs.Steps.{Keeps, Takes, Nexts, Lasts, lf_from};
ghost use Rattle.write_bytes.specs.Puts.{Puts};

use scan_find::find_from;
use write_bytes::limits::at_most;
use write_bytes::{COUNTED, put, put_decimal};

// The line begun: its number, and how many of its bytes are kept.
#[derive(Clone, Copy)]
pub struct Begun {
    pub number: u64,
    pub len: usize,
}

// So many bytes of the input were taken, and so many of the output are answers.
#[derive(Clone, Copy)]
pub struct Fed {
    pub taken: usize,
    pub put: usize,
    pub begun: Begun,
}

// A feed under way. Where a line waits for its answer, its number and a tab are put, and the answer comes at the place `at`.
#[derive(Clone, Copy)]
pub struct Feeding {
    pub fed: Fed,
    pub at: usize,
    pub waits: bool,
}

// Line number, tab: what stands before an answer.
fn open_line(out: &mut [u8], at: usize, number: u64) -> usize
    ensures { Puts out.old at (decimal number ++ text "\t") out.new result }
{
    let next = put_decimal(out, at, number);
    put(out, next, b'\t')
}

// LF: what stands after an answer.
pub fn end_line(out: &mut [u8], at: usize) -> usize
    ensures { Puts out.old at (text "\n") out.new result }
{
    put(out, at, b'\n')
}

// Whether all up to the place was counted and kept.
fn has_room(place: usize, len: usize) -> bool
    ensures { result ≡ has_room place len }
{
    place < COUNTED && place <= len
}

// The number of the next line; the largest stays.
pub fn next_number(n: u64) -> u64
    ensures { result ≡ next_number n }
{
    n.saturating_add(1)
}

// The place of the first LF from a place on, or the end.
pub fn lf_from(input: &[u8], from: usize) -> usize
    ensures { result ≡ lf_from input.now from }
{
    find_from(input, from, b'\n')
}

// The bytes of a part after the first ones of a line; what the buffer has no room for is not kept. The answer is how many are kept then.
fn keep_part(line: &mut [u8], len: usize, part: &[u8]) -> usize
    ensures { Keeps line.old line.new len part.now result }
{
    let first = at_most(len, line.len());
    let n = at_most(line.len() - first, part.len());
    line[first..first + n].copy_from_slice(&part[..n]);
    first + n
}

// The bytes that are kept of the line begun.
pub fn kept<'a>(line: &'a [u8], begun: Begun) -> &'a [u8]
    ensures { result.now ≡ take begun.len line.now }
{
    let len = at_most(begun.len, line.len());
    &line[..len]
}

// Takes the bytes from a place on up to the next LF, or to the end. At an LF the line waits for its answer.
fn take_line(
    input: &[u8],
    from: usize,
    line: &mut [u8],
    out: &mut [u8],
    place: usize,
    begun: Begun,
) -> Feeding
    requires { from ≤ length input.now }
    ensures { Takes input.now from line.old line.new out.old out.new place begun result }
{
    let end = lf_from(input, from);
    let len = keep_part(line, begun.len, &input[from..end]);
    let fed = Fed {
        taken: end,
        put: place,
        begun: Begun { len, ..begun },
    };
    if end < input.len() {
        let at = open_line(out, place, begun.number);
        return Feeding {
            fed,
            at,
            waits: true,
        };
    }
    Feeding {
        fed,
        at: place,
        waits: false,
    }
}

// Begins to feed: takes the first line of the input.
pub fn first_line(input: &[u8], line: &mut [u8], out: &mut [u8], begun: Begun) -> Feeding
    ensures { Takes input.now 0 line.old line.new out.old out.new 0 begun result }
{
    take_line(input, 0, line, out, 0, begun)
}

// The answer to the line that waits was put up to a place: the next line is taken, or the answer had no room, and nothing more is taken.
pub fn next_line(input: &[u8], line: &mut [u8], out: &mut [u8], fed: Fed, at: usize) -> Feeding
    requires { fed.taken < length input.now }
    ensures { Nexts input.now line.old line.new out.old out.new fed at result }
{
    let place = end_line(out, at);
    if has_room(place, out.len()) {
        let begun = Begun {
            number: next_number(fed.begun.number),
            len: 0,
        };
        return take_line(input, fed.taken + 1, line, out, place, begun);
    }
    Feeding {
        fed,
        at: fed.put,
        waits: false,
    }
}

// After the last byte of the input: a line that lacks its LF waits for its answer, if a byte of it is kept.
pub fn last_line(line: &[u8], out: &mut [u8], begun: Begun) -> Feeding
    ensures { Lasts line.now out.old out.new begun result }
{
    let fed = Fed {
        taken: 0,
        put: 0,
        begun,
    };
    if kept(line, begun).is_empty() {
        return Feeding {
            fed,
            at: 0,
            waits: false,
        };
    }
    let at = open_line(out, 0, begun.number);
    Feeding {
        fed,
        at,
        waits: true,
    }
}
