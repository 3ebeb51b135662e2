// Replays a trace through the rule book in the file that its first argument names: standard input and output (crate line_io) around the work on lines
// (crate replay_lines). Nothing is written for a file that can't be read.
#![tactic(auto)]

use book_file::{ROOM, read_book};
use definitions::books::Rules;
use replay_lines::{LINE_BYTES, feed, finish, open};
use replay_totals::{Totals, no_totals};
use std::io::Read;

// Bytes of the block that is read, and of the output.
const BLOCK: usize = 262144;

// What a replay goes by, and what it keeps: the bytes of the line begun, and the totals so far.
#[derive(Drop)]
struct State<'a> {
    book: &'a [u8],
    rules: Rules,
    line: [u8; LINE_BYTES],
    totals: Totals,
}

// Replays the trace by the rules of a book.
fn run(
    rt: &(impl Print + Eprint),
    input: &mut impl Read,
    book: &[u8],
    rules: Rules,
    out: &mut [u8; BLOCK],
) {
    let mut state = State {
        book,
        rules,
        line: [0u8; LINE_BYTES],
        totals: no_totals(),
    };
    line_io::run(
        rt,
        input,
        &mut [0u8; BLOCK],
        out,
        &mut state,
        |input, s: &mut State, out, begun| {
            let replayed = feed(s.book, s.rules, input, &mut s.line, out, begun, s.totals);
            s.totals = replayed.totals;
            replayed.fed
        },
        |s: &State, out, begun| finish(s.book, s.rules, &s.line, out, begun, s.totals),
    );
}

// Writes the first bytes of the output; if it can't, says so. There are as many.
fn write_refusal(rt: &(impl Print + Eprint), out: &[u8], put: usize) {
    if put <= out.len() {
        if let Err(error) = rt.write_all(&out[..put]) {
            let _ = eprintln!(rt; "standard output: {error}");
        }
    }
}

// Opens a book: the trace is replayed through it, or it is refused.
fn run_book(rt: &(impl Print + Eprint), input: &mut impl Read, book: &[u8]) {
    let mut out = [0u8; BLOCK];
    let opened = open(book, &mut out);
    if opened.accepted {
        run(rt, input, book, opened.rules, &mut out);
    } else {
        write_refusal(rt, &out, opened.put);
    }
}

fn main(rt: HostRuntime) {
    let mut room = [0u8; ROOM];
    if let Some(n) = read_book(&rt, &mut room) {
        run_book(&rt, &mut rt.stdin(), &room[..n]);
    }
}
