// Judges the rule book in the file that its first argument names: its rules counted, or its refusal and the line. Nothing is written for a file that can't be
// read.
#![tactic(auto)]

use book_answers::answer_book;
use book_file::{ROOM, read_book};

// Bytes of the answer's buffer: the longest answer has 42.
const ANSWER: usize = 64;

// Writes the answer to a book; if it can't, says so.
fn write_answer(rt: &(impl Print + Eprint), book: &[u8]) {
    let mut out = [0u8; ANSWER];
    let put = answer_book(&mut out, 0, book);
    if let Err(error) = rt.write_all(&out[..put]) {
        let _ = eprintln!(rt; "standard output: {error}");
    }
}

fn main(rt: HostRuntime) {
    let mut room = [0u8; ROOM];
    if let Some(n) = read_book(&rt, &mut room) {
        write_answer(&rt, &room[..n]);
    }
}
