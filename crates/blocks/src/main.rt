// Decides packets by the rule book in the file that its first argument names: records on standard input, three bytes for each packet on standard output
// (docs/vectors/README.md has both forms). A block of them is decided at a time. For a refused book its refusal is written, as the program `book` does, and
// nothing is read; for a file that can't be read nothing is written.
#![tactic(auto)]

ghost use Rattle.std.specs.Prelude.{◌≤◌, IfSome, length};

use block_answers::put_answers;
use book_answers::answer_book;
use book_file::{ROOM, read_book, read_into};
use definitions::books::Rules;
use guard_blocks::decide_block;
use rule_book::load;
use std::io::Read;

// Bytes of a block; answers for as many records as it may hold, of 30 bytes at least; and their bytes.
const BLOCK: usize = 1048576;

const MOST: usize = 34952;

const ANSWERS: usize = 104856;

// Bytes of a refusal's buffer: the longest answer to a book has 42.
const REFUSAL: usize = 64;

// Writes the answer to a book; if it can't, says so.
fn write_book(rt: &(impl Print + Eprint), book: &[u8]) {
    let mut out = [0u8; REFUSAL];
    let put = answer_book(&mut out, 0, book);
    if let Err(error) = rt.write_all(&out[..put]) {
        let _ = eprintln!(rt; "standard output: {error}");
    }
}

// Writes the answers to the first packets; if it can't, says so.
fn write_answers(rt: &(impl Print + Eprint), answers: &[u32; MOST], packets: usize) -> bool {
    let mut out = [0u8; ANSWERS];
    let put = put_answers(&mut out, 0, answers, packets);
    match rt.write_all(&out[..put]) {
        Ok(()) => true,
        Err(error) => {
            let _ = eprintln!(rt; "standard output: {error}");
            false
        }
    }
}

// Fills the block after the bytes that it holds. Where nothing more comes the input has ended.
fn fill(rt: &impl Eprint, input: &mut impl Read, block: &mut [u8], held: usize) -> Option<usize>
    requires { held ≤ length block.old }
    ensures { IfSome result (λ n. n ≤ length block.old) }
{
    match read_into(input, &mut block[held..]) {
        Ok(0) => None,
        Ok(n) => Some(held + n),
        Err(error) => {
            let _ = eprintln!(rt; "standard input: {error}");
            None
        }
    }
}

// Moves the bytes from a place to an end to the block's front, and counts them.
fn keep_rest(block: &mut [u8], from: usize, end: usize) -> usize
    requires { (from ≤ end) × (end ≤ length block.old) }
    ensures { result ≤ length block.old }
{
    block.copy_within(from..end, 0);
    end - from
}

// Decides the whole records that the block holds up to an end, writes their answers and keeps the rest. Where none is whole the run is over.
fn decide(
    rt: &(impl Print + Eprint),
    book: &[u8],
    rules: Rules,
    block: &mut [u8],
    answers: &mut [u32; MOST],
    end: usize,
) -> Option<usize>
    requires { end ≤ length block.old }
    ensures { IfSome result (λ n. n ≤ length block.old) }
{
    let answered = decide_block(book, rules, &block[0..end], answers);
    if answered.packets == 0 {
        return None;
    }
    if !write_answers(rt, answers, answered.packets) {
        return None;
    }
    Some(keep_rest(block, answered.bytes, end))
}

// Reads, and decides what was read.
fn turn(
    rt: &(impl Print + Eprint),
    input: &mut impl Read,
    book: &[u8],
    rules: Rules,
    block: &mut [u8; BLOCK],
    answers: &mut [u32; MOST],
    held: usize,
) -> Option<usize>
    requires { held ≤ 1048576 }
    ensures { IfSome result (λ n. n ≤ 1048576) }
{
    let end = fill(rt, input, block, held)?;
    decide(rt, book, rules, block, answers, end)
}

// Decides the input by the rules of a book. A proved loop has to end, and nothing says that the input does: turns are counted up to a number that no run
// reaches.
fn run(rt: &(impl Print + Eprint), input: &mut impl Read, book: &[u8], rules: Rules) {
    let mut block = [0u8; BLOCK];
    let mut answers = [0u32; MOST];
    let mut held = 0;
    for _ in 0..u64::MAX {
        let Some(n) = turn(rt, input, book, rules, &mut block, &mut answers, held) else {
            return;
        };
        held = n;
    }
}

// Loads a book: the input is decided by it, or it is refused.
fn run_book(rt: &(impl Print + Eprint), input: &mut impl Read, book: &[u8]) {
    let loaded = load(book);
    match loaded.judgement {
        Ok(_) => run(rt, input, book, loaded.rules),
        Err(_) => write_book(rt, book),
    }
}

fn main(rt: HostRuntime) {
    let mut room = [0u8; ROOM];
    if let Some(n) = read_book(&rt, &mut room) {
        run_book(&rt, &mut rt.stdin(), &room[..n]);
    }
}
