// Standard input and output of a program that answers lines: reads blocks, writes answers, and says what failed.
#![tactic(auto)]

ghost use Rattle.std.specs.Prelude.{◌≡◌, None};
ghost use Rattle.line_io.specs.Blocks.{begins, rest_of, place_after, Fills, Writes};
ghost use Rattle.line_io.specs.States.{FedOn};

use line_stream::{Begun, Fed};
use std::io::{Error, Read};

// Bytes of the block that is read and of the output, where a program needs no more.
pub const BLOCK: usize = 65536;

// How far a run is: the line begun, and which bytes of the block are still to be fed. Where a step below answers none, the run is over.
#[derive(Clone, Copy)]
pub struct Step {
    pub begun: Begun,
    pub from: usize,
    pub end: usize,
}

// A run that begins.
pub fn start() -> Step
    ensures { result ≡ begins }
{
    Step {
        begun: Begun { number: 1, len: 0 },
        from: 0,
        end: 0,
    }
}

// A read failed: says so, and the run is over.
fn unread(rt: &impl Eprint, error: Error) -> Option<Step>
    ensures { result ≡ None }
{
    let _ = eprintln!(rt; "standard input: {error}");
    None
}

// Reads a block, if all of the one before is fed. It has no bytes at the end of the input. If the read fails, says so, and the run is over.
pub fn fill(rt: &impl Eprint, input: &mut impl Read, block: &mut [u8], s: Step) -> Option<Step>
    ensures step { Fills block.old block.new s result }
{
    if s.from < s.end {
        return Some(s);
    }
    match input.read(block) {
        Ok(n) => Some(Step {
            from: 0,
            end: n,
            ..s
        }),
        Err(error) => unread(rt, error),
    }
}

// The bytes of the block that are still to be fed.
pub fn rest<'a>(block: &'a [u8], s: Step) -> &'a [u8]
    ensures { result.now ≡ rest_of block.now s }
{
    if block.len() < s.end || s.end < s.from {
        return &block[0..0];
    }
    &block[s.from..s.end]
}

// An answer is longer than the output: says so, so that nothing is lost unsaid, and the run is over.
fn no_room(rt: &impl Eprint) -> Option<Step>
    ensures { result ≡ None }
{
    let _ = eprintln!(rt; "an answer has no room");
    None
}

// Writes the first bytes of the output; if it can't, says so. There are as many.
fn write_first(rt: &(impl Print + Eprint), out: &[u8], put: usize) -> bool {
    if out.len() < put {
        return false;
    }
    match rt.write_all(&out[..put]) {
        Ok(()) => true,
        Err(error) => {
            let _ = eprintln!(rt; "standard output: {error}");
            false
        }
    }
}

// The place after some more bytes, within the end.
fn place_after(from: usize, taken: usize, end: usize) -> usize
    ensures { result ≡ place_after from taken end }
{
    if from < end && taken < end - from {
        from + taken
    } else {
        end
    }
}

// Writes the answers of a feed, and goes on after what it took. If it can't write them, or an answer had no room, the run is over.
pub fn write_fed(rt: &(impl Print + Eprint), out: &[u8], fed: Fed, s: Step) -> Option<Step>
    ensures step { Writes fed s result }
{
    if !write_first(rt, out, fed.put) {
        return None;
    }
    if fed.taken == 0 {
        return no_room(rt);
    }
    Some(Step {
        begun: fed.begun,
        from: place_after(s.from, fed.taken, s.end),
        ..s
    })
}

// Writes the answer to a last line that lacks its LF, where all of the input was read. The run is over.
pub fn write_last(rt: &(impl Print + Eprint), out: &[u8], put: usize) -> Option<Step>
    ensures { result ≡ None }
{
    if out.len() < put {
        return no_room(rt);
    }
    write_first(rt, out, put);
    None
}

// Answers all of the input, line by line, over two lent buffers, for a block of it and for the output: reads, answers what came by a feed and writes; at the
// end of the input, by a finish, a last line that lacks its LF. They keep their state in S. A block with no room reads nothing, which is taken for the end of
// the input. A proved loop has to end, and nothing says that the input does: turns are counted up to a number that no run reaches. What is read and written no
// contract can say; but S is left as feeds leave it, the first at line 1, each of the others at the line begun where the one before it stopped.
pub fn run<S, F: Fn(&[u8], &mut S, &mut [u8], Begun) -> Fed, G: Fn(&S, &mut [u8], Begun) -> usize>(
    rt: &(impl Print + Eprint),
    input: &mut impl Read,
    block: &mut [u8],
    out: &mut [u8],
    state: &mut S,
    feed: F,
    finish: G,
)
    requires feeds { F.IsAlwaysCallable feed }
    requires finishes { G.IsAlwaysCallable finish }
    ensures { (b : Begun) × FedOn F.Fn feed begins.begun state.old b state.new }
{
    let mut s = start();
    for _ in 0..u64::MAX {
        let Some(now) = fill(rt, input, block, s) else {
            return;
        };
        let next = if now.from == now.end {
            let put = finish(state, out, now.begun);
            write_last(rt, out, put)
        } else {
            let fed = feed(rest(block, now), state, out, now.begun);
            write_fed(rt, out, fed, now)
        };
        let Some(then) = next else {
            return;
        };
        s = then;
    }
}
