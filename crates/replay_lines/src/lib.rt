// The replay's work on slices: a book is opened, a trace comes in parts of any length, answers go out, and the totals after the last line.
#![tactic(auto)]

ghost use Rattle.std.specs.Prelude.{◌≡◌, [], ◌∷◌, ◌<◌, take, if◌then◌else◌};
ghost use Rattle.definitions.specs.Limits.{document_limits};
ghost use Rattle.definitions.specs.Books.{judge};
ghost use Rattle.definitions.specs.LoadedBooks.{rules_in, loaded};
ghost use Rattle.write_bytes.specs.Puts.{Puts};
ghost use Rattle.line_stream.specs.Stream.{Feeds};
ghost use Rattle.line_stream.specs.Whole.{WholeLines};
ghost use Rattle.line_stream.specs.Ended.{ended_lines};
ghost use Rattle.replay_laws.specs.Replays.{replay_answer, refused_output};
ghost use Rattle.replay_totals.specs.OutcomeNumbers.{outcome_of};
ghost use Rattle.replay_totals.specs.Totals.{counted};
ghost use Rattle.replay_lines.specs.Feeding.{is_accepted, opened_text, Ready, Counts, last_output, LastWhole};

use definitions::answers::Refusal;
use definitions::books::Rules;
use line_stream::{Begun, Fed, end_line, first_line, kept, last_line, next_line};
use replay_batches::{LINES, RECORDS, decide_lines};
use replay_records::TRACE_BYTES;
use replay_totals::{Totals, count, put_outcome, put_totals};
use rule_book::load;

// Bytes of a line that are kept: one more than a line of a trace may have, so that a longer line is known to be longer.
pub const LINE_BYTES: usize = TRACE_BYTES + 1;

// A book that was judged: its rules, none if it is refused, and how many bytes were put, none if it is accepted.
#[derive(Clone, Copy)]
pub struct Opened {
    pub rules: Rules,
    pub accepted: bool,
    pub put: usize,
}

// What was fed, and the totals with it.
#[derive(Clone, Copy)]
pub struct Replayed {
    pub fed: Fed,
    pub totals: Totals,
}

// Numbers of lines that were decided ahead: those from `next` up to `count` are still to be put.
#[derive(Clone, Copy)]
pub struct Ahead {
    pub next: usize,
    pub count: usize,
}

// `book`, tab, refusal, tab, line, LF.
fn put_refused_book(out: &mut [u8], r: Refusal, line: usize) -> usize
    ensures { Puts out.old 0 (refused_output r line) out.new result }
{
    line_refusals::put_refused_book(out, 0, b"book\t", r, line)
}

// OPENING A BOOK: it is judged and loaded; if it is refused, all that a replay writes is put.
pub fn open(book: &[u8], out: &mut [u8]) -> Opened
    ensures rules { result.rules ≡ (loaded document_limits book.now).rules }
    ensures accepted { result.accepted ≡ is_accepted (judge document_limits book.now) }
    ensures put { Puts out.old 0 (opened_text (judge document_limits book.now)) out.new result.put }
{
    let b = load(book);
    match b.judgement {
        Err(e) => Opened {
            rules: b.rules,
            accepted: false,
            put: put_refused_book(out, e.refusal, e.line),
        },
        Ok(_) => Opened {
            rules: b.rules,
            accepted: true,
            put: 0,
        },
    }
}

// Decides the first line and those after it, unless that was done.
fn look_ahead(
    book: &[u8],
    rules: Rules,
    first: &[u8],
    rest: &[u8],
    block: &mut [u8; RECORDS],
    numbers: &mut [u32; LINES],
    answers: &mut [u32; LINES],
    ahead: Ahead,
) -> Ahead
    requires { Ready document_limits (rules_in book.now rules) (first.now ∷ ended_lines [] rest.now) answers.old ahead }
    ensures ready { Ready document_limits (rules_in book.now rules) (first.now ∷ ended_lines [] rest.now) answers.new result }
    ensures some { result.next < result.count }
{
    if ahead.next < ahead.count {
        return ahead;
    }
    let count = decide_lines(book, rules, first, rest, block, numbers, answers);
    Ahead { next: 0, count }
}

// The totals with a line of this number, if it was answered.
fn count_if(answered: bool, t: Totals, n: u32) -> Totals
    ensures { result ≡ (if answered then counted t (outcome_of n) else t) }
{
    if answered {
        return count(t, n);
    }
    t
}

// FEEDING: takes bytes of the trace until all are taken, or an answer has no room in the output.
pub fn feed(
    book: &[u8],
    rules: Rules,
    input: &[u8],
    line: &mut [u8; LINE_BYTES],
    out: &mut [u8],
    begun: Begun,
    totals: Totals,
) -> Replayed
    ensures fed { Feeds (replay_answer document_limits (rules_in book.now rules)) input.now line.old out.old begun line.new out.new result.fed }
    ensures whole { WholeLines (replay_answer document_limits (rules_in book.now rules)) input.now line.old begun line.new out.new result.fed }
    ensures totals { Counts document_limits (rules_in book.now rules) input.now line.old begun totals result.fed.taken result.totals }
{
    // For the records of lines and their numbers: cleared once a feed, not once a line.
    let mut block = [0u8; RECORDS];
    let mut numbers = [0u32; LINES];
    let mut answers = [0u32; LINES];
    let mut ahead = Ahead { next: 0, count: 0 };
    let mut sum = totals;
    let mut t = first_line(input, line, out, begun);
    while t.waits {
        let fed = t.fed;
        let after = fed.taken + 1;
        let ready = look_ahead(
            book,
            rules,
            kept(line, fed.begun),
            &input[after..],
            &mut block,
            &mut numbers,
            &mut answers,
            ahead,
        );
        let i = ready.next;
        let n = answers[i];
        let at = put_outcome(out, t.at, n);
        t = next_line(input, line, out, fed, at);
        sum = count_if(fed.taken < t.fed.taken, sum, n);
        ahead = Ahead {
            next: i + 1,
            ..ready
        };
    }
    Replayed {
        fed: t.fed,
        totals: sum,
    }
}

// After the last byte: the answer to a line that lacks its LF, and the totals. The answer is how many bytes it has, more than the buffer's if it has no room.
pub fn finish(
    book: &[u8],
    rules: Rules,
    line: &[u8; LINE_BYTES],
    out: &mut [u8],
    begun: Begun,
    totals: Totals,
) -> usize
    ensures puts { Puts out.old 0 (last_output document_limits (rules_in book.now rules) begun.number (take begun.len line.now) totals) out.new result }
    ensures whole { LastWhole document_limits (rules_in book.now rules) line.now out.old begun totals out.new result }
{
    let t = last_line(line, out, begun);
    if t.waits {
        let mut block = [0u8; RECORDS];
        let mut numbers = [0u32; LINES];
        let mut answers = [0u32; LINES];
        decide_lines(
            book,
            rules,
            kept(line, begun),
            &[],
            &mut block,
            &mut numbers,
            &mut answers,
        );
        let n = answers[0];
        let at = put_outcome(out, t.at, n);
        let end = end_line(out, at);
        let sum = count(totals, n);
        return put_totals(out, end, sum);
    }
    put_totals(out, t.at, totals)
}
