// The answers of a block as bytes, put into a lent buffer.
#![tactic(auto)]

ghost use Rattle.std.specs.Prelude.{take};
ghost use Rattle.write_bytes.specs.Puts.{Puts};
ghost use Rattle.block_answers.specs.AnswerBytes.{answer_bytes};

use write_bytes::put;

// Three bytes for each of the first n numbers, or of all if there are fewer.
pub fn put_answers(out: &mut [u8], at: usize, numbers: &[u32], n: usize) -> usize
    ensures { Puts out.old at (answer_bytes (take n numbers.now)) out.new result }
{
    let first = &numbers[..n.min(numbers.len())];
    let mut next = at;
    for a in first {
        next = put(out, next, (*a / 65536 % 256) as u8);
        next = put(out, next, (*a / 256 % 256) as u8);
        next = put(out, next, (*a % 256) as u8);
    }
    next
}
