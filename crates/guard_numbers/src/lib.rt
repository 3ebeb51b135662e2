// The answers of a block as numbers, while its rules are gone through: none decided at first, held with rule 0 in the end if none decides.
#![tactic(auto)]

ghost use Rattle.std.specs.Prelude.{◌≡◌, ◌++◌, map, ◌+◌, ◌≤◌, ◌<◌, length, take, drop, replicate};
ghost use Rattle.definitions.specs.Lists.{any?};
ghost use Rattle.definitions.specs.Blocks.{action_number};
ghost use Rattle.guard_numbers.specs.OpenNumbers.{open_number, is_open, closed};

use definitions::books::Action;

// The number of a packet that is not decided; no answer has it.
pub const OPEN: u32 = 131072;

// The number of an answer.
pub fn answer_number(a: Action, n: u16) -> u32
    ensures number { result ≡ action_number a + n }
    ensures below { result < open_number }
{
    match a {
        Action::Pass => 65536 + n as u32,
        Action::Hold => n as u32,
    }
}

// No packet is decided.
pub fn open_all(out: &mut [u32], n: usize)
    requires { n ≤ length out.old }
    ensures { out.new ≡ replicate n open_number ++ drop n out.old }
{
    out[..n].fill(OPEN);
}

// Whether some packet is not decided.
pub fn any_open(out: &[u32], n: usize) -> bool
    requires { n ≤ length out.now }
    ensures { result ≡ any? is_open (take n out.now) }
{
    out[..n].contains(&OPEN)
}

// Packets that no rule decided are held, with rule 0.
pub fn close_all(out: &mut [u32], n: usize)
    requires { n ≤ length out.old }
    ensures { out.new ≡ map closed (take n out.old) ++ drop n out.old }
{
    for number in out[..n].iter_mut() {
        if *number == OPEN {
            *number = 0;
        }
    }
}
