// The bytes of a table: its name, and room that is not in use.
#![tactic(auto)]

ghost use Rattle.std.specs.Prelude.{◌≡◌, ◌&&◌, ℕ, ◌≤◌, length, take, drop, leb};
ghost use Rattle.forms.specs.Form.{has};
ghost use Rattle.definitions.specs.Limits.{max_byte};
ghost use Rattle.definitions.specs.Lists.{all?};
ghost use Rattle.definitions.specs.Forms.{quotable};
ghost use Rattle.definitions.specs.WellFormed.{is_zero, name_fits};

use definitions::limits::NAME_BYTES;
use scan_bytes::bytes::{Class, in_class};

// Every byte from a place on is zero. All bits that are set are gathered: without a test for each byte, many bytes go in one step.
fn zero_from(s: &[u8], from: usize) -> bool
    ensures { result ≡ all? is_zero (drop from s.now) }
{
    let rest = &s[from.min(s.len())..];
    rest.iter().fold(0, |bits, b| bits | *b) == 0
}

// The first bytes may all stand in a name.
fn quotable_to(s: &[u8], n: usize) -> bool
    requires { n ≤ length s.now }
    ensures { result ≡ all? (has quotable) (take n s.now) }
{
    s[..n].iter().all(|b| in_class(Class::Quotable, *b))
}

// 1 to 64 bytes that may stand in a name, and zeros after them.
#[tactic(auto, unfolding(definitions::specs::WellFormed::name_fits))]
pub fn name_fits(name: [u8; NAME_BYTES], len: usize) -> bool
    ensures { result ≡ name_fits name len }
{
    (1..=NAME_BYTES).contains(&len) && quotable_to(&name, len) && zero_from(&name, len)
}

// So many bytes are in use, and the room after them is zero.
pub fn room_fits(s: &[u8], used: usize) -> bool
    ensures { result ≡ (leb used (length s.now) && (all? (λ (b : ℕ). leb b max_byte) (take used s.now) && all? is_zero (drop used s.now))) }
{
    used <= s.len() && zero_from(s, used)
}
