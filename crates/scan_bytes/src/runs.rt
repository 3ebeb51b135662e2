// Runs of bytes of a class.
ghost use Rattle.std.specs.Prelude.{◌≡◌, ◌+◌, ◌≤◌, length, drop};
ghost use Rattle.forms.specs.Form.{has};
ghost use Rattle.forms.specs.Bytes.{run};
ghost use Rattle.scan_bytes.specs.Classes.{class_of};

use crate::bytes::{Class, in_class};

// The place after the longest run of bytes of the class at a place. By `take_while` it takes 120 ms for 32 MB, and so 75.
pub fn run_of(s: &[u8], at: usize, k: Class) -> usize
    requires { at ≤ length s.now }
    ensures { result ≡ at + run (has (class_of k)) (drop at s.now) }
{
    for i in at..s.len() {
        if !in_class(k, s[i]) {
            return i;
        }
    }
    s.len()
}
