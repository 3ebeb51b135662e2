// Compares the rule books in the two files that its arguments name: what changed from the first to the second. Nothing is written unless both can be read.
#![tactic(auto)]

use book_file::{ROOM, read_argument};
use compare_books::compare;

// Bytes of the output's buffer: there are never more.
const OUTPUT: usize = 2048;

// Writes what changed from one book to the other; if it can't, says so.
fn write_changes(rt: &(impl Print + Eprint), first: &[u8], second: &[u8]) {
    let mut out = [0u8; OUTPUT];
    let put = compare(&mut out, 0, first, second);
    if let Err(error) = rt.write_all(&out[..put]) {
        let _ = eprintln!(rt; "standard output: {error}");
    }
}

fn main(rt: HostRuntime) {
    let mut first = [0u8; ROOM];
    let mut second = [0u8; ROOM];
    let x = read_argument(&rt, 1, &mut first);
    let y = read_argument(&rt, 2, &mut second);
    if let (Some(n), Some(m)) = (x, y) {
        write_changes(&rt, &first[..n], &second[..m]);
    }
}
