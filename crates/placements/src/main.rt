// Answers cases, one a line: standard input and output (crate line_io) around the work on lines (crate case_lines).
#![tactic(auto)]

use case_lines::{LINE_BYTES, feed, finish};
use line_io::{BLOCK, run};

fn main(rt: HostRuntime) {
    run(
        &rt,
        &mut rt.stdin(),
        &mut [0u8; BLOCK],
        &mut [0u8; BLOCK],
        &mut [0u8; LINE_BYTES],
        feed,
        finish,
    );
}
