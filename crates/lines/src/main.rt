// The line program: standard input and output (crate line_io) around the work on lines (crate text_lines).
#![tactic(auto)]

use line_io::{BLOCK, run};
use text_lines::{LINE_BYTES, feed, finish};

fn main(rt: HostRuntime) {
    run(
        &rt,
        &mut rt.stdin(),
        &mut [0u8; BLOCK],
        &mut [0u8; BLOCK],
        &mut [0u8; LINE_BYTES],
        feed,
        finish,
    );
}
