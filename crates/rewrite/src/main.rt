// A title on standard input, the same title on standard output, its card rewritten where it names no peak.
#![tactic(auto)]

use rewritten_title::{MOST_BLOCKS, rewrite_title};

fn main(rt: HostRuntime) {
    rewrite_title(
        &mut rt.stdin(),
        &mut rt.stdout(),
        &mut rt.stderr(),
        MOST_BLOCKS,
    );
}
