// A PQ title on standard input, its HLG codes on standard output.
#![tactic(auto)]

use converted_title::convert_title;
use title::MOST_ROWS;

fn main(rt: HostRuntime) {
    convert_title(
        &mut rt.stdin(),
        &mut rt.stdout(),
        &mut rt.stderr(),
        MOST_ROWS,
    );
}
