// A PQ title on standard input, its measured peak on standard output.
#![tactic(auto)]

use measured_title::measure_title;
use title::MOST_ROWS;

fn main(rt: HostRuntime) {
    measure_title(
        &mut rt.stdin(),
        &mut rt.stdout(),
        &mut rt.stderr(),
        MOST_ROWS,
    );
}
