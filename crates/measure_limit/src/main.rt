// The row limit at two rows: what follows the second is not measured.
#![tactic(auto)]

use measured_title::measure_title;

fn main(rt: HostRuntime) {
    measure_title(&mut rt.stdin(), &mut rt.stdout(), &mut rt.stderr(), 2);
}
