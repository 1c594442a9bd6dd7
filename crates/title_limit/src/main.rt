// The row limit at two rows: what follows the second is neither converted nor refused.
#![tactic(auto)]

use converted_title::convert_title;

fn main(rt: HostRuntime) {
    convert_title(&mut rt.stdin(), &mut rt.stdout(), &mut rt.stderr(), 2);
}
