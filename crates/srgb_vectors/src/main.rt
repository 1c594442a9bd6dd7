// The light of a value and the pixel call of captions over stored questions on standard input: a byte for the call and three sRGB values. The byte is 0 for the
// light of the first value, else for the pixel call. The answer is a line: the light in 1/2^40, or three codes.
#![tactic(auto)]

use quantity::Rgb;
use questions::{answer_all, print_pixel};
use srgb::light_of_value;
use srgb_hlg::convert_pixel;
use std::io;

fn answer(output: &impl Print, question: &[u8]) -> io::Result<()> {
    match question {
        [0, value, ..] => println!(output; "{}", light_of_value(*value).0),
        [_, red, green, blue] => print_pixel(
            output,
            Ok(convert_pixel(Rgb {
                red: *red,
                green: *green,
                blue: *blue,
            })),
        ),
        _ => Ok(()),
    }
}

fn main(rt: HostRuntime) {
    let _ = answer_all(
        &mut rt.stdin(),
        &mut [0; 4],
        |_, question| answer(&rt, question),
    );
}
