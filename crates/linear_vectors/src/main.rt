// The calls on values and pixels in floats over stored questions on standard input: a byte for the call, three 4-byte bit patterns and an 8-byte peak, high
// byte first. The byte is 0 for the class and the light of the first pattern's value, else for the pixel call. The answer is a line: the class, the value's
// pattern as it was given and the light in units; three codes; or `refused` with its number and place. A pattern of no number stands for any of them.
#![tactic(auto)]

ghost use Rattle.std.specs.Prelude.{◌≤◌, ◌<◌};

use linear_light::{LightClass, LinearPixel, class_of_value, light_of_value};
use pq_hlg::linear::convert_linear_pixel;
use questions::{answer_all, number_at, print_pixel};
use std::io;

// The value of a bit pattern; where the pattern stands for no number, none.
fn value_of(bits: u32) -> f32 {
    if 2139095040 < bits % 2147483648 {
        return 0.0 / 0.0;
    }
    f32::from_bits(bits)
}

// The bit pattern of a value; 0 for what is no number.
fn bits_of(x: f32) -> u32 {
    if x == x {
        return f32::to_bits(x);
    }
    0
}

// The value whose bit pattern starts at a place of a question.
fn value_at(question: &[u8], place: usize) -> f32 {
    value_of((number_at(question, place, 4) % 4294967296) as u32)
}

fn print_class(output: &impl Print, class: LightClass) -> io::Result<()> {
    let (name, x) = match class {
        LightClass::Light(x) => ("light", x),
        LightClass::Negative(x) => ("negative", x),
        LightClass::TooBright(x) => ("too bright", x),
    };
    println!(output; "{name} {} {}", bits_of(x), light_of_value(x).0)
}

fn answer(output: &impl Print, question: &[u8]) -> io::Result<()> {
    let red = value_at(question, 1);
    if number_at(question, 0, 1) == 0 {
        return match class_of_value(red) {
            Ok(class) => print_class(output, class),
            Err(refusal) => println!(output; "refused {} {}", refusal.number(), refusal.place()),
        };
    }
    let pixel = LinearPixel {
        red,
        green: value_at(question, 5),
        blue: value_at(question, 9),
    };
    print_pixel(
        output,
        convert_linear_pixel(number_at(question, 13, 8), pixel),
    )
}

fn main(rt: HostRuntime) {
    let _ = answer_all(
        &mut rt.stdin(),
        &mut [0; 21],
        |_, question| answer(&rt, question),
    );
}
