// The calls on lights and positions over stored questions on standard input: a byte for the call and an 8-byte number, high byte first. The answer is a
// line, a number: the byte over 8 leaves 0 for an entry of the light table, 1 for the light of a code, 2 for that at a position, 3 for the position of a
// light, 4 for that of a code; its bits 3 and 4 are the depth and range of a code.
#![tactic(auto)]

use position::code::{code_position, light_of_code};
use position::{light_at, position_of};
use pq::light_entry;
use quantity::sample_format::SampleFormat;
use quantity::{DisplayLight, Position};
use questions::{answer_all, number_at};
use std::io;

fn answer(output: &impl Print, question: &[u8]) -> io::Result<()> {
    let call = number_at(question, 0, 1);
    let number = number_at(question, 1, 8);
    let format = SampleFormat::by_bits(call);
    // by the number that the stored questions have
    let answer = match call % 8 {
        0 => light_entry(number).0,
        1 => light_of_code(format, number).0,
        2 => light_at(Position(number)).0,
        3 => position_of(DisplayLight(number)).0,
        _ => code_position(format, number).0,
    };
    println!(output; "{answer}")
}

fn main(rt: HostRuntime) {
    let _ = answer_all(
        &mut rt.stdin(),
        &mut [0; 9],
        |_, question| answer(&rt, question),
    );
}
