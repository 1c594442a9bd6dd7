// The stages and the pixel call of the return path over stored questions on standard input: a byte for the call and three 8-byte numbers, high byte first.
// The byte is 0 for the scene light of a code, 1 for the display lights of three scene lights, 2 for the PQ code of a light, 3 for whether a component has
// a display light (luminance, scene light, light), 4 for the pixel call; 0 and 2 read the first number alone. The answer is a line: a number (1 where the
// light is reached), three numbers, or `refused` with its number and place.
#![tactic(auto)]

use hlg_pq::convert_pixel;
use inverse_eotf::pq_code_of;
use inverse_oetf::scene_light_of;
use ootf::{display_lights, has_light};
use quantity::{DisplayLight, Rgb, SceneLight};
use questions::{answer_all, number_at, print_pixel};
use std::io;

fn answer(output: &impl Print, question: &[u8]) -> io::Result<()> {
    let first = number_at(question, 1, 8);
    let second = number_at(question, 9, 8);
    let third = number_at(question, 17, 8);
    // by the number that the stored questions have
    match number_at(question, 0, 1) {
        0 => println!(output; "{}", scene_light_of(first).0),
        1 => {
            let lights = display_lights(Rgb {
                red: SceneLight(first),
                green: SceneLight(second),
                blue: SceneLight(third),
            });
            println!(output; "{} {} {}", lights.red.0, lights.green.0, lights.blue.0)
        }
        2 => println!(output; "{}", pq_code_of(DisplayLight(first))),
        3 => {
            let reached = has_light(first, SceneLight(second), DisplayLight(third));
            println!(output; "{}", reached as u64)
        }
        _ => print_pixel(
            output,
            convert_pixel(Rgb {
                red: first,
                green: second,
                blue: third,
            }),
        ),
    }
}

fn main(rt: HostRuntime) {
    let _ = answer_all(
        &mut rt.stdin(),
        &mut [0; 25],
        |_, question| answer(&rt, question),
    );
}
