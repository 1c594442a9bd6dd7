// The pixel calls over stored questions on standard input, each a byte and four 8-byte numbers, high byte first: peak, red, green, blue. The byte over 8
// leaves the call, 0 for HLG codes of PQ and 1 for Y'CbCr of RGB; its bits 3 and 4 are depth and range. Y'CbCr reads neither them nor the peak. The answer
// is a line: the three codes, or `refused` with its number and place.
#![tactic(auto)]

use pq_hlg::{convert_codes, convert_pixel};
use quantity::sample_format::SampleFormat;
use quantity::{Rgb, Source};
use questions::{answer_all, number_at, print_pixel};
use std::io;

fn answer(output: &impl Print, question: &[u8]) -> io::Result<()> {
    let call = number_at(question, 0, 1);
    let pixel = Rgb {
        red: number_at(question, 9, 8),
        green: number_at(question, 17, 8),
        blue: number_at(question, 25, 8),
    };
    // by the number that the stored questions have
    if call % 8 == 1 {
        return print_pixel(output, convert_codes(pixel));
    }
    let source = Source {
        peak: number_at(question, 1, 8),
        format: SampleFormat::by_bits(call),
    };
    print_pixel(output, convert_pixel(source, pixel))
}

fn main(rt: HostRuntime) {
    let _ = answer_all(
        &mut rt.stdin(),
        &mut [0; 33],
        |_, question| answer(&rt, question),
    );
}
