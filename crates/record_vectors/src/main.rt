// The calls of the measuring run over stored questions on standard input, all numbers high byte first: a byte whose bits 3 and 4 are depth and range, a
// record in five 8-byte numbers (rows, pixels, position, row, pixel), the length of a row in two bytes, and the row. The answer is a line: what the row
// makes of the record, and after a colon what the record itself has measured.
#![tactic(auto)]

use content_light::{Peak, RunRecord};
use quantity::Position;
use quantity::sample_format::SampleFormat;
use questions::{answer_all, number_at};
use refusal::Refusal;
use std::io;
use std::io::Read;

fn print_record(output: &impl Print, answer: Result<RunRecord, Refusal>) -> io::Result<()> {
    match answer {
        Ok(run) => print!(output;
            "{} {} {} {} {} ",
            run.rows, run.pixels, run.position.0, run.row, run.pixel
        ),
        Err(refusal) => print!(output; "refused {} {} ", refusal.number(), refusal.place()),
    }
}

fn print_peak(output: &impl Print, answer: Result<Peak, Refusal>) -> io::Result<()> {
    match answer {
        Ok(peak) => println!(output; ": {} {} {}", peak.cd, peak.row, peak.pixel),
        Err(refusal) => println!(output; ": refused {}", refusal.number()),
    }
}

// A question whose row is longer than the buffer ends the program.
fn answer(input: &mut impl Read, output: &impl Print, question: &[u8]) -> io::Result<()> {
    // the longest row, and one pixel more
    let mut row = [0u8; 49158];
    let Some(row) = row.get_mut(..number_at(question, 41, 2) as usize) else {
        return Err(io::Error::from(io::ErrorKind::InvalidData));
    };
    input.read_exact(row)?;
    let run = RunRecord {
        rows: number_at(question, 1, 8),
        pixels: number_at(question, 9, 8),
        position: Position(number_at(question, 17, 8)),
        row: number_at(question, 25, 8),
        pixel: number_at(question, 33, 8),
    };
    let format = SampleFormat::by_bits(number_at(question, 0, 1));
    print_record(output, run.measure_row(format, row))?;
    print_peak(output, run.measured_peak())
}

fn main(rt: HostRuntime) {
    let _ = answer_all(
        &mut rt.stdin(),
        &mut [0; 43],
        |input, question| answer(input, &rt, question),
    );
}
