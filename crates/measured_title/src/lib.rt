// The measured peak of a title: each row is counted into the record of a run, and its result is printed at the end. No contract can say which bytes a
// system call reads or writes: that the calls made here, in this order, give a title's line is `program_line_lem`.
#![tactic(auto)]

pub mod next_row;

ghost use Rattle.std.specs.Prelude.{◌≤◌};

use content_light::RunRecord;
use next_row::{list_peak, measure_next_row};
use refusal::Refusal;
use std::io::{Read, Write};
use title::opening::Layout;
use title::streams::{Input, print_refusal};

// Measures the title on the input, of which at most so many rows are read, and prints its line on the output; a read that fails is told where errors are, a
// write that fails to nobody. Of what the title's card declares, the peak is not used.
pub fn measure_title<R: Read, W: Write, E: Write>(
    input: &mut R,
    output: &mut W,
    errors: &mut E,
    limit: u64,
) {
    let mut input = Input {
        stream: input,
        errors,
        program: b"measure",
    };
    match run_of_title(&mut input, limit) {
        Ok(run) => print_peak(output, run),
        Err(refusal) => print_refusal(output, refusal.number()),
    }
}

// The run over a title, or its first refusal.
fn run_of_title<R: Read, E: Write>(
    input: &mut Input<'_, R, E>,
    limit: u64,
) -> Result<RunRecord, Refusal> {
    let layout = input.open_title()?;
    run_of_rows(input, layout, limit)
}

// Reads row after row until one is refused or there is none. One row of the widest title is all that is held at a time, and none of a title whose opening is
// refused.
#[inline(never)]
fn run_of_rows<R: Read, E: Write>(
    input: &mut Input<'_, R, E>,
    layout: Layout,
    limit: u64,
) -> Result<RunRecord, Refusal>
    requires { layout.width ≤ 8192 }
{
    let mut widest = [0u8; 49152];
    let bytes = 6 * layout.width;
    let row = &mut widest[..bytes];
    let mut run = RunRecord::fresh();
    for _ in 0..limit {
        let got = input.read(row);
        match measure_next_row(run, layout.source.format, layout.width, &row[..got])? {
            Some(longer) => run = longer,
            None => break,
        }
    }
    Ok(run)
}

// The line of a run's result on the output.
fn print_peak<W: Write>(output: &mut W, run: RunRecord) {
    let mut text = [0u8; 63];
    let n = list_peak(run, &mut text);
    let _ = output.write_all(&text[..n]);
}
