// A title from its first byte to its last, each row converted and listed. No contract can say which bytes a system call reads or writes: that the
// calls made here, in this order, give a title's text is `program_text_lem`.
#![tactic(auto)]

pub mod next_row;

ghost use Rattle.std.specs.Prelude.{◌≤◌};

use next_row::list_next_row;
use std::io;
use std::io::{Read, Write};
use title::opening::Layout;
use title::streams::{Input, print_refusal};

// Converts the title on the input, of which at most so many rows are read, and prints its text on the output; a read that fails is told where errors are. A
// write that fails ends the text, and is told to nobody.
pub fn convert_title<R: Read, W: Write, E: Write>(
    input: &mut R,
    output: &mut W,
    errors: &mut E,
    limit: u64,
) {
    let mut input = Input {
        stream: input,
        errors,
        program: b"convert",
    };
    match input.open_title() {
        Ok(layout) => {
            let _ = print_title(&mut input, output, layout, limit);
        }
        Err(refusal) => print_refusal(output, refusal.number()),
    }
}

// One row of the widest title is all that is held at a time, in bytes, codes and text.
fn print_title<R: Read, W: Write, E: Write>(
    input: &mut Input<'_, R, E>,
    output: &mut W,
    layout: Layout,
    limit: u64,
) -> io::Result<()>
    requires { layout.width ≤ 8192 }
{
    let mut row = [0u8; 49152];
    let mut codes = [0u8; 49152];
    let mut text = [0u8; 147456];
    let bytes = 6 * layout.width;
    print_rows(
        input,
        output,
        layout,
        limit,
        &mut row[..bytes],
        &mut codes[..bytes],
        &mut text,
    )
}

// Reads row after row and prints the text of each at once. How many rows are left `list_next_row` says, whose answer `rows_left` is about.
fn print_rows<R: Read, W: Write, E: Write>(
    input: &mut Input<'_, R, E>,
    output: &mut W,
    layout: Layout,
    limit: u64,
    row: &mut [u8],
    codes: &mut [u8],
    text: &mut [u8],
) -> io::Result<()> {
    let mut left = limit;
    while 0 < left {
        let got = input.read(row);
        let piece = list_next_row(layout, left, &row[..got], codes, text);
        output.write_all(&text[..piece.bytes])?;
        left = piece.left;
    }
    Ok(())
}
