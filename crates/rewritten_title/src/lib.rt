// A title copied from its first byte to its last, its card rewritten where it names no peak. No contract can say which bytes a system call reads or
// writes: that the calls made here, in this order, give the rewritten title is `program_bytes_lem`. Whatever is amiss is told where errors are told, in a
// program on standard error, so that a copy of which nothing is told is whole.
#![tactic(auto)]

use metadata::after_metadata;
use metadata::rewriting::rewrite_metadata;
use std::io;
use std::io::{Read, Write};
use title::streams::{Input, print_refusal};

// More blocks than any title has.
pub const MOST_BLOCKS: u64 = u64::MAX;

// Copies the title on the input to the output, its card rewritten where it names no peak; of what comes after the longest card at most so many blocks.
// Nothing is copied of a title whose card 1 to 4 refuse: its refusal is told.
pub fn rewrite_title<R: Read, W: Write, E: Write>(
    input: &mut R,
    output: &mut W,
    errors: &mut E,
    blocks: u64,
) {
    let mut input = Input {
        stream: input,
        errors,
        program: b"rewrite",
    };
    // the longest card has a bit map and two fields; what else is in these bytes is copied
    let mut opening = [0u8; 5];
    let got = input.read(&mut opening);
    if copy_title(&mut input, output, &opening[..got], blocks).is_err() {
        let _ = input
            .errors
            .write_all(b"rewrite: the output could not be written to its end\n");
    }
}

// The title that opens with these bytes; an error is a write of the title that failed.
fn copy_title<R: Read, W: Write, E: Write>(
    input: &mut Input<'_, R, E>,
    output: &mut W,
    opening: &[u8],
    blocks: u64,
) -> io::Result<()> {
    match rewrite_metadata(opening) {
        Ok(Some(card)) => {
            output.write_all(&card)?;
            output.write_all(after_metadata(opening))?;
        }
        Ok(None) => output.write_all(opening)?,
        Err(refusal) => {
            print_refusal(input.errors, refusal.number());
            return Ok(());
        }
    }
    copy_blocks(input, output, blocks)
}

// Block after block, until the input has no whole one left. One block is all that is held at a time, and none where nothing is copied: a refused title is
// told on a stack of 16 KiB.
#[inline(never)]
fn copy_blocks<R: Read, W: Write, E: Write>(
    input: &mut Input<'_, R, E>,
    output: &mut W,
    blocks: u64,
) -> io::Result<()> {
    let mut block = [0u8; 65536];
    for _ in 0..blocks {
        let got = input.read(&mut block);
        output.write_all(&block[..got])?;
        if got < block.len() {
            break;
        }
    }
    Ok(())
}
