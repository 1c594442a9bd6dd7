// The card's calls over stored questions on standard input: the number of bytes in one byte, then the bytes, which open with a card. The answer is a
// line: the peak or the refusal, then how many bytes follow the card, what else the card says, `twelve` bits and `full` range, and after a colon what it is
// rewritten to: three bytes, `nothing`, or the refusal.
#![tactic(auto)]

use metadata::rewriting::rewrite_metadata;
use metadata::{after_metadata, source_of_metadata};
use quantity::Source;
use quantity::sample_format::{Depth, Range};
use questions::answer_all;
use refusal::Refusal;
use std::io;
use std::io::Read;

fn print_source(
    output: &impl Print,
    answer: Result<Source, Refusal>,
    follow: usize,
) -> io::Result<()> {
    match answer {
        Ok(source) => {
            print!(output; "peak {} {follow}", source.peak)?;
            if let Depth::Twelve = source.format.depth {
                print!(output; " twelve")?;
            }
            if let Range::Full = source.format.range {
                print!(output; " full")?;
            }
            Ok(())
        }
        Err(refusal) => print!(output; "refused {} {follow}", refusal.number()),
    }
}

fn print_rewriting(
    output: &impl Print,
    answer: Result<Option<[u8; 3]>, Refusal>,
) -> io::Result<()> {
    match answer {
        Ok(Some(card)) => println!(output; "{} {} {}", card[0], card[1], card[2]),
        Ok(None) => println!(output; "nothing"),
        Err(refusal) => println!(output; "refused {}", refusal.number()),
    }
}

fn answer(input: &mut impl Read, output: &impl Print, question: &[u8]) -> io::Result<()> {
    let [length] = question else {
        return Ok(());
    };
    // as many as one byte can count
    let mut card = [0; 255];
    let card = &mut card[..*length as usize];
    input.read_exact(card)?;
    print_source(output, source_of_metadata(card), after_metadata(card).len())?;
    print!(output; " : ")?;
    print_rewriting(output, rewrite_metadata(card))
}

fn main(rt: HostRuntime) {
    let _ = answer_all(
        &mut rt.stdin(),
        &mut [0; 1],
        |input, question| answer(input, &rt, question),
    );
}
