// What the test programs share: the questions that are stored for them, the numbers in a question, and the answer of a pixel call.
#![tactic(auto)]

use quantity::Rgb;
use refusal::Refusal;
use std::io;
use std::io::Read;

// More questions than are stored: the limit is there so that a program ends on any input.
const MOST_QUESTIONS: u64 = 1000000;

// Answers the questions on the input, each as long as the buffer that it is read into, to the input's end, which may cut a question short, or to an answer
// that fails. What follows the bytes of a question is left on the input for its answer.
pub fn answer_all<R: Read, F: FnMut(&mut R, &[u8]) -> io::Result<()>>(
    input: &mut R,
    question: &mut [u8],
    mut answer: F,
) -> io::Result<()>
    requires { F.IsAlwaysCallable answer }
{
    for _ in 0..MOST_QUESTIONS {
        input.read_exact(question)?;
        answer(input, question)?;
    }
    Ok(())
}

// The number of so many bytes, high byte first, that starts at a place of a question.
pub fn number_at(question: &[u8], place: usize, bytes: usize) -> u64 {
    question
        .iter()
        .skip(place)
        .take(bytes)
        .fold(0, |number, byte| number << 8 | u64::from(*byte))
}

// The line of a pixel call's answer: three codes, or `refused` with its number and place.
pub fn print_pixel(output: &impl Print, answer: Result<Rgb<u64>, Refusal>) -> io::Result<()> {
    match answer {
        Ok(codes) => println!(output; "{} {} {}", codes.red, codes.green, codes.blue),
        Err(refusal) => println!(output; "refused {} {}", refusal.number(), refusal.place()),
    }
}
