// A title from a reader, a text to a writer: in a program standard input and standard output, and standard error for what is told. No contract can say which
// bytes a system call reads or writes: what they are to be is promised by the functions on slices that are called here, and that reading so ends with a
// title's opening is `opening_read`.
ghost use Rattle.std.specs.Prelude.{◌≡◌, ℕ, ◌≤◌, List, length, take, IfOk};
ghost use Rattle.std.specs.Io.KnownBytes.{Consumes};
ghost use Rattle.title.specs.Opening.{opening_answer};

use crate::opening::{Layout, bytes_asked, read_opening};
use listing::list_refusal;
use refusal::Refusal;
use std::io::{Read, Write};

// The input that has a title. A read that fails is told where errors are, by the name of the program that reads. No call puts another reference in the place
// of one of the three: who lent them has them again.
#[derive(Drop)]
pub struct Input<'a, R, E> {
    pub stream: &'a mut R,
    pub errors: &'a mut E,
    pub program: &'a [u8],
}

impl<R: Read, E: Write> Input<'_, R, E> {
    // Reads the opening of the title; what the bytes that came declare, or their refusal.
    pub fn open_title(&mut self) -> Result<Layout, Refusal>
        ensures opening { (opening : List ℕ) × Consumes (R.remaining self.old.stream.now) (R.remaining self.new.stream.now) opening
            × (result ≡ opening_answer opening) }
        ensures width { IfOk result (λ layout. layout.width ≤ 8192) }
        ensures same_stream { self.new.stream.ghost_name ≡ self.old.stream.ghost_name }
        ensures same_errors { self.new.errors.ghost_name ≡ self.old.errors.ghost_name }
        ensures same_program { self.new.program ≡ self.old.program }
    {
        let mut opening = [0u8; 7];
        let got = self.read_opening_bytes(&mut opening);
        read_opening(&opening[..got])
    }

    // Reads the bytes of an opening, as many as they themselves ask for; how many came. A loop, since only what came says how many are asked for next.
    fn read_opening_bytes(&mut self, opening: &mut [u8]) -> usize
        requires { length opening.old ≡ 7 }
        ensures within { result ≤ 7 }
        ensures bytes { Consumes (R.remaining self.old.stream.now) (R.remaining self.new.stream.now) (take result opening.new) }
        ensures same_stream { self.new.stream.ghost_name ≡ self.old.stream.ghost_name }
        ensures same_errors { self.new.errors.ghost_name ≡ self.old.errors.ghost_name }
        ensures same_program { self.new.program ≡ self.old.program }
    {
        let mut got = 0;
        loop {
            let asked = bytes_asked(&opening[..got]);
            if asked == 0 {
                return got;
            }
            let end = got + asked;
            let came = self.read(&mut opening[got..end]);
            got += came;
            if came < asked {
                return got;
            }
        }
    }

    // Fills the buffer, or as much of it as the input has; how many bytes came. A loop, since after an error `read_exact` promises neither their number nor
    // which they are, as the clause `bytes` does.
    pub fn read(&mut self, buffer: &mut [u8]) -> usize
        ensures within { result ≤ length buffer.old }
        ensures bytes { Consumes (R.remaining self.old.stream.now) (R.remaining self.new.stream.now) (take result buffer.new) }
        ensures same_stream { self.new.stream.ghost_name ≡ self.old.stream.ghost_name }
        ensures same_errors { self.new.errors.ghost_name ≡ self.old.errors.ghost_name }
        ensures same_program { self.new.program ≡ self.old.program }
    {
        let mut done = 0;
        while done < buffer.len() {
            let more = self.read_some(&mut buffer[done..]);
            if more == 0 {
                return done;
            }
            done += more;
        }
        done
    }

    // One read; 0 at the end of the input, as a reader itself answers. A read that fails counts as the end and is told, so that half a title does not pass
    // for a whole one.
    fn read_some(&mut self, buffer: &mut [u8]) -> usize
        ensures within { result ≤ length buffer.old }
        ensures bytes { Consumes (R.remaining self.old.stream.now) (R.remaining self.new.stream.now) (take result buffer.new) }
        ensures same_stream { self.new.stream.ghost_name ≡ self.old.stream.ghost_name }
        ensures same_errors { self.new.errors.ghost_name ≡ self.old.errors.ghost_name }
        ensures same_program { self.new.program ≡ self.old.program }
    {
        match self.stream.read(buffer) {
            Ok(got) => got,
            Err(_) => {
                let _ = self.errors.write_all(self.program);
                let _ = self
                    .errors
                    .write_all(b": the input could not be read to its end\n");
                0
            }
        }
    }
}

// The line of a refusal, by its number as `list_refusal`, on a stream: the output, or where errors are told for a program
// whose output is a title. A write that fails is told to nobody.
pub fn print_refusal<W: Write>(stream: &mut W, number: u64) {
    let mut text = [0u8; 29];
    let n = list_refusal(number, &mut text);
    let _ = stream.write_all(&text[..n]);
}
