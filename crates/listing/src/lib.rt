// What the programs print: a line for each pixel of a converted row, its three codes in decimal; a line of three numbers; the line of a refusal.
#![tactic(auto)]

ghost use Rattle.std.specs.Prelude.{◌≡◌, ◌+◌, ◌*◌, ◌≤◌, ◌<◌, length};
ghost use Rattle.quantity.specs.Component.{pixel, components};
ghost use Rattle.listing.specs.Text.{decimal, line, row_text_within, line_within, refusal_line_within, Stored, opened};

use quantity::Rgb;
use rows::pixel_of;

// The digits of a number at a place of a buffer; the place after them. It calls itself, and so it takes and gives the place as a number: behind a
// reference every digit would read it from memory and write it back, a quarter of a row's time.
fn put_digits(buffer: &mut [u8], at: usize, n: u64) -> usize
    requires { at + length (decimal n) ≤ length buffer.old }
    ensures { Stored (decimal n) at result buffer.old buffer.new }
{
    if n < 10 {
        buffer[at] = b'0' + n as u8;
        return at + 1;
    }
    let last = put_digits(buffer, at, n / 10);
    buffer[last] = b'0' + (n % 10) as u8;
    last + 1
}

// A buffer in which a text stands up to `end`.
#[derive(Drop)]
struct Text<'a> {
    buffer: &'a mut [u8],
    end: usize,
}

impl Text<'_> {
    // These bytes, which the text ends in then.
    #[tactic(auto, using(crate::proofs::TextLaws::part_stored))]
    fn put(&mut self, part: &[u8])
        requires { self.old.end + length part.now ≤ length self.old.buffer.now }
        ensures stored { Stored part.now self.old.end self.new.end self.old.buffer.now self.new.buffer.now }
        ensures same_buffer { self.new.buffer.ghost_name ≡ self.old.buffer.ghost_name }
    {
        let end = self.end + part.len();
        self.buffer[self.end..end].copy_from_slice(part);
        self.end = end;
    }

    // A number in decimal, by hand: of what `write!` leaves in a buffer std has no clause that names its bytes.
    fn put_number(&mut self, n: u64)
        requires { self.old.end + length (decimal n) ≤ length self.old.buffer.now }
        ensures stored { Stored (decimal n) self.old.end self.new.end self.old.buffer.now self.new.buffer.now }
        ensures same_buffer { self.new.buffer.ghost_name ≡ self.old.buffer.ghost_name }
    {
        self.end = put_digits(self.buffer, self.end, n);
    }

    // A pixel's line.
    fn put_line(&mut self, p: Rgb<u64>)
        requires { self.old.end + length (line (components p)) ≤ length self.old.buffer.now }
        ensures stored { Stored (line (components p)) self.old.end self.new.end self.old.buffer.now self.new.buffer.now }
        ensures same_buffer { self.new.buffer.ghost_name ≡ self.old.buffer.ghost_name }
    {
        self.put_number(p.red);
        self.put(b" ");
        self.put_number(p.green);
        self.put(b" ");
        self.put_number(p.blue);
        self.put(b"\n");
    }
}

// The text of a row of codes, two bytes each, high byte first, at the start of a buffer; its length. The buffer needs 18 bytes for each pixel:
// where it has fewer, or the bytes are not whole pixels, nothing is written.
#[tactic(auto, unfolding(crate::specs::Text::row_text_within))]
pub fn list_row(codes: &[u8], text: &mut [u8]) -> usize
    ensures { (result ≡ length (row_text_within codes.now (length text.old)))
        × (text.new ≡ opened (row_text_within codes.now (length text.old)) text.old) }
{
    if !codes.len().is_multiple_of(6) || text.len() / 18 < codes.len() / 6 {
        return 0;
    }
    let mut lines = Text {
        buffer: text,
        end: 0,
    };
    for bytes in codes.chunks_exact(6) {
        let p = pixel_of(bytes);
        lines.put_line(p);
    }
    lines.end
}

// The line of three numbers at the start of a buffer; its length. The buffer needs 63 bytes, room for every three: where it has fewer, nothing is
// written. Of any meaning, they are no pixel: a title's peak has a row and a pixel beside it.
#[tactic(auto, unfolding(crate::specs::Text::line_within))]
pub fn list_line(first: u64, second: u64, third: u64, text: &mut [u8]) -> usize
    ensures { (result ≡ length (line_within (pixel first second third) (length text.old)))
        × (text.new ≡ opened (line_within (pixel first second third) (length text.old)) text.old) }
{
    if text.len() < 63 {
        return 0;
    }
    let mut line = Text {
        buffer: text,
        end: 0,
    };
    line.put_line(Rgb {
        red: first,
        green: second,
        blue: third,
    });
    line.end
}

// The line of a refusal at the start of a buffer; its length. The buffer needs 29 bytes, room for every number: where it has fewer, nothing is
// written. It takes the number and no `Refusal`: the clause lists any number, and a parameter may not become narrower.
#[tactic(auto, unfolding(crate::specs::Text::refusal_line_within))]
pub fn list_refusal(number: u64, text: &mut [u8]) -> usize
    ensures { (result ≡ length (refusal_line_within number (length text.old)))
        × (text.new ≡ opened (refusal_line_within number (length text.old)) text.old) }
{
    if text.len() < 29 {
        return 0;
    }
    let mut line = Text {
        buffer: text,
        end: 0,
    };
    line.put(b"refused ");
    line.put_number(number);
    line.put(b"\n");
    line.end
}
