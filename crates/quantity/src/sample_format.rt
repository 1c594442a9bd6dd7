// How the samples of a picture are coded: the bits of a code value, and which codes carry the signal.
ghost use Rattle.std.specs.Prelude.{◌≡◌, ◌≤◌};
ghost use Rattle.quantity.specs.SampleFormat.{fine, last_code, by_range, black, nominal_peak, least_taken, most_taken, format_of};

#[derive(Clone, Copy)]
pub enum Depth {
    Ten,
    Twelve,
}

// Narrow range keeps codes below black and above nominal peak; full range has these at its ends.
#[derive(Clone, Copy)]
pub enum Range {
    Narrow,
    Full,
}

#[derive(Clone, Copy)]
pub struct SampleFormat {
    pub depth: Depth,
    pub range: Range,
}

impl SampleFormat {
    // The code of black, the signal 0, and that of nominal peak, the signal 1.
    pub fn black_code(self) -> u64
        ensures { result ≡ black self }
    {
        self.by_range(16 * self.depth.fine(), 0)
    }

    pub fn nominal_peak_code(self) -> u64
        ensures { result ≡ nominal_peak self }
    {
        self.by_range(235 * self.depth.fine(), self.depth.last_code())
    }

    // The least and the most of the samples that are taken: in narrow range an interface keeps the codes below and above for its timing.
    pub fn least_taken(self) -> u64
        ensures { result ≡ least_taken self }
    {
        self.by_range(self.depth.fine(), 0)
    }

    pub fn most_taken(self) -> u64
        ensures { result ≡ most_taken self }
    {
        self.by_range(255 * self.depth.fine() - 1, self.depth.last_code())
    }

    // A format by two bits of a number, 3 for twelve bits and 4 for full range. Its other bits are not read.
    pub fn by_bits(number: u64) -> SampleFormat
        ensures { result ≡ format_of number }
    {
        let depth = if number / 8 % 2 == 1 {
            Depth::Twelve
        } else {
            Depth::Ten
        };
        let range = if number / 16 % 2 == 1 {
            Range::Full
        } else {
            Range::Narrow
        };
        SampleFormat { depth, range }
    }

    // One number in narrow range, another in full range.
    fn by_range(self, narrow: u64, full: u64) -> u64
        ensures { result ≡ by_range self.range narrow full }
    {
        match self.range {
            Range::Narrow => narrow,
            Range::Full => full,
        }
    }
}

impl Depth {
    // Codes to each one of eight bits.
    fn fine(self) -> u64
        ensures value { result ≡ fine self }
        ensures bounds { (4 ≤ result) × (result ≤ 16) }
    {
        match self {
            Depth::Ten => 4,
            Depth::Twelve => 16,
        }
    }

    fn last_code(self) -> u64
        ensures { result ≡ last_code self }
    {
        match self {
            Depth::Ten => 1023,
            Depth::Twelve => 4095,
        }
    }
}
