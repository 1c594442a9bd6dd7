// The quantities that the engine counts in, each a type of its own so that none is taken for another, and what is declared of a source picture.
#![tactic(auto)]

pub mod kept;
pub mod sample_format;

ghost use Rattle.std.specs.Prelude.{◌≡◌, ◌-◌, ◌%◌, ◌^◌, min, get_or};
ghost use Rattle.quantity.specs.Component.{components, brightest, weighted};

use sample_format::SampleFormat;

// Light of the mastering or delivery display, in 1/16,777,216 cd/m2.
#[derive(Clone, Copy)]
pub struct DisplayLight(pub u64);

// Light of the scene before the HLG camera, in 1/2^40 of the nominal range.
#[derive(Clone, Copy)]
pub struct SceneLight(pub u64);

// A PQ signal, in 1/897,024: 256 positions to each entry of the light table.
#[derive(Clone, Copy)]
pub struct Position(pub u64);

// N, the units of display light in 1 cd/m2; A, those in 1,000; and those in 10,000.
pub const UNITS: u64 = 16777216;

pub const THOUSAND: u64 = 16777216000;

pub const TEN_THOUSAND: u64 = 167772160000;

// The position of 10,000 cd/m2, past which there is none.
pub const LAST_POSITION: u64 = 897024;

// What is declared of a source picture: the peak that it was graded at, in whole cd/m2, and how its samples are coded.
#[derive(Clone, Copy)]
pub struct Source {
    pub peak: u64,
    pub format: SampleFormat,
}

// What a pixel has of one kind: codes, lights, a component's shares of each primary.
#[derive(Clone, Copy, PartialEq, Eq)]
pub struct Rgb<T> {
    pub red: T,
    pub green: T,
    pub blue: T,
}

impl<T: Copy> Rgb<T> {
    // What a function makes of each component.
    pub fn map<U, F: Fn(T) -> U>(self, f: F) -> Rgb<U>
        requires { F.pre f self.red × F.pre f self.green × F.pre f self.blue }
        ensures red { F.post f self.red result.red }
        ensures green { F.post f self.green result.green }
        ensures blue { F.post f self.blue result.blue }
    {
        Rgb {
            red: f(self.red),
            green: f(self.green),
            blue: f(self.blue),
        }
    }
}

impl Rgb<u64> {
    // Y: BT.2100's weights are whole numbers in ten-thousandths of the components' unit. What passes 64 bits is dropped.
    pub fn weighted(self) -> u64
        ensures { result ≡ weighted (components self) % 2 ^ 64 }
    {
        let red = self.red.wrapping_mul(2627);
        let green = self.green.wrapping_mul(6780);
        let blue = self.blue.wrapping_mul(593);
        red.wrapping_add(green).wrapping_add(blue)
    }

    // maxRGB: the largest of three components.
    pub fn brightest(self) -> u64
        ensures { result ≡ brightest (components self) }
    {
        self.red.max(self.green).max(self.blue)
    }
}

// Entry i of a table; an index past its end reads the last. A table of no entry has 0.
pub fn nearest_entry<const N: usize>(table: &[u64; N], i: u64) -> u64
    ensures { result ≡ get_or table.now (min i (N - 1)) 0 }
{
    if N == 0 {
        return 0;
    }
    table[i.min(N as u64 - 1) as usize]
}
