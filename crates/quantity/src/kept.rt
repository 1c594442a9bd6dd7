// What was found of the last pixel, kept for the next: a pixel that equals it takes that over. Flat areas are mostly such pixels.
ghost use Rattle.std.specs.Prelude.{◌≡◌, ◌⊎◌};

use crate::Rgb;

#[derive(Clone, Copy)]
pub struct Kept<V> {
    pub pixel: Rgb<u64>,
    pub found: V,
}

impl<V: Copy> Kept<V> {
    // The next pixel with what is found of it, or with what was kept where it equals the last.
    pub fn next<F: FnOnce(Rgb<u64>) -> V>(self, pixel: Rgb<u64>, find: F) -> Kept<V>
        requires { F.pre find pixel }
        ensures pixel { result.pixel ≡ pixel }
        ensures found { (result.found ≡ self.found) × (self.pixel ≡ pixel) ⊎ F.post find pixel result.found }
    {
        if pixel == self.pixel {
            return self;
        }
        Kept {
            pixel,
            found: find(pixel),
        }
    }
}
