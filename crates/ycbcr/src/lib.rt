// Luma and chroma of RGB codes as defined, which the contracts of a delivery cite, and the laws about them. A delivery has one of two signal formats, which
// come from the same codes.
#![tactic(auto)]

// What a row's three samples are: red, green and blue, or luma, Cb and Cr.
#[derive(Clone, Copy)]
pub enum SignalFormat {
    Rgb,
    YCbCr,
}
