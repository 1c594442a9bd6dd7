// Whole numbers of any size in 64-bit words, the lowest word first.
#![tactic(auto)]

pub mod leading;
pub mod multiple;
pub mod order;
pub mod product;
pub mod quotient;

pub use leading::leading_zeros;
pub use multiple::{multiply, multiply_by_pair, multiply_by_power};
pub use order::at_most;
pub use product::{lower, multiply_add, upper, upper_word};
pub use quotient::is_quotient;
