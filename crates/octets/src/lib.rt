// Copying; comparing bytes, the test for zeros, and bytes in hexadecimal; the bytes of a number, and the sum of numbers. Every function
// is total.
#![tactic(auto)]

mod compare;
mod copy;
mod hex;
mod numbers;
mod sums;
mod zero;

pub use compare::same;
pub use copy::copy_prefix;
pub use hex::Hex;
pub use numbers::eight_bytes;
pub use sums::plus;
pub use zero::all_zero;
