// The hashes that we make, the refusals and their numbers, and the limits that several layers share.
#![tactic(auto)]

mod hashes;
mod limits;
mod refusals;

pub use hashes::{Hash, block_size, digest_size, shortest_tag};
pub use limits::{MOST_BYTES, MOST_DIGESTS, MOST_INFO};
pub use refusals::{Refusal, number};
