// SHA-256 and SHA-512 (FIPS 180-4), in one piece and in pieces.
#![tactic(auto)]

mod blocks;
mod ending;
mod narrow;
mod one_piece;
mod pieces;
mod place;
mod soundness;
mod starting;
mod state;
mod step;
mod table;
mod wide;
mod width;
mod words;

pub use ending::finish;
pub use one_piece::digest;
pub use pieces::update;
pub use soundness::sound;
pub use starting::{fresh, start};
pub use state::{LARGEST_BLOCK, State};
