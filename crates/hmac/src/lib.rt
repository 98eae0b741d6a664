// HMAC (FIPS 198-1) over the hashes that we make: tags in one piece and in pieces, and their comparison.
#![tactic(auto)]

mod ending;
mod form;
mod keyed;
mod lengths;
mod one_piece;
mod pieces;
mod soundness;
mod starting;
mod tags;

pub use keyed::Keyed;
pub use one_piece::{tag_message, verify_message};
pub use pieces::update;
pub use soundness::sound;
pub use starting::start;
pub use tags::{tag, verify};
