// HKDF (RFC 5869) over the tags of the HMAC layer: extract and expand.
#![tactic(auto)]

mod expanding;
mod extracting;

pub use expanding::expand;
pub use extracting::extract;
