// Reports that arrive in pieces of any size: collected in a lent buffer, and read as soon as one is whole.
#![tactic(auto)]

mod answers;
mod feeding;
mod taking;
mod totals;

pub use answers::{Answer, Fed, State, answer_number};
pub use feeding::feed;
