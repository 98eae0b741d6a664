// A ledger: records lent by the host, in which each report is counted once, however often it is submitted.
#![tactic(auto)]

mod answers;
mod entering;
mod judging;
mod records;
mod searching;
mod submission;
mod submitting;
mod surveying;
mod totals;

pub use answers::{Answer, answer_number, answer_seen};
pub use records::Record;
pub use submission::Submission;
pub use submitting::submit;
pub use totals::total;
