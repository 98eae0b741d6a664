// What programs share that run records: the parts of a record, as they come of a reader, and bytes for print.
#![tactic(auto)]

mod parts;
mod print;
mod records;
mod stops;

pub use parts::{Number, list, size, string};
pub use print::Bytes;
pub use records::goes_on;
pub use stops::Stop;
