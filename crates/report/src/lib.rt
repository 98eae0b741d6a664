// Leak reports: reading and writing them, their sites, their tag and fingerprint, and the two keys of a machine.
#![tactic(auto)]

mod checks;
mod columns;
mod derivation;
mod filling;
mod fingerprints;
mod format;
mod lists;
mod numbers;
mod plans;
mod reading;
mod sites;
mod tags;
mod walk;
mod writing;

pub use columns::Columns;
pub use derivation::keys;
pub use fingerprints::fingerprint;
pub use format::{LARGEST_REPORT, SMALLEST_REPORT};
pub use lists::{read_into, site_into};
pub use reading::{Reading, read};
pub use sites::{SiteAt, label, site};
pub use tags::check;
pub use writing::{Heading, write};
