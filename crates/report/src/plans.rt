// The plan of a report that is to be written: the checks of its hash and its sites, and how many bytes it will have.
ghost use Rattle.std.specs.Prelude.{◌≡◌};
ghost use Rattle.report.specs.Lent.{columns_in};
ghost use Rattle.report.specs.Writing.Inside.{plan_by, plan_of};

use crate::columns::{Columns, check_columns};
use crate::format::{BESIDE_LABEL, HEAD, hash_named, tag_size};
use algorithm::{Hash, Refusal};

// The hash, how many bytes stand before the tag, and how many the tag has.
#[derive(Clone, Copy)]
pub struct Plan {
    pub hash: Hash,
    pub body_size: usize,
    pub tag_size: usize,
}

// 2 where no report names the hash, then the numbers of the columns.
pub(crate) fn make_plan(hash_number: u32, columns: &Columns<'_>) -> Result<Plan, Refusal>
    ensures { plan_by result ≡ plan_of hash_number (columns_in columns.now) }
{
    let hash = hash_named(hash_number)?;
    check_columns(columns)?;
    Ok(Plan {
        hash,
        body_size: HEAD + columns.labels.len() + BESIDE_LABEL * columns.lengths.len(),
        tag_size: tag_size(hash),
    })
}
