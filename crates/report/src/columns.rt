// Sites as they are handed over to be written, in columns.
ghost use Rattle.std.specs.Prelude.{◌≡◌, true, ◌≤◌, length};
ghost use Rattle.octets.specs.Every.{every};
ghost use Rattle.octets.specs.Sums.{sum_of, SumIs};
ghost use Rattle.algorithm.specs.Answers.{number};
ghost use Rattle.algorithm.specs.Checks.{first_failing};
ghost use Rattle.report.specs.Writing.{label_fits};
ghost use Rattle.report.specs.Calls.{column_checks};
ghost use Rattle.report.specs.Lent.{columns_in};

use crate::format::{LONGEST_LABEL, MOST_SITES};
use algorithm::Refusal;

// The labels end to end, and a slice each of label lengths, live bytes and live blocks.
#[derive(Clone, Copy)]
pub struct Columns<'a> {
    pub labels: &'a [u8],
    pub lengths: &'a [u32],
    pub live: &'a [u64],
    pub blocks: &'a [u32],
}

// Whether a label may be so long.
fn label_fits(length: u32) -> bool
    ensures { result ≡ label_fits length }
{
    (1..=LONGEST_LABEL).contains(&(length as usize))
}

// Whether every label may be as long as it is.
fn labels_fit(lengths: &[u32]) -> bool
    ensures { result ≡ every label_fits lengths.now }
{
    lengths.iter().all(|length| label_fits(*length))
}

// The sum of the lengths. So few of them cannot pass 2^64 - 1.
fn sum_lengths(lengths: &[u32]) -> u64
    requires { length lengths.now ≤ 64 }
    ensures { result ≡ sum_of lengths.now }
{
    lengths.iter().map(|length| u64::from(*length)).sum()
}

// The sum of the live bytes; none where it passed 2^64 - 1.
fn sum_live(live: &[u64]) -> Option<u64>
    ensures { SumIs result (sum_of live.now) }
{
    live.iter()
        .fold(Some(0), |sum, bytes| octets::plus(sum, *bytes))
}

// 6 where the slices are of unequal length, 13 where there are too many sites, 14 where a label's length is out of range, 15 where the
// labels do not have as many bytes as the lengths add up to, 16 where the live bytes add up to too much.
pub(crate) fn check_columns(columns: &Columns<'_>) -> Result<(), Refusal>
    ensures { number result ≡ first_failing (column_checks (columns_in columns.now)) }
{
    let sites = columns.lengths.len();
    if columns.live.len() != sites || columns.blocks.len() != sites {
        return Err(Refusal::WrongSize);
    }
    if MOST_SITES < sites as u64 {
        return Err(Refusal::TooManySites);
    }
    if !labels_fit(columns.lengths) {
        return Err(Refusal::LabelLengthOutOfRange);
    }
    if columns.labels.len() as u64 != sum_lengths(columns.lengths) {
        return Err(Refusal::SitesMisplaced);
    }
    if sum_live(columns.live).is_none() {
        return Err(Refusal::SumTooLarge);
    }
    Ok(())
}
