// Reading a report: the number and every field.
ghost use Rattle.std.specs.Prelude.{◌≡◌, ◌≤◌, length, Ok};
ghost use Rattle.report.specs.Calls.{reading_by, ReadOutcome};
ghost use Rattle.report.specs.Inside.{head_reading};

use crate::checks::check_report;
use crate::numbers::{u8_at, u16_at, u32_at, u64_at};
use algorithm::Refusal;

// The fields of a report, with the sum of live bytes.
#[derive(Clone, Copy, Default)]
pub struct Reading {
    pub count: u32,
    pub version: u8,
    pub hash: u8,
    pub tenant: u32,
    pub machine: u64,
    pub report: u64,
    pub sent: u64,
    pub attempt: u8,
    pub memory: u64,
    pub sites: u16,
    pub live: u64,
}

// The fields of a report whose live bytes are known.
fn fields(report: &[u8], live: u64) -> Reading
    requires { 45 ≤ length report.now }
    ensures { reading_by (Ok result) ≡ head_reading report.now live }
{
    Reading {
        count: u32_at(report, 0),
        version: u8_at(report, 4),
        hash: u8_at(report, 5),
        tenant: u32_at(report, 6),
        machine: u64_at(report, 10),
        report: u64_at(report, 18),
        sent: u64_at(report, 26),
        attempt: u8_at(report, 34),
        memory: u64_at(report, 35),
        sites: u16_at(report, 43),
        live,
    }
}

// Every field; the number of the check that refuses the report.
pub fn read(report: &[u8]) -> Result<Reading, Refusal>
    ensures { ReadOutcome report.now (reading_by result) }
{
    let checked = check_report(report)?;
    Ok(fields(report, checked.live))
}
