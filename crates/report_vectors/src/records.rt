// The records of the input, each read and run.
ghost use Rattle.std.specs.Prelude.{◌≤◌, IfOk};

use crate::{again, calls, ledgers};
use cases::{Number, Stop};
use ledger::Submission;
use report::{Columns, Heading};
use std::io::Read;

// The most bytes of a report or of labels, of a key and of an output.
const REPORT: usize = 4096;

const KEY: usize = 512;

const OUTPUT: usize = 256;

// The most numbers of a list: some more than a report may have sites.
const NUMBERS: usize = 80;

// The report, and its sites at the places that follow it.
fn read(rt: &impl Print, from: &mut impl Read) -> Result<(), Stop> {
    let mut space = [0u8; REPORT];
    let report = cases::string(from, &mut space)?;
    calls::read(rt, report)?;
    for _ in 0..u8::read_from(from)? {
        let place = u64::read_from(from)?;
        calls::site(rt, report, place)?;
    }
    Ok(())
}

fn check(rt: &impl Print, from: &mut impl Read) -> Result<(), Stop> {
    let mut space = [0u8; REPORT];
    let mut key_space = [0u8; KEY];
    let report = cases::string(from, &mut space)?;
    let key = cases::string(from, &mut key_space)?;
    calls::check(rt, report, key)?;
    Ok(())
}

fn fingerprint(rt: &impl Print, from: &mut impl Read) -> Result<(), Stop> {
    let mut space = [0u8; REPORT];
    let mut key_space = [0u8; KEY];
    let mut out = [0xa5u8; OUTPUT];
    let report = cases::string(from, &mut space)?;
    let key = cases::string(from, &mut key_space)?;
    let size = cases::size(from, OUTPUT)?;
    calls::fingerprint(rt, report, key, &mut out[..size])?;
    Ok(())
}

fn keys(rt: &impl Print, from: &mut impl Read) -> Result<(), Stop> {
    let mut key_space = [0u8; KEY];
    let mut out = [0xa5u8; OUTPUT];
    let hash_number = u32::read_from(from)?;
    let prk = cases::string(from, &mut key_space)?;
    let tenant = u32::read_from(from)?;
    let machine = u64::read_from(from)?;
    let size = cases::size(from, OUTPUT)?;
    calls::keys(rt, hash_number, prk, tenant, machine, &mut out[..size])?;
    Ok(())
}

// The heading of a report that is to be written.
fn heading(from: &mut impl Read) -> Result<Heading, Stop> {
    Ok(Heading {
        hash: u32::read_from(from)?,
        tenant: u32::read_from(from)?,
        machine: u64::read_from(from)?,
        report: u64::read_from(from)?,
        sent: u64::read_from(from)?,
        attempt: u8::read_from(from)?,
        memory: u64::read_from(from)?,
    })
}

// Writes a report from its heading and its sites, under the tag key that follows them and over an output of the size that comes last;
// answers the key, the size and the report, none where it is refused. The hint keeps the spaces for the sites out of the frame in which
// it is written again.
#[inline(never)]
fn write_first<'a>(
    rt: &impl Print,
    from: &mut impl Read,
    key_space: &'a mut [u8],
    out: &'a mut [u8; REPORT],
) -> Result<(&'a [u8], usize, Option<&'a [u8]>), Stop>
    ensures { IfOk result (λ first. first.1 ≤ 4096) }
{
    let mut labels = [0u8; REPORT];
    let mut lengths = [0u32; NUMBERS];
    let mut live = [0u64; NUMBERS];
    let mut blocks = [0u32; NUMBERS];
    let heading = heading(from)?;
    let columns = Columns {
        labels: cases::string(from, &mut labels)?,
        lengths: cases::list(from, &mut lengths)?,
        live: cases::list(from, &mut live)?,
        blocks: cases::list(from, &mut blocks)?,
    };
    let key = cases::string(from, key_space)?;
    let size = cases::size(from, REPORT)?;
    let report = calls::write(rt, heading, &columns, key, &mut out[..size])?;
    Ok((key, size, report))
}

// The report that a record writes, and the same written again from what is read of it.
fn write(rt: &impl Print, from: &mut impl Read) -> Result<(), Stop> {
    let mut key_space = [0u8; KEY];
    let mut out = [0xa5u8; REPORT];
    let mut second = [0xa5u8; REPORT];
    let (key, size, report) = write_first(rt, from, &mut key_space, &mut out)?;
    if let Some(report) = report {
        again::read_and_write(rt, report, key, &mut second[..size])?;
    }
    Ok(())
}

fn submit(rt: &impl Print, from: &mut impl Read) -> Result<(), Stop> {
    let mut space = [0u8; REPORT];
    let mut tag_space = [0u8; KEY];
    let mut fingerprint_space = [0u8; KEY];
    let submission = Submission {
        report: cases::string(from, &mut space)?,
        tag_key: cases::string(from, &mut tag_space)?,
        fingerprint_key: cases::string(from, &mut fingerprint_space)?,
    };
    ledgers::submit_twice(rt, &submission)?;
    Ok(())
}

// A record of a kind.
pub(crate) fn run(rt: &impl Print, from: &mut impl Read, kind: u8) -> Result<(), Stop> {
    match kind {
        1 => read(rt, from),
        2 => check(rt, from),
        3 => fingerprint(rt, from),
        4 => keys(rt, from),
        5 => write(rt, from),
        6 => submit(rt, from),
        _ => Err(Stop::NoRecord),
    }
}
