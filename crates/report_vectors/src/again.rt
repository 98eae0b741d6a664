// Writing a report again, from what the other calls answer of one that was written.
ghost use Rattle.std.specs.Prelude.{◌≤◌, length};

use crate::calls;
use report::{Columns, Heading, Reading};
use std::io;

// The most sites of a report, and the most bytes of all its labels.
const SITES: usize = 64;

const LABELS: usize = 3072;

// The numbers of every site, and how many sites there are.
fn gather_numbers(
    report: &[u8],
    lengths: &mut [u32; SITES],
    live: &mut [u64; SITES],
    blocks: &mut [u32; SITES],
) -> usize
    ensures { result ≤ 64 }
{
    for place in 0..SITES {
        let Ok(site) = report::site(report, place as u64) else {
            return place;
        };
        lengths[place] = u32::try_from(site.length).unwrap_or(0);
        live[place] = site.live;
        blocks[place] = site.blocks;
    }
    SITES
}

// Puts the label at a place after the first `size` bytes of a space, where it has room for it, and answers how many bytes there are
// then. Where there is no site the label is empty.
fn gather_label(report: &[u8], place: u64, space: &mut [u8], size: usize) -> usize
    requires { size ≤ length space.old }
    ensures { result ≤ length space.new }
{
    let label = report::label(report, place).unwrap_or(b"");
    let more = label.len();
    if space.len() - size < more {
        return size;
    }
    octets::copy_prefix(label, &mut space[size..]);
    size + more
}

// All labels end to end, and how many bytes they have.
fn gather_labels(report: &[u8], space: &mut [u8]) -> usize
    ensures { result ≤ length space.new }
{
    let mut size = 0;
    for place in 0..SITES {
        size = gather_label(report, place as u64, space, size);
    }
    size
}

// What a caller says to write again what was read.
fn heading(read: Reading) -> Heading {
    Heading {
        hash: u32::from(read.hash),
        tenant: read.tenant,
        machine: read.machine,
        report: read.report,
        sent: read.sent,
        attempt: read.attempt,
        memory: read.memory,
    }
}

// Writes a report again from its fields and sites.
fn write_again(
    rt: &impl Print,
    read: Reading,
    report: &[u8],
    key: &[u8],
    out: &mut [u8],
) -> io::Result<()> {
    let mut labels = [0u8; LABELS];
    let mut lengths = [0u32; SITES];
    let mut live = [0u64; SITES];
    let mut blocks = [0u32; SITES];
    let size = gather_labels(report, &mut labels);
    let n = gather_numbers(report, &mut lengths, &mut live, &mut blocks);
    let columns = Columns {
        labels: &labels[..size],
        lengths: &lengths[..n],
        live: &live[..n],
        blocks: &blocks[..n],
    };
    calls::write(rt, heading(read), &columns, key, out)?;
    Ok(())
}

// Checks the tag of a report that was written, reads it, and writes it again over `second`.
pub(crate) fn read_and_write(
    rt: &impl Print,
    report: &[u8],
    key: &[u8],
    second: &mut [u8],
) -> io::Result<()> {
    calls::check(rt, report, key)?;
    calls::read(rt, report)?;
    if let Ok(read) = report::read(report) {
        write_again(rt, read, report, key, second)?;
    }
    Ok(())
}
