// The calls on a report, each with a line on what it answers.
ghost use Rattle.std.specs.Prelude.{◌≤◌, length, IfOk, IfSome};

use crate::say;
use algorithm::number;
use cases::Bytes;
use report::{Columns, Heading};
use std::io;

pub(crate) fn read(rt: &impl Print, report: &[u8]) -> io::Result<()> {
    print!(rt; "read: ")?;
    say::reading(rt, report::read(report))
}

// The site and the label at a place.
pub(crate) fn site(rt: &impl Print, report: &[u8], place: u64) -> io::Result<()> {
    print!(rt; "site {place}: ")?;
    say::site(rt, report::site(report, place))?;
    let label = report::label(report, place);
    println!(rt; ", label {} {}", number(label), Bytes(label.unwrap_or(b"")))
}

pub(crate) fn check(rt: &impl Print, report: &[u8], key: &[u8]) -> io::Result<()> {
    println!(rt; "check: {}", number(report::check(report, key)))
}

pub(crate) fn fingerprint(
    rt: &impl Print,
    report: &[u8],
    key: &[u8],
    out: &mut [u8],
) -> io::Result<()> {
    let answered = report::fingerprint(report, key, out);
    print!(rt; "fingerprint: ")?;
    say::answer(rt, answered, out)
}

pub(crate) fn keys(
    rt: &impl Print,
    hash_number: u32,
    prk: &[u8],
    tenant: u32,
    machine: u64,
    out: &mut [u8],
) -> io::Result<()> {
    let answered = report::keys(hash_number, prk, tenant, machine, out);
    print!(rt; "keys: ")?;
    say::answer(rt, answered, out)
}

// Writing, and the report that was written: none where it is refused. A length that the output does not have would show in the line,
// and counts as none too.
pub(crate) fn write<'a>(
    rt: &impl Print,
    heading: Heading,
    columns: &Columns<'_>,
    key: &[u8],
    out: &'a mut [u8],
) -> io::Result<Option<&'a [u8]>>
    ensures { IfOk result (λ written. IfSome written (λ report. length report.now ≤ length out.old)) }
{
    let written = report::write(heading, columns, key, out);
    say::written(rt, written, out)?;
    match written {
        Ok(length) if length <= out.len() => Ok(Some(&out[..length])),
        _ => Ok(None),
    }
}
