// Bytes from a piece into the buffer of an open stream: up to the fourth, and from there up to the total.
ghost use Rattle.std.specs.Prelude.{◌≡◌, ◌+◌, ◌<◌, ◌≤◌};
ghost use Rattle.stream.specs.Calls.{fed_by, whole_fed};
ghost use Rattle.stream.specs.Inside.{Goal, CollectOutcome, Waiting, TakeOutcome, later_fed};

use crate::answers::{Answer, Fed, State, closing, more};
use crate::totals::{COUNT, in_range, total_of};
use std::num::NonZeroUsize;

// Writes bytes of the piece after the collected ones, until `goal` are collected or the piece ends.
fn collect(collected: usize, goal: usize, buffer: &mut [u8], piece: &[u8])
    requires { Goal collected goal buffer.old }
    ensures { CollectOutcome collected goal buffer.old piece.now buffer.new }
{
    octets::copy_prefix(piece, &mut buffer[collected..goal]);
}

// The answer to a whole report: the plain reader's.
fn whole(report: &[u8], used: usize) -> Fed
    ensures { fed_by result ≡ whole_fed report.now used }
{
    Fed {
        answer: report::read(report).map(|_| Answer::Whole),
        used,
        length: NonZeroUsize::new(report.len()),
        state: State {
            collected: 0,
            closed: 0,
        },
    }
}

// The same answer with more bytes used before it.
fn later(fed: Fed, before: usize) -> Fed
    requires { before + fed.used < 18446744073709551616 }
    ensures { fed_by result ≡ later_fed (fed_by fed) before }
{
    Fed {
        used: before + fed.used,
        ..fed
    }
}

// Four bytes at least are collected: up to their total.
fn take_body(collected: usize, buffer: &mut [u8], piece: &[u8]) -> Fed
    requires waiting { Waiting collected buffer.old }
    requires head_collected { 4 ≤ collected }
    ensures { TakeOutcome collected buffer.old piece.now (fed_by result) buffer.new }
{
    let total = total_of(&buffer[..collected]);
    let to_end = total - collected;
    collect(collected, total, buffer, piece);
    if piece.len() < to_end {
        return more(piece.len(), collected + piece.len());
    }
    whole(&buffer[..total], to_end)
}

// Fewer than four bytes are collected: up to the fourth, and on with the rest of the piece where their total is in range.
fn take_head(collected: usize, buffer: &mut [u8], piece: &[u8]) -> Fed
    requires waiting { Waiting collected buffer.old }
    requires head_waits { collected < 4 }
    ensures { TakeOutcome collected buffer.old piece.now (fed_by result) buffer.new }
{
    let to_fourth = COUNT - collected;
    collect(collected, COUNT, buffer, piece);
    if piece.len() < to_fourth {
        return more(piece.len(), collected + piece.len());
    }
    let total = total_of(&buffer[..COUNT]);
    if !in_range(total) {
        return closing(to_fourth);
    }
    let fed = take_body(COUNT, buffer, &piece[to_fourth..]);
    later(fed, to_fourth)
}

// Bytes from the piece into the buffer, up to the end of the report on its way.
pub(crate) fn take_in(collected: usize, buffer: &mut [u8], piece: &[u8]) -> Fed
    requires { Waiting collected buffer.old }
    ensures { TakeOutcome collected buffer.old piece.now (fed_by result) buffer.new }
{
    if collected < COUNT {
        return take_head(collected, buffer, piece);
    }
    take_body(collected, buffer, piece)
}
