// What C calls: each export is one call of a layer and carries that call's promise. include/tirmuzzle.h declares them.
#![tactic(auto)]

ghost use Rattle.std.specs.Prelude.{◌≡◌};
ghost use Rattle.hash.specs.Calls.{DigestOutcome};
ghost use Rattle.hmac.specs.Calls.{TagMessageOutcome, VerifyMessageOutcome};
ghost use Rattle.hkdf.specs.Calls.{ExtractOutcome, ExpandOutcome};
ghost use Rattle.report.specs.Calls.{ReadIntoOutcome, SiteIntoOutcome, CheckOutcome, FingerprintOutcome, KeysOutcome, WriteOutcome};
ghost use Rattle.report.specs.Writing.{columns};
ghost use Rattle.ledger.specs.Calls.{SubmitShownOutcome, TotalOutcome};
ghost use Rattle.stream.specs.Calls.{length_by, FeedShownOutcome};

use algorithm::number;
use ledger::{Record, Submission};
use report::{Columns, Heading};
use std::num::NonZeroUsize;
use stream::State;

#[unsafe(no_mangle)]
pub extern "C" fn tirmuzzle_tag(
    hash: u32,
    key: &[u8],
    message: &[u8],
    tag_length: usize,
    out: &mut [u8],
) -> u32
    ensures { TagMessageOutcome hash key.now message.now tag_length out.old result out.new }
{
    number(hmac::tag_message(hash, key, message, tag_length, out))
}

#[unsafe(no_mangle)]
pub extern "C" fn tirmuzzle_verify(
    hash: u32,
    key: &[u8],
    message: &[u8],
    tag_length: usize,
    tag: &[u8],
) -> u32
    ensures { VerifyMessageOutcome hash key.now message.now tag_length tag.now result }
{
    number(hmac::verify_message(hash, key, message, tag_length, tag))
}

#[unsafe(no_mangle)]
pub extern "C" fn tirmuzzle_extract(hash: u32, salt: &[u8], ikm: &[u8], out: &mut [u8]) -> u32
    ensures { ExtractOutcome hash salt.now ikm.now out.old result out.new }
{
    number(hkdf::extract(hash, salt, ikm, out))
}

#[unsafe(no_mangle)]
pub extern "C" fn tirmuzzle_expand(hash: u32, prk: &[u8], info: &[u8], out: &mut [u8]) -> u32
    ensures { ExpandOutcome hash prk.now info.now out.old result out.new }
{
    number(hkdf::expand(hash, prk, info, out))
}

#[unsafe(no_mangle)]
pub extern "C" fn tirmuzzle_report_fingerprint(
    report: &[u8],
    fingerprint_key: &[u8],
    out: &mut [u8],
) -> u32
    ensures { FingerprintOutcome report.now fingerprint_key.now out.old result out.new }
{
    number(report::fingerprint(report, fingerprint_key, out))
}

#[unsafe(no_mangle)]
pub extern "C" fn tirmuzzle_report_write(
    hash: u32,
    tenant: u32,
    machine: u64,
    report_number: u64,
    send_time: u64,
    attempt: u8,
    memory: u64,
    labels: &[u8],
    label_lengths: &[u32],
    live_bytes: &[u64],
    live_blocks: &[u32],
    tag_key: &[u8],
    out: &mut [u8],
    length: &mut u64,
) -> u32
    ensures { WriteOutcome (record { hash = hash; tenant = tenant; machine = machine; report = report_number; sent = send_time; attempt = attempt; memory = memory }) (columns labels.now label_lengths.now live_bytes.now live_blocks.now) tag_key.now out.old (record { number = result; length = length.new }) out.new }
{
    let heading = Heading {
        hash,
        tenant,
        machine,
        report: report_number,
        sent: send_time,
        attempt,
        memory,
    };
    let columns = Columns {
        labels,
        lengths: label_lengths,
        live: live_bytes,
        blocks: live_blocks,
    };
    let written = report::write(heading, &columns, tag_key, out);
    *length = written.unwrap_or(0) as u64;
    number(written)
}

#[unsafe(no_mangle)]
pub extern "C" fn tirmuzzle_digest(hash: u32, message: &[u8], out: &mut [u8]) -> u32
    ensures { DigestOutcome hash message.now out.old result out.new }
{
    number(hash::digest(hash, message, out))
}

#[unsafe(no_mangle)]
pub extern "C" fn tirmuzzle_report_keys(
    hash: u32,
    prk: &[u8],
    tenant: u32,
    machine: u64,
    out: &mut [u8],
) -> u32
    ensures { KeysOutcome hash prk.now tenant machine out.old result out.new }
{
    number(report::keys(hash, prk, tenant, machine, out))
}

#[unsafe(no_mangle)]
pub extern "C" fn tirmuzzle_report_check(report: &[u8], tag_key: &[u8]) -> u32
    ensures { CheckOutcome report.now tag_key.now result }
{
    number(report::check(report, tag_key))
}

#[unsafe(no_mangle)]
pub extern "C" fn tirmuzzle_report_read(report: &[u8], fields: &mut [u64]) -> u32
    ensures { ReadIntoOutcome report.now fields.old result fields.new }
{
    number(report::read_into(report, fields))
}

#[unsafe(no_mangle)]
pub extern "C" fn tirmuzzle_report_site(report: &[u8], place: u64, site: &mut [u64]) -> u32
    ensures { SiteIntoOutcome report.now place site.old result site.new }
{
    number(report::site_into(report, place, site))
}

#[unsafe(no_mangle)]
pub extern "C" fn tirmuzzle_ledger_submit(
    records: &mut [Record],
    report: &[u8],
    tag_key: &[u8],
    fingerprint_key: &[u8],
    seen: &mut u32,
) -> u32
    ensures { SubmitShownOutcome records.old report.now tag_key.now fingerprint_key.now result seen.new records.new }
{
    let submission = Submission {
        report,
        tag_key,
        fingerprint_key,
    };
    let answer = ledger::submit(records, &submission);
    *seen = ledger::answer_seen(answer);
    ledger::answer_number(answer)
}

#[unsafe(no_mangle)]
pub extern "C" fn tirmuzzle_ledger_total(records: &[Record], total: &mut u64) -> u32
    ensures { TotalOutcome records.now (record { number = result; total = total.new }) }
{
    let summed = ledger::total(records);
    *total = summed.unwrap_or(0);
    number(summed)
}

// A report's length as C sees it: 0 where there is none.
fn length_number(length: Option<NonZeroUsize>) -> u64
    ensures { result ≡ length_by length }
{
    match length {
        Some(length) => length.get() as u64,
        None => 0,
    }
}

#[unsafe(no_mangle)]
pub extern "C" fn tirmuzzle_stream_feed(
    collected: &mut u64,
    closed: &mut u32,
    buffer: &mut [u8],
    piece: &[u8],
    used: &mut u64,
    length: &mut u64,
) -> u32
    ensures { FeedShownOutcome (record { collected = collected.old; closed = closed.old }) buffer.old piece.now result used.new length.new (record { collected = collected.new; closed = closed.new }) buffer.new }
{
    let state = State {
        collected: *collected as usize,
        closed: *closed,
    };
    let fed = stream::feed(state, buffer, piece);
    *collected = fed.state.collected as u64;
    *closed = fed.state.closed;
    *used = fed.used as u64;
    *length = length_number(fed.length);
    stream::answer_number(fed.answer)
}
