// The bytes of a report, part by part: the head, the sites, the tag.
ghost use Rattle.std.specs.Prelude.{◌≡◌, ◌+◌, ◌≤◌, length};
ghost use Rattle.std.proofs.Math.Seq.{paste};
ghost use Rattle.octets.specs.Copy.{over};
ghost use Rattle.octets.specs.Number.{bytes};
ghost use Rattle.report.specs.Layout.{site_bytes, sites_bytes};
ghost use Rattle.report.specs.Writing.{site_from, sites_of, fields_from, report_of};
ghost use Rattle.report.specs.Lent.{columns_in};
ghost use Rattle.report.specs.Writing.Inside.{head_bytes, Next, NextPut, Room, tagged, Taggable, Filling};

use crate::columns::Columns;
use crate::format::{BESIDE_LABEL, COUNT_END, HEAD, TAGGED_FROM};
use crate::plans::Plan;
use crate::writing::Heading;

// The lowest bytes of a number, from a place on.
fn put_number(number: u64, size: usize, at: usize, out: &mut [u8])
    requires short { size ≤ 8 }
    requires room { at + size ≤ length out.old }
    ensures { out.new ≡ paste out.old at (bytes size number) size }
{
    let all = octets::eight_bytes(number);
    octets::copy_prefix(&all[8 - size..], &mut out[at..]);
}

// The bytes before the first site.
fn put_head(heading: Heading, count: u64, sites: u64, out: &mut [u8])
    requires { 45 ≤ length out.old }
    ensures { out.new ≡ over (head_bytes heading count sites) out.old }
{
    put_number(count, 4, 0, out);
    put_number(1, 1, 4, out);
    put_number(heading.hash as u64, 1, 5, out);
    put_number(heading.tenant as u64, 4, 6, out);
    put_number(heading.machine, 8, 10, out);
    put_number(heading.report, 8, 18, out);
    put_number(heading.sent, 8, 26, out);
    put_number(heading.attempt as u64, 1, 34, out);
    put_number(heading.memory, 8, 35, out);
    put_number(sites, 2, 43, out);
}

// A site: the length of its label, the label, live bytes and live blocks.
#[inline(never)]
fn put_site(label: &[u8], live: u64, blocks: u32, out: &mut [u8])
    requires { length label.now + 13 ≤ length out.old }
    ensures { out.new ≡ over (site_bytes (site_from label.now live blocks)) out.old }
{
    let after_label = 1 + label.len();
    put_number(label.len() as u64, 1, 0, out);
    octets::copy_prefix(label, &mut out[1..]);
    put_number(live, 8, after_label, out);
    put_number(blocks as u64, 4, after_label + 8, out);
}

// The site at a place, whose label is the next of the labels, after the sites before it; answers where the label after it starts.
fn put_next(columns: &Columns<'_>, place: usize, from: usize, out: &mut [u8]) -> usize
    requires { Next (columns_in columns.now) place from out.old }
    ensures { NextPut (columns_in columns.now) place from out.old result out.new }
{
    let end = from + columns.lengths[place] as usize;
    let at = from + BESIDE_LABEL * place;
    put_site(
        &columns.labels[from..end],
        columns.live[place],
        columns.blocks[place],
        &mut out[at..],
    );
    end
}

// All sites, one after the other.
fn put_sites(columns: &Columns<'_>, out: &mut [u8])
    requires { Room (columns_in columns.now) out.old }
    ensures { out.new ≡ over (sites_bytes (sites_of (columns_in columns.now))) out.old }
{
    let mut from = 0;
    for place in 0..columns.lengths.len() {
        from = put_next(columns, place, from, out);
    }
}

// The tag of all bytes before it, after them.
fn put_tag(key: &[u8], plan: Plan, out: &mut [u8])
    requires { Taggable key.now plan out.old }
    ensures { out.new ≡ tagged key.now plan out.old }
{
    let mut tag = [0u8; 32];
    let at = plan.body_size;
    let size = plan.tag_size;
    hmac::tag_message(
        plan.hash.into(),
        key,
        &out[TAGGED_FROM..at],
        size,
        &mut tag[..size],
    )
    .unwrap();
    // What stands after the tag is the caller's, and is left alone.
    octets::copy_prefix(&tag[..size], &mut out[at..]);
}

// The whole report: its body, which is all before the tag, and the tag, as the plan says.
pub(crate) fn fill(
    heading: Heading,
    columns: &Columns<'_>,
    tag_key: &[u8],
    plan: Plan,
    out: &mut [u8],
)
    requires { Filling heading (columns_in columns.now) tag_key.now plan out.old }
    ensures { out.new ≡ over (report_of (fields_from heading (sites_of (columns_in columns.now))) tag_key.now) out.old }
{
    put_head(
        heading,
        (plan.body_size + plan.tag_size - COUNT_END) as u64,
        columns.lengths.len() as u64,
        out,
    );
    put_sites(columns, &mut out[HEAD..]);
    put_tag(tag_key, plan, out);
}
