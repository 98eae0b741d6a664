// The calls on reports, on the cases in the file `stdin` beside, one line a call. What it must write is the file `stdout`. Both are
// made by tests/reports.py, which says in its first lines how a case is written.
#![tactic(auto)]

mod again;
mod calls;
mod ledgers;
mod records;
mod say;

use cases::Number;
use std::io;

// A run ends after so many records.
const MOST_RECORDS: usize = 65536;

// The hint keeps what printing takes of the stack out of the frame below all records.
#[inline(never)]
fn say_too_many(rt: &impl Print) -> io::Result<()> {
    println!(rt; "too many records")
}

fn main(rt: HostRuntime) -> io::Result<()> {
    let mut input = rt.stdin();
    for _ in 0..MOST_RECORDS {
        let Ok(kind) = u8::read_from(&mut input) else {
            return Ok(());
        };
        if !cases::goes_on(&rt, records::run(&rt, &mut input, kind))? {
            return Ok(());
        }
    }
    say_too_many(&rt)
}
