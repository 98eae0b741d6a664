// `inspect CAPTURE PRK`: the reports of a capture, one line for each, judged under the keys that come of the PRK; then totals, and a
// last line that says how the inspection ended.
#![tactic(auto)]

mod capture;
mod ending;
mod files;
mod inspection;
mod judging;
mod meanings;
mod prk;
mod row;
mod tally;

use std::io;

// The arguments, the program's own name among them.
const ARGUMENTS: usize = 3;

fn main(rt: HostRuntime) -> io::Result<()> {
    if !files::has_argument(&rt, ARGUMENTS - 1) || files::has_argument(&rt, ARGUMENTS) {
        return println!(rt;
            "usage: inspect CAPTURE PRK, two files: reports end to end, and the raw bytes of a PRK"
        );
    }
    prk::inspect(&rt)
}
