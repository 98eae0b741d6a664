// The layers on the published vectors and at the edges that docs/PROTOCOL.md draws, one line a case. What it must write is the file
// `stdout` beside, made by tests/vectors.py.
#![tactic(auto)]

mod derivation;
mod hashing;
mod made;
mod say;
mod tagging;
mod work;

use std::io;

fn main(rt: HostRuntime) -> io::Result<()> {
    hashing::run(&rt)?;
    tagging::run(&rt)?;
    derivation::run(&rt)
}
