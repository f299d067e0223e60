// Captures mended, run: a line for each says how many bytes it has and what the mender answers, and whether all that was lent beyond what is written
// is as it was before. Below the line of a mended one stand its changes, the places whose bytes changed, and its packets, each with what the check answers.
#![tactic(auto)]

mod bounds;
mod options;
mod places;
mod shown;
mod traps;
mod words;

use ezpkt::part::front;
use shown::{show, show_into};
use std::io;
use std::io::Read;

// The capture on standard input, and what it is mended to once more. A read that fails is the input's end; all that
// is read has room from the start.
fn stored(rt: &(impl Print + Input + AllocGlobal)) -> io::Result<()> {
    let mut input = Vec::with_capacity(rt.alloc(), 1024)?;
    let _ = rt.reader().take(1024).read_to_end(&mut input);
    let n = input.len();
    let mut out = [shown::BYTE; 1024];
    let mut rows = [[shown::NUMBER; 4]; 16];
    show(rt, "the stored capture", &input, &mut out, &mut rows)?;
    show_into(rt, "the same once more", front(&out, n), n, 0)
}

// All of them.
fn each(rt: &(impl Print + Input + AllocGlobal)) -> io::Result<()> {
    stored(rt)?;
    bounds::each(rt)?;
    traps::each(rt)?;
    options::each(rt)
}

fn main(rt: HostRuntime) {
    let _ = each(&rt); // what cannot be written is not shown
}
