// Captures exported, run: a line for each says how many bytes it has and for how many there is room, what the call answers, and whether all of the
// output beyond what is written is as it was before. Below it stands the file that was written.
#![tactic(auto)]

mod accepted;
mod made;
mod refused;
mod shown;

use std::io::Error;

// All of them.
fn each(rt: &(impl Print + AllocGlobal)) -> Result<(), Error> {
    accepted::each(rt)?;
    refused::each(rt)
}

fn main(rt: HostRuntime) {
    let _ = each(&rt); // what cannot be written is not shown
}
