// Reports of a flow, run: a line for each list of packets has what it is, then for the client and for the server the segments, payload bytes, SYNs
// and FINs, how many segments arrived as expected, early and late, and the number that is expected next; then how many packets failed the check and
// how many are of other flows. Or it has the refusal's number, and the index of the end that it is for where it is for one.
#![tactic(auto)]

mod arrivals;
mod ends;
mod flows;
mod kinds;
mod made;
mod many;
mod sent;
mod shown;

use std::io;

// All of them.
fn each(rt: &impl Print) -> io::Result<()> {
    ends::each(rt)?;
    arrivals::each(rt)?;
    flows::each(rt)?;
    kinds::each(rt)?;
    many::each(rt)
}

fn main(rt: HostRuntime) {
    let _ = each(&rt); // what cannot be written is not shown
}
