// A line for each report.
use crate::made::{CLIENT, SERVER};
use ezpkt::SocketAddrV4;
use pkt::refusal::ListRefusal;
use reporting::{Report, Tally};
use std::io;

// The numbers of a side.
fn show_side(rt: &impl Print, name: &str, t: Tally) -> io::Result<()> {
    let counts = [
        t.segments, t.bytes, t.syns, t.fins, t.expected, t.early, t.late,
    ];
    print!(rt; "{name}")?;
    for n in counts {
        print!(rt; " {n}")?;
    }
    print!(rt; " next {}", t.next)
}

// Both sides, and the packets of neither.
fn show_report(rt: &impl Print, r: Report) -> io::Result<()> {
    show_side(rt, ": client", r.cl)?;
    show_side(rt, ", server", r.sv)?;
    println!(rt; ", failed {}, others {}", r.failed, r.others)
}

// The line for the flow between two ends: its report, or the refusal. (By a match, and no Display: the type is a library's, and each program has its
// own words for it.)
pub(crate) fn show_between(
    rt: &impl Print,
    what: &str,
    packets: &[u8],
    ends: &[usize],
    cl: SocketAddrV4,
    sv: SocketAddrV4,
) -> io::Result<()> {
    print!(rt; "{what}")?;
    match reporting::flow_report(packets, ends, cl, sv) {
        Ok(report) => show_report(rt, report),
        Err(ListRefusal::Whole(refusal)) => println!(rt; ": refused {}", refusal.number()),
        Err(ListRefusal::At(refusal, i)) => println!(rt; ": refused {} at {i}", refusal.number()),
    }
}

// .. between the client and the server.
pub(crate) fn show(rt: &impl Print, what: &str, packets: &[u8], ends: &[usize]) -> io::Result<()> {
    show_between(rt, what, packets, ends, CLIENT, SERVER)
}
