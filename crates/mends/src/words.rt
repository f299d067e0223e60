// What is written of a change and of a check.
use inspect::check::Verdict;
use pkt::refusal::Refusal;
use std::io;

// Which checksum. (A number, as mending's rows have it: mending::IPV4 says why. As mend's: a program has no library of its own.)
fn field_name(which: usize) -> &'static str {
    if which == mending::IPV4 {
        "IPv4"
    } else {
        "transport"
    }
}

// A line for one change: the record's number, which checksum, what it was and what it is.
pub(crate) fn show_change(rt: &impl Print, change: [usize; 4]) -> io::Result<()> {
    let [record, which, old, new] = change;
    println!(rt;
        "  record {record}, {} checksum: was 0x{old:04x}, is now 0x{new:04x}",
        field_name(which)
    )
}

// What the check answers. (By a match, and no Display: the type is a library's, and each program has its own words for it.)
pub(crate) fn show_checked(rt: &impl Print, answer: Result<Verdict, Refusal>) -> io::Result<()> {
    match answer {
        Ok(Verdict::Good) => print!(rt; "good:"),
        Ok(Verdict::NoChecksum) => print!(rt; "good without checksum:"),
        Err(refusal) => print!(rt; "refused {}:", refusal.number()),
    }
}
