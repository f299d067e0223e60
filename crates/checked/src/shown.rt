// A line for each packet.
use inspect::check;
use inspect::check::Verdict;
use std::io;

// The line. (By a match, and no Display: the type is a library's, and each program has its own words for it.)
pub(crate) fn show(rt: &impl Print, words: &str, packet: &[u8]) -> io::Result<()> {
    print!(rt; "{words}, {} bytes: ", packet.len())?;
    match check::check(packet) {
        Ok(Verdict::Good) => println!(rt; "good"),
        Ok(Verdict::NoChecksum) => println!(rt; "good without checksum"),
        Err(refusal) => println!(rt; "refused {}", refusal.number()),
    }
}
