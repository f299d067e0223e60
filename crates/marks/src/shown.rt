// What is shown of a packet that was built twice.
use std::io;

// A flow with marks and one without, on which the same calls are made. Each kind of flow has its own `both` for that:
// a call answers one length, a flow and a length, or a flow and up to three ends.
#[derive(Clone, Copy, Drop)]
pub(crate) struct Flows<F> {
    pub marked: F,
    pub plain: F,
}

// Where the type of service, the time to live, and the checksum of the header that has them stand.
const MARKED: [usize; 4] = [1, 8, 10, 11];

// Those bytes, and 0 past the end.
fn show_marks(rt: &impl Print, packet: &[u8]) -> io::Result<()> {
    for i in MARKED {
        let byte = packet.get(i).copied().unwrap_or(0);
        print!(rt; " {byte:02x}")?;
    }
    Ok(())
}

// Whether two packets have the same length, and the same bytes but for those.
fn are_alike(a: &[u8], b: &[u8]) -> bool {
    let mut pairs = a.iter().zip(b).enumerate();
    a.len() == b.len() && pairs.all(|(i, (x, y))| *x == *y || MARKED.contains(&i))
}

// The length of the marked packet, and how it differs from the plain one.
pub(crate) fn show_both(rt: &impl Print, marked: &[u8], plain: &[u8]) -> io::Result<()> {
    print!(rt; "  {}:", marked.len())?;
    show_marks(rt, marked)?;
    print!(rt; ",")?;
    show_marks(rt, plain)?;
    let alike = if are_alike(marked, plain) {
        "alike"
    } else {
        "not alike"
    };
    println!(rt; ", else {alike}")
}
