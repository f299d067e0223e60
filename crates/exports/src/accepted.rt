// Captures that are exported.
use crate::made::{changed, one, put_bytes, three};
use crate::shown::show_into;
use ezpkt::part::front;
use std::io::Error;

// A capture of one packet.
fn padded(rt: &(impl Print + AllocGlobal), words: &str, packet: &[u8]) -> Result<(), Error> {
    let c = one(packet);
    let n = packet.len().wrapping_add(40);
    show_into(rt, words, front(&c, n), 96)
}

// Every number of zeros behind it.
fn paddings(rt: &(impl Print + AllocGlobal)) -> Result<(), Error> {
    padded(rt, "a packet of no bytes", b"")?;
    padded(rt, "a packet of 1 byte", b"l")?;
    padded(rt, "a packet of 2 bytes", b"la")?;
    padded(rt, "a packet of 3 bytes", b"lap")?;
    padded(rt, "a packet of 4 bytes", b"laps")?;
    padded(rt, "a packet of 5 bytes", b"laps!")
}

// A packet of 5 bytes, with other bytes at a place of its record's header.
fn changed_laps(
    rt: &(impl Print + AllocGlobal),
    words: &str,
    at: usize,
    bytes: &[u8],
) -> Result<(), Error> {
    show_into(rt, words, &changed(one(b"laps!"), at, bytes), 96)
}

// Times whose count of microseconds has 0 for its high word, the first 1, and the most.
fn times(rt: &(impl Print + AllocGlobal)) -> Result<(), Error> {
    changed_laps(rt, "0 s and 0 us", 24, b"\x00\x00\x00\x00\x00\x00\x00\x00")?;
    changed_laps(
        rt,
        "4,294 s and 967,295 us",
        24,
        b"\xc6\x10\x00\x00\x7f\xc2\x0e\x00",
    )?;
    changed_laps(
        rt,
        "4,294 s and 967,296 us",
        24,
        b"\xc6\x10\x00\x00\x80\xc2\x0e\x00",
    )?;
    changed_laps(
        rt,
        "4,294,967,295 s and 999,999 us",
        24,
        b"\xff\xff\xff\xff\x3f\x42\x0f\x00",
    )
}

// Original lengths that are not the captured one.
fn originals(rt: &(impl Print + AllocGlobal)) -> Result<(), Error> {
    changed_laps(rt, "an original length of 1,500", 36, b"\xdc\x05\x00\x00")?;
    changed_laps(rt, "an original length of 4", 36, b"\x04\x00\x00\x00")?;
    changed_laps(
        rt,
        "an original length of 4,294,967,295",
        36,
        b"\xff\xff\xff\xff",
    )
}

// The longest packet: zeros, and a last byte that is not.
fn longest(rt: &(impl Print + AllocGlobal)) -> Result<(), Error> {
    let mut c = vec![in rt.alloc(); 0u8; 65575]?;
    let _ = pcap::write_header(&mut c);
    put_bytes(b"\xff\xff\x00\x00\xff\xff\x00\x00", 32, &mut c);
    put_bytes(b"!", 65574, &mut c);
    show_into(rt, "a packet of 65,535 bytes", &c, 65618)
}

// All of them.
pub(crate) fn each(rt: &(impl Print + AllocGlobal)) -> Result<(), Error> {
    let three = three();
    show_into(rt, "no records", front(&three, 24), 64)?;
    paddings(rt)?;
    times(rt)?;
    originals(rt)?;
    show_into(rt, "three records", &three, 192)?;
    longest(rt)
}
