// Captures at each bound: refused, and just not.
use crate::places::{datagram, put_bytes, put_record};
use crate::shown::show_into;
use ezpkt::part::front;
use std::io;

// Two records of 46 bytes, each with two changes.
fn two() -> [u8; 116] {
    let packet = datagram();
    let mut c = [0u8; 116];
    let _ = pcap::write_header(&mut c);
    put_record(7, 0, &packet, 24, &mut c);
    put_record(8, 999999, &packet, 70, &mut c);
    c
}

// The first bytes of two records, however many.
fn fronts(rt: &(impl Print + AllocGlobal), two: &[u8]) -> io::Result<()> {
    for n in 0..two.len() {
        show_into(rt, "two records, cut", front(two, n), 128, 4)?;
    }
    show_into(rt, "two records", two, 128, 4)
}

// A capture's header that is not document 01's.
fn other_header(rt: &(impl Print + AllocGlobal)) -> io::Result<()> {
    let mut h = pcap::header();
    put_bytes(b"\x01", 23, &mut h);
    show_into(rt, "a header with another last byte", &h, 128, 4)
}

// One record, 70 bytes with two changes, into just enough room and less.
fn rooms(rt: &(impl Print + AllocGlobal), one: &[u8]) -> io::Result<()> {
    show_into(rt, "just enough room", one, 70, 2)?;
    show_into(rt, "a byte less in the second buffer", one, 69, 2)?;
    show_into(rt, "a row less in the list", one, 70, 1)?;
    show_into(rt, "no room", one, 0, 0)?;
    show_into(rt, "no room, and a record cut short", front(one, 69), 0, 0)?;
    show_into(rt, "no room, and a header cut short", front(one, 23), 0, 0)
}

// The first n bytes of a capture of one record, zeros but for these bytes of it: its two lengths, and its packet.
fn show_long(
    rt: &(impl Print + AllocGlobal),
    what: &str,
    record: &[u8],
    n: usize,
) -> io::Result<()> {
    let mut c = [0u8; 65576];
    let _ = pcap::write_header(&mut c);
    put_bytes(record, 32, &mut c);
    show_into(rt, what, front(&c, n), 65576, 2)
}

// The longest record, whose packet is an IPv4 header and an ICMP message that is all zero, and one that is longer.
fn lengths(rt: &(impl Print + AllocGlobal)) -> io::Result<()> {
    show_long(
        rt,
        "a record of 65,536 bytes",
        b"\x00\x00\x01\x00\x00\x00\x01\x00",
        65576,
    )?;
    show_long(
        rt,
        "one of 65,535 bytes and one byte",
        b"\xff\xff\x00\x00\xff\xff\x00\x00",
        65576,
    )?;
    show_long(
        rt,
        "a record of 65,535 bytes",
        b"\xff\xff\x00\x00\xff\xff\x00\x00\x45\x00\xff\xff\x00\x00\x00\x00\x40\x01",
        65575,
    )
}

// All of them.
pub(crate) fn each(rt: &(impl Print + AllocGlobal)) -> io::Result<()> {
    let two = two();
    fronts(rt, &two)?;
    rooms(rt, front(&two, 70))?;
    other_header(rt)?;
    lengths(rt)
}
