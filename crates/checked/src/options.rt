// Packets with IPv4 options, and first bytes.
use crate::shown::show;
use inspect::check;
use pkt::copying::copy;
use pkt::refusal::Refusal;
use std::io;

// Whether 5 is not what a packet of 20 bytes is refused by, if this is its first byte and the others are zero.
fn is_ipv4(first: u8) -> bool {
    let mut packet = [0u8; 20];
    packet[0] = first;
    check::check(&packet) != Err(Refusal::NotIpv4)
}

// All such first bytes.
fn firsts(rt: &impl Print) -> io::Result<()> {
    print!(rt; "first bytes that 5 is not given for:")?;
    for first in 0..=255 {
        if is_ipv4(first) {
            print!(rt; " 0x{first:02x}")?;
        }
    }
    println!(rt; "")
}

// Total lengths under the header's, where the options are not there.
fn totals(rt: &impl Print) -> io::Result<()> {
    show(
        rt,
        "total length below a header of 24 bytes",
        b"\x46\x00\x00\x17\x00\x00\x00\x00\x00\x00\x00\x00\x00\x00\x00\x00\x00\x00\x00\x00",
    )?;
    show(
        rt,
        "total length below a header of 60 bytes",
        b"\x4f\x00\x00\x3b\x00\x00\x00\x00\x00\x00\x00\x00\x00\x00\x00\x00\x00\x00\x00\x00",
    )
}

// A header of 24 bytes and no data, whole and without its last bytes.
fn cut(rt: &impl Print) -> io::Result<()> {
    let whole =
        *b"\x46\x00\x00\x18\x00\x00\x00\x00\x40\x01\xd1\xde\x0a\x00\x00\x01\x0a\x00\x00\x02\x94\x04\x00\x00";
    show(rt, "router alert, fewer than the header", &whole[0..20])?;
    show(rt, "router alert, fewer than the header", &whole[0..21])?;
    show(rt, "router alert, fewer than the header", &whole[0..22])?;
    show(rt, "router alert, fewer than the header", &whole[0..23])?;
    show(rt, "router alert and no data", &whole)
}

// Bytes at a place, as far as there is room for them. (Several programs have it: no library needs it, and it would be public there.)
fn put_bytes(bytes: &[u8], at: usize, out: &mut [u8]) {
    if let Some(rest) = out.get_mut(at..) {
        copy(bytes, rest);
    }
}

// A packet with other bytes at a place.
fn changed<const N: usize>(
    rt: &impl Print,
    mut packet: [u8; N],
    words: &str,
    at: usize,
    bytes: &[u8],
) -> io::Result<()> {
    put_bytes(bytes, at, &mut packet);
    show(rt, words, &packet)
}

// Router alert and an ICMP echo.
const ECHO: [u8; 32] =
    *b"\x46\x00\x00\x20\x00\x00\x00\x00\x40\x01\xd1\xd6\x0a\x00\x00\x01\x0a\x00\x00\x02\x94\x04\x00\x00\x08\x00\xe5\xcb\x12\x34\x00\x00";

// The echo with the header's checksum wrong, and right.
fn echoes(rt: &impl Print) -> io::Result<()> {
    changed(rt, ECHO, "router alert and ICMP", 0, b"")?;
    changed(rt, ECHO, "with another byte in the option", 23, b"\x01")?;
    changed(
        rt,
        ECHO,
        "with the checksum of the first 20 bytes",
        10,
        b"\x65\xdb",
    )?;
    changed(
        rt,
        ECHO,
        "with the reserved bit set",
        6,
        b"\x80\x00\x40\x01\x51\xd6",
    )?;
    changed(rt, ECHO, "with MF set", 6, b"\x20\x00\x40\x01\xb1\xd6")?;
    changed(rt, ECHO, "of protocol 2", 9, b"\x02\xd1\xd5")?;
    changed(
        rt,
        ECHO,
        "with total length 23",
        2,
        b"\x00\x17\x00\x00\x00\x00\x40\x01\xd1\xdf",
    )?;
    changed(
        rt,
        ECHO,
        "with total length 31",
        2,
        b"\x00\x1f\x00\x00\x00\x00\x40\x01\xd1\xd7",
    )?;
    changed(rt, ECHO, "with another byte in the echo", 31, b"\x01")
}

// Router alert and a UDP datagram.
const LAP: [u8; 36] =
    *b"\x46\x00\x00\x24\x00\x00\x00\x00\x40\x11\xd1\xc2\x0a\x00\x00\x01\x0a\x00\x00\x02\x94\x04\x00\x00\x9c\x40\x00\x50\x00\x0c\x72\xc0\x6c\x61\x70\x21";

// The datagram with its field 0 and its length another.
fn laps(rt: &impl Print) -> io::Result<()> {
    changed(rt, LAP, "router alert and UDP", 0, b"")?;
    changed(rt, LAP, "with another byte in the datagram", 35, b"?")?;
    changed(rt, LAP, "with field 0", 30, b"\x00\x00")?;
    changed(
        rt,
        LAP,
        "with a length that counts the option",
        28,
        b"\x00\x10\x72\xbc",
    )
}

// 40 bytes of options, a TCP segment and a byte after the total length.
const SEGMENT: [u8; 85] =
    *b"\x4f\x00\x00\x54\x00\x00\x00\x00\x40\x06\x65\x57\x0a\x00\x00\x01\x0a\x00\x00\x02\x01\x07\x27\x28\xc0\xa8\x01\x01\xc0\xa8\x01\x02\xc0\xa8\x01\x03\xc0\xa8\x01\x04\xc0\xa8\x01\x05\xc0\xa8\x01\x06\xc0\xa8\x01\x07\xc0\xa8\x01\x08\xc0\xa8\x01\x09\x9c\x40\x00\x50\x00\x00\x03\xe8\x00\x00\x00\x00\x50\x18\xff\xff\x1e\xcb\x00\x00\x6c\x61\x70\x21\xff";

// The segment, and with another byte in the options and in it.
fn segments(rt: &impl Print) -> io::Result<()> {
    changed(
        rt,
        SEGMENT,
        "40 bytes of options and TCP, a byte after it",
        0,
        b"",
    )?;
    changed(
        rt,
        SEGMENT,
        "with another last byte in the options",
        59,
        b"\x0a",
    )?;
    changed(
        rt,
        SEGMENT,
        "with another first byte in the segment",
        60,
        b"\x9d",
    )?;
    changed(
        rt,
        SEGMENT,
        "with another last byte in the segment",
        83,
        b"?",
    )
}

// .. with total lengths that cut it, leave it out, and cut the options.
fn segment_lengths(rt: &impl Print) -> io::Result<()> {
    changed(
        rt,
        SEGMENT,
        "with total length 86",
        2,
        b"\x00\x56\x00\x00\x00\x00\x40\x06\x65\x55",
    )?;
    changed(
        rt,
        SEGMENT,
        "with total length 79",
        2,
        b"\x00\x4f\x00\x00\x00\x00\x40\x06\x65\x5c",
    )?;
    changed(
        rt,
        SEGMENT,
        "with total length 60",
        2,
        b"\x00\x3c\x00\x00\x00\x00\x40\x06\x65\x6f",
    )?;
    changed(
        rt,
        SEGMENT,
        "with total length 59",
        2,
        b"\x00\x3b\x00\x00\x00\x00\x40\x06\x65\x70",
    )
}

// All of them.
pub(crate) fn each(rt: &impl Print) -> io::Result<()> {
    firsts(rt)?;
    totals(rt)?;
    cut(rt)?;
    echoes(rt)?;
    laps(rt)?;
    segments(rt)?;
    segment_lengths(rt)
}
