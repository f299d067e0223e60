// Packets that a hasty mender gets wrong, each the one of its capture.
use crate::places::{captured, changed, datagram};
use crate::shown::show_into;
use std::io;

// A capture of one packet.
pub(crate) fn show(rt: &(impl Print + AllocGlobal), what: &str, packet: &[u8]) -> io::Result<()> {
    show_into(rt, what, &captured(rt, packet)?, 128, 2)
}

// What sums to 0000 has 0000 and not ffff, but for UDP.
fn ones(rt: &(impl Print + AllocGlobal)) -> io::Result<()> {
    show(
        rt,
        "a TCP segment that sums to 0000, with ffff",
        b"\x45\x00\x00\x2a\x00\x00\x00\x00\x40\x06\x66\xcc\x0a\x00\x00\x01\x0a\x00\x00\x02\x9c\x40\x00\x50\x00\x00\x03\xe8\x00\x00\x00\x00\x50\x02\xff\xff\xff\xff\x00\x00\xfb\x65",
    )?;
    show(
        rt,
        "an IPv4 header that sums to 0000, with ffff",
        b"\x45\x00\x00\x1c\x66\xdf\x00\x00\x40\x01\xff\xff\x0a\x00\x00\x01\x0a\x00\x00\x02\x08\x00\xf7\xff\x00\x00\x00\x00",
    )?;
    show(
        rt,
        "an ICMP message that sums to 0000, with ffff",
        b"\x45\x00\x00\x1e\x00\x00\x00\x00\x40\x01\x66\xdd\x0a\x00\x00\x01\x0a\x00\x00\x02\x08\x00\xff\xff\x12\x34\x00\x00\xe5\xcb",
    )
}

// Messages that are all zero, bytes after the total length, and parts that are no TCP or ICMP of ours.
fn others(rt: &(impl Print + AllocGlobal)) -> io::Result<()> {
    show(
        rt,
        "an ICMP message that is all zero but for a wrong checksum",
        b"\x45\x00\x00\x1c\x00\x00\x00\x00\x40\x01\x66\xdf\x0a\x00\x00\x01\x0a\x00\x00\x02\x00\x00\x12\x34\x00\x00\x00\x00",
    )?;
    show(
        rt,
        "an ICMP message that is all zero",
        b"\x45\x00\x00\x1c\x00\x00\x00\x00\x40\x01\x66\xdf\x0a\x00\x00\x01\x0a\x00\x00\x02\x00\x00\x00\x00\x00\x00\x00\x00",
    )?;
    show(
        rt,
        "padding after the total length",
        b"\x45\x00\x00\x1d\x00\x00\x00\x00\x40\x11\xde\xad\x0a\x00\x00\x01\x0a\x00\x00\x02\x00\x01\x00\x02\x00\x09\x12\x34\xab\xff\xff\xff",
    )?;
    show(
        rt,
        "a TCP data offset of 6 words",
        b"\x45\x00\x00\x2c\x00\x00\x00\x00\x40\x06\xde\xad\x0a\x00\x00\x01\x0a\x00\x00\x02\x00\x01\x00\x02\x00\x00\x00\x00\x00\x00\x00\x00\x60\x02\xff\xff\x12\x34\x00\x00\x00\x00\x00\x00",
    )?;
    show(
        rt,
        "an ICMP message of 7 bytes",
        b"\x45\x00\x00\x1b\x00\x00\x00\x00\x40\x01\xde\xad\x0a\x00\x00\x01\x0a\x00\x00\x02\x08\x00\x12\x34\x00\x00\x00",
    )
}

// A UDP datagram that sums to 0000, with other bytes at a place.
fn show_with(
    rt: &(impl Print + AllocGlobal),
    what: &str,
    at: usize,
    bytes: &[u8],
) -> io::Result<()> {
    show(rt, what, &changed(datagram(), at, bytes))
}

// Those that the check would call good.
fn datagrams(rt: &(impl Print + AllocGlobal)) -> io::Result<()> {
    show_with(
        rt,
        "a UDP datagram that sums to 0000, with 1234",
        26,
        b"\x12\x34",
    )?;
    show_with(rt, "with ffff", 26, b"\xff\xff")?;
    show_with(rt, "with 0000, which is no checksum", 26, b"\x00\x00")?;
    show_with(rt, "with DF set", 6, b"\x40\x00")
}

// Packets that the check refuses, whatever their checksums, keep what they have,
fn refused(rt: &(impl Print + AllocGlobal)) -> io::Result<()> {
    show_with(rt, "with MF set", 6, b"\x20\x00")?;
    show_with(rt, "with an offset", 6, b"\x00\x01")?;
    show_with(rt, "with the reserved bit set", 6, b"\x80\x00")?;
    show_with(rt, "of protocol 47", 9, b"\x2f")
}

// .. among them those whose lengths are wrong.
fn cut(rt: &(impl Print + AllocGlobal)) -> io::Result<()> {
    show_with(rt, "with a first byte of 0x55", 0, b"\x55")?;
    show_with(rt, "with a first byte of 0x44", 0, b"\x44")?;
    show_with(rt, "with a first byte of 0x46", 0, b"\x46")?;
    show_with(rt, "with a first byte of 0x48", 0, b"\x48")?;
    show_with(rt, "with a total length of 19", 2, b"\x00\x13")?;
    show_with(rt, "with a UDP length of 9", 24, b"\x00\x09")?;
    show(
        rt,
        "a total length above the bytes",
        b"\x45\x00\x00\x1d\x00\x00\x00\x00\x40\x01\xde\xad\x0a\x00\x00\x01\x0a\x00\x00\x02\x08\x00\x12\x34\x00\x00\x00\x00",
    )?;
    show(rt, "a record of no bytes", b"")
}

// All of them.
pub(crate) fn each(rt: &(impl Print + AllocGlobal)) -> io::Result<()> {
    ones(rt)?;
    others(rt)?;
    datagrams(rt)?;
    refused(rt)?;
    cut(rt)
}
