// Packets with IPv4 options, each the one of its capture.
use crate::places::{captured, changed};
use crate::shown;
use crate::shown::show_into;
use crate::traps::show;
use ezpkt::part::front;
use std::io;

// A capture of one packet, and what it is mended to once more.
fn twice(rt: &(impl Print + AllocGlobal), what: &str, packet: &[u8]) -> io::Result<()> {
    let c = captured(rt, packet)?;
    let n = c.len();
    let mut out = [shown::BYTE; 128];
    let mut rows = [[shown::NUMBER; 4]; 2];
    shown::show(rt, what, &c, &mut out, &mut rows)?;
    show_into(rt, "the same once more", front(&out, n), n, 0)
}

// The UDP datagram that sums to 0000, behind router alert; both its checksums are wrong.
fn datagram() -> [u8; 34] {
    *b"\x46\x00\x00\x22\x00\x00\x00\x00\x40\x11\xde\xad\x0a\x00\x00\x01\x0a\x00\x00\x02\x94\x04\x00\x00\x00\x01\x00\x02\x00\x0a\x12\x34\xeb\xd4"
}

// .. with other bytes at a place.
fn lap(rt: &(impl Print + AllocGlobal), what: &str, at: usize, bytes: &[u8]) -> io::Result<()> {
    twice(rt, what, &changed(datagram(), at, bytes))
}

// Those that the check would call good.
fn laps(rt: &(impl Print + AllocGlobal)) -> io::Result<()> {
    lap(
        rt,
        "router alert and a UDP datagram that sums to 0000",
        0,
        b"",
    )?;
    lap(rt, "with 0000, which is no checksum", 30, b"\x00\x00")?;
    lap(rt, "with ffff", 30, b"\xff\xff")
}

// An ICMP echo behind router alert, both its checksums right, with other bytes at a place.
fn echo(rt: &(impl Print + AllocGlobal), what: &str, at: usize, bytes: &[u8]) -> io::Result<()> {
    let packet =
        *b"\x46\x00\x00\x20\x00\x00\x00\x00\x40\x01\xd1\xd6\x0a\x00\x00\x01\x0a\x00\x00\x02\x94\x04\x00\x00\x08\x00\xe5\xcb\x12\x34\x00\x00";
    twice(rt, what, &changed(packet, at, bytes))
}

// .. of which nothing, the option, its own checksum or both checksums are wrong.
fn echoes(rt: &(impl Print + AllocGlobal)) -> io::Result<()> {
    echo(rt, "router alert and an ICMP echo", 0, b"")?;
    echo(rt, "with a byte of the option blanked", 20, b"\x00")?;
    echo(rt, "with the option blanked", 20, b"\x00\x00\x00\x00")?;
    echo(rt, "with the echo's checksum blanked", 26, b"\x00\x00")?;
    echo(rt, "with the header's checksum blanked", 10, b"\x00\x00")?;
    echo(
        rt,
        "with other addresses",
        12,
        b"\xc0\x00\x02\x01\xc0\x00\x02\x02",
    )
}

// A TCP segment behind 40 bytes of options; both its checksums are wrong.
fn segment(rt: &(impl Print + AllocGlobal)) -> io::Result<()> {
    twice(
        rt,
        "40 bytes of options and a TCP segment",
        b"\x4f\x00\x00\x54\x00\x00\x00\x00\x40\x06\xde\xad\x0a\x00\x00\x01\x0a\x00\x00\x02\x01\x07\x27\x28\xc0\xa8\x01\x01\xc0\xa8\x01\x02\xc0\xa8\x01\x03\xc0\xa8\x01\x04\xc0\xa8\x01\x05\xc0\xa8\x01\x06\xc0\xa8\x01\x07\xc0\xa8\x01\x08\xc0\xa8\x01\x09\x9c\x40\x00\x50\x00\x00\x03\xe8\x00\x00\x00\x00\x50\x18\xff\xff\x12\x34\x00\x00\x6c\x61\x70\x21",
    )
}

// Packets that the check refuses, whatever their checksums, with other bytes at a place: they keep what they have.
fn kept(rt: &(impl Print + AllocGlobal), what: &str, at: usize, bytes: &[u8]) -> io::Result<()> {
    show(rt, what, &changed(datagram(), at, bytes))
}

// .. among them those whose lengths are wrong.
fn refused(rt: &(impl Print + AllocGlobal)) -> io::Result<()> {
    kept(rt, "router alert, with MF set", 6, b"\x20\x00")?;
    kept(rt, "with the reserved bit set", 6, b"\x80\x00")?;
    kept(rt, "of protocol 2", 9, b"\x02")?;
    kept(rt, "with a total length of 23", 2, b"\x00\x17")?;
    kept(rt, "with a total length of 24", 2, b"\x00\x18")?;
    kept(rt, "with a total length of 35", 2, b"\x00\x23")?;
    kept(rt, "with a UDP length of 14", 28, b"\x00\x0e")?;
    let packet = datagram();
    show(rt, "23 bytes of it", &packet[0..23])
}

// All of them.
pub(crate) fn each(rt: &(impl Print + AllocGlobal)) -> io::Result<()> {
    laps(rt)?;
    echoes(rt)?;
    segment(rt)?;
    refused(rt)
}
