// Packets that are no segment of the flow, or do not pass the check.
use crate::made::{flow_at, put_bytes, put_segment};
use crate::shown::show;
use std::io;

// A packet alone, and behind it a segment at 1004 of the client.
fn show_one(rt: &impl Print, what: &str, packet: &[u8]) -> io::Result<()> {
    let mut packets = [0u8; 128];
    let n = packet.len();
    put_bytes(packet, 0, &mut packets);
    put_segment(1004, 0x10, b"", n, &mut packets);
    show(rt, what, &packets, &[n, n.wrapping_add(40)])
}

// Four bytes from the client at 1000, with this flags and offset field; then with other bytes at a place. Behind its 44 bytes stand six more, which
// do not count.
fn changed(rt: &impl Print, what: &str, frag_off: u16, at: usize, bytes: &[u8]) -> io::Result<()> {
    let mut packet = [0u8; 50];
    let _ = flow_at(1000, 5000).client_message(b"lap!", false, frag_off, &mut packet);
    put_bytes(bytes, at, &mut packet);
    show_one(rt, what, &packet)
}

// Each part of the field.
fn fields(rt: &impl Print) -> io::Result<()> {
    changed(rt, "DF set", 0x4000, 0, b"")?;
    changed(rt, "a piece, MF set", 0x2000, 0, b"")?;
    changed(rt, "a piece, offset 1", 0x0001, 0, b"")?;
    changed(rt, "the reserved bit set", 0x8000, 0, b"")
}

// Damage, and none.
fn damages(rt: &impl Print) -> io::Result<()> {
    changed(rt, "another TTL", 0, 8, b"\x3f")?;
    changed(rt, "another number", 0, 24, b"\x00\x00\x03\xe9")?;
    changed(rt, "another payload byte", 0, 43, b"?")?;
    changed(rt, "other bytes behind the total length", 0, 44, b"padded")
}

// The UDP datagram 10.0.0.1:40000 to 10.0.0.2:80 with the payload "car P1: 22 laps!" and this checksum field. Where TCP has its data offset byte it
// has 0x50.
fn datagram(rt: &impl Print, what: &str, sum: &[u8]) -> io::Result<()> {
    let mut packet =
        *b"\x45\x00\x00\x2c\x00\x00\x00\x00\x40\x11\x66\xbf\x0a\x00\x00\x01\x0a\x00\x00\x02\x9c\x40\x00\x50\x00\x18\x00\x00\x63\x61\x72\x20\x50\x31\x3a\x20\x32\x32\x20\x6c\x61\x70\x73\x21";
    put_bytes(sum, 26, &mut packet);
    show_one(rt, what, &packet)
}

// What is not TCP.
fn others(rt: &impl Print) -> io::Result<()> {
    show_one(
        rt,
        "an ICMP echo",
        b"\x45\x00\x00\x20\x00\x00\x00\x00\x40\x01\x66\xdb\x0a\x00\x00\x01\x0a\x00\x00\x02\x08\x00\x09\x49\x12\x34\x00\x00\x6c\x61\x70\x21",
    )?;
    datagram(rt, "a UDP datagram", b"\xc8\x27")?;
    datagram(rt, "a UDP datagram without checksum", b"\x00\x00")?;
    datagram(rt, "a damaged UDP datagram", b"\xc8\x26")
}

// Segments that have options, or are not the flow's.
fn segments(rt: &impl Print) -> io::Result<()> {
    show_one(
        rt,
        "a segment behind router alert",
        b"\x46\x00\x00\x30\x00\x00\x00\x00\x40\x06\xd1\xc1\x0a\x00\x00\x01\x0a\x00\x00\x02\x94\x04\x00\x00\x9c\x40\x00\x50\x00\x00\x03\xe8\x00\x00\x13\x88\x50\x18\xff\xff\x0b\x43\x00\x00\x6c\x61\x70\x21",
    )?;
    show_one(
        rt,
        "a TCP data offset of 6 words",
        b"\x45\x00\x00\x2c\x00\x00\x00\x00\x40\x06\x66\xca\x0a\x00\x00\x01\x0a\x00\x00\x02\x9c\x40\x00\x50\x00\x00\x03\xe8\x00\x00\x00\x00\x60\x10\xff\xff\xe9\x54\x00\x00\x01\x01\x01\x00",
    )?;
    show_one(
        rt,
        "a segment of another flow",
        b"\x45\x00\x00\x2c\x00\x00\x00\x00\x40\x06\x66\xc8\x0a\x00\x00\x03\x0a\x00\x00\x02\x13\x88\x00\x50\x00\x00\x03\xe8\x00\x00\x00\x00\x50\x18\xff\xff\xa7\x81\x00\x00\x6c\x61\x70\x21",
    )?;
    show_one(
        rt,
        "a damaged segment of another flow",
        b"\x45\x00\x00\x2c\x00\x00\x00\x00\x40\x06\x66\xc8\x0a\x00\x00\x03\x0a\x00\x00\x02\x13\x88\x00\x50\x00\x00\x03\xe8\x00\x00\x00\x00\x50\x18\xff\xff\xa7\x81\x00\x00\x6c\x61\x70\x3f",
    )
}

// All of them.
pub(crate) fn each(rt: &impl Print) -> io::Result<()> {
    fields(rt)?;
    damages(rt)?;
    others(rt)?;
    segments(rt)
}
