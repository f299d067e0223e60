// How segments arrive, by their numbers.
use crate::made::put_segment;
use crate::shown::show;
use pkt::ipv4;
use std::io;

// Three segments of four bytes from the client, with these numbers, the first with these flags.
fn three(rt: &impl Print, what: &str, flags: u8, a: u32, b: u32, c: u32) -> io::Result<()> {
    let mut packets = [0u8; 132];
    put_segment(a, flags, b"lap!", 0, &mut packets);
    put_segment(b, ipv4::TCP_ACK, b"lap!", 44, &mut packets);
    put_segment(c, ipv4::TCP_ACK, b"lap!", 88, &mut packets);
    show(rt, what, &packets, &[44, 88, 132])
}

// The second lies so far from 1004, and the third is what is expected then.
fn distances(rt: &impl Print) -> io::Result<()> {
    three(rt, "distance 0", 0, 1000, 1004, 1008)?;
    three(rt, "distance 1", 0, 1000, 1005, 1009)?;
    three(rt, "distance -1", 0, 1000, 1003, 1004)?;
    three(rt, "distance 2147483647", 0, 1000, 2147484651, 2147484655)?;
    three(rt, "distance -2147483648", 0, 1000, 2147484652, 1004)
}

// .. from 2, which the first reaches past 4294967295.
fn wrapped(rt: &impl Print) -> io::Result<()> {
    three(rt, "distance 0 from 2", 0, 4294967294, 2, 6)?;
    three(rt, "distance 1 from 2", 0, 4294967294, 3, 7)?;
    three(rt, "distance -1 from 2", 0, 4294967294, 1, 2)?;
    three(rt, "distance -3 from 2", 0, 4294967294, 4294967295, 2)?;
    three(
        rt,
        "distance -2147483648 from 2",
        0,
        4294967294,
        2147483650,
        2,
    )
}

// .. from 4294967295. The first number is what it is, and only what is not late moves the expected one.
fn orders(rt: &impl Print) -> io::Result<()> {
    three(rt, "distance 1 from 4294967295", 0, 4294967291, 0, 4)?;
    three(
        rt,
        "distance 2147483647 from 4294967295",
        0,
        4294967291,
        2147483646,
        2147483650,
    )?;
    three(
        rt,
        "a first number of 2147483648",
        0,
        2147483648,
        2147483652,
        7,
    )?;
    three(rt, "a first number of 4294967295", 0, 4294967295, 3, 7)?;
    three(rt, "one left out", 0, 1000, 1008, 1012)?;
    three(rt, "one left out, then late", 0, 1000, 1008, 1004)?;
    three(rt, "the same three times", 0, 1000, 1000, 1000)
}

// What the flags of the first consume.
fn consumed(rt: &impl Print) -> io::Result<()> {
    three(rt, "SYN with payload", 0x02, 4294967290, 4294967295, 3)?;
    three(rt, "FIN with payload", 0x01, 4294967290, 4294967295, 3)?;
    three(rt, "SYN and FIN with payload", 0x03, 4294967290, 0, 4)?;
    three(
        rt,
        "all flags but SYN and FIN",
        0xfc,
        4294967290,
        4294967294,
        2,
    )
}

// All of them.
pub(crate) fn each(rt: &impl Print) -> io::Result<()> {
    distances(rt)?;
    wrapped(rt)?;
    orders(rt)?;
    consumed(rt)
}
