// Two flows to one server, mixed and alone.
use crate::made::{CLIENT, SERVER, flow_at, put_bytes};
use crate::sent::{answer, close, open, tell};
use crate::shown::{show, show_between};
use ezpkt::SocketAddrV4;
use ezpkt::part::{back, front};
use std::io;
use tcp4::TcpFlow;

// The client of the second flow.
const SECOND: SocketAddrV4 = SocketAddrV4 {
    ip: 0x0a000003,
    port: 5000,
};

// The first flow, from just below 4294967296: nine packets, of 40 bytes but for the fourth, of 44, and the sixth, of 43.
fn first() -> [u8; 367] {
    let mut packets = [0u8; 367];
    let opened = open(flow_at(4294967294, 4294967293), &mut packets);
    let told = tell(opened, b"lap!", 120, &mut packets);
    let answered = answer(told, b"yes", 204, &mut packets);
    close(answered, 247, &mut packets);
    packets
}

// The second: three packets of 44, 40 and 44 bytes, and the server's last is early by seven.
fn second() -> [u8; 128] {
    let mut packets = [0u8; 128];
    let flow = TcpFlow::new(SECOND, SERVER, 7, 4294967290);
    let told = tell(flow, b"wind", 0, &mut packets);
    answer(told.server_hole(7), b"rain", 84, &mut packets);
    packets
}

// Both flows, reported over the same packets.
fn both(rt: &impl Print, what: &str, packets: &[u8], ends: &[usize]) -> io::Result<()> {
    show(rt, what, packets, ends)?;
    show_between(rt, what, packets, ends, SECOND, SERVER)
}

// A part of some packets, put at a place.
fn put_part(from: &[u8], start: usize, size: usize, at: usize, out: &mut [u8]) {
    put_bytes(front(back(from, start), size), at, out);
}

// Packets of the second between those of the first.
fn mixed(rt: &impl Print, a: &[u8], b: &[u8], packets: &mut [u8]) -> io::Result<()> {
    put_part(a, 0, 40, 0, &mut *packets);
    put_part(b, 0, 44, 40, &mut *packets);
    put_part(a, 40, 124, 84, &mut *packets);
    put_part(b, 44, 84, 208, &mut *packets);
    put_part(a, 164, 203, 292, &mut *packets);
    let ends = [40, 84, 124, 164, 208, 248, 292, 332, 375, 415, 455, 495];
    both(rt, "two flows mixed", packets, &ends)
}

// The same packets mixed in another order, those of the second first.
fn remixed(rt: &impl Print, a: &[u8], b: &[u8], packets: &mut [u8]) -> io::Result<()> {
    put_part(b, 0, 84, 0, &mut *packets);
    put_part(a, 0, 204, 84, &mut *packets);
    put_part(b, 84, 44, 288, &mut *packets);
    put_part(a, 204, 163, 332, &mut *packets);
    let ends = [44, 84, 124, 164, 204, 248, 288, 332, 375, 415, 455, 495];
    both(rt, "mixed in another order", packets, &ends)
}

// Both ways of mixing them.
fn mixes(rt: &impl Print, a: &[u8], b: &[u8]) -> io::Result<()> {
    let mut packets = [0u8; 495];
    mixed(rt, a, b, &mut packets)?;
    remixed(rt, a, b, &mut packets)
}

// An end by its address and port.
fn end(ip: u32, port: u16) -> SocketAddrV4 {
    SocketAddrV4 { ip, port }
}

// The first flow, reported for these ends.
fn between(
    rt: &impl Print,
    what: &str,
    a: &[u8],
    cl: SocketAddrV4,
    sv: SocketAddrV4,
) -> io::Result<()> {
    let ends = [40, 80, 120, 164, 204, 247, 287, 327, 367];
    show_between(rt, what, a, &ends, cl, sv)
}

// .. the other way round, and for ends of which one address or port is another.
fn turned(rt: &impl Print, a: &[u8]) -> io::Result<()> {
    between(rt, "the other way round", a, SERVER, CLIENT)?;
    between(
        rt,
        "another client address",
        a,
        end(0x0a000003, 40000),
        SERVER,
    )?;
    between(rt, "another client port", a, end(0x0a000001, 40001), SERVER)?;
    between(rt, "another server address", a, CLIENT, end(0x0a000003, 80))?;
    between(rt, "another server port", a, CLIENT, end(0x0a000002, 81))
}

// A flow whose ends are one.
fn alike(rt: &impl Print) -> io::Result<()> {
    let mut packets = [0u8; 120];
    let _ = TcpFlow::new(CLIENT, CLIENT, 1000, 5000).open(&mut packets);
    let ends = [40, 80, 120];
    show_between(rt, "both ends the same", &packets, &ends, CLIENT, CLIENT)
}

// All of them.
pub(crate) fn each(rt: &impl Print) -> io::Result<()> {
    let a = first();
    let b = second();
    mixes(rt, &a, &b)?;
    turned(rt, &a)?;
    alike(rt)
}
