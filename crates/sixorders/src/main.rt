// Pieces handed in in every order, and every refusal of an assembly, run: each line is a call and what it answers.
#![tactic(auto)]

mod options;

use assembly::{Key, Outcome, Progress, Rec, Taken};
use ezpkt::build::{IcmpEcho, Request, TcpSegment, UdpDatagram};
use ezpkt::ip4::Template;
use ezpkt::{Marks, build, ip4, part};
use pkt::refusal::Refusal;
use std::io;

const CLIENT: u32 = 0x0a000001;

const SERVER: u32 = 0x0a000002;

// By a match, and no Display: the type is a library's, and each program has its own words for it.
fn show_outcome(rt: &impl Print, outcome: Outcome) -> io::Result<()> {
    match outcome {
        Outcome::Waiting => print!(rt; " waiting"),
        Outcome::Complete => print!(rt; " complete"),
        Outcome::Spoilt => print!(rt; " spoilt"),
    }
}

fn show_refused(rt: &impl Print, refusal: Refusal) -> io::Result<()> {
    print!(rt; " refused {}", refusal.number())
}

fn show_taken(rt: &impl Print, taken: Result<Taken, Refusal>) -> io::Result<()> {
    match taken {
        Ok(taken) => show_outcome(rt, taken.answer),
        Err(refusal) => show_refused(rt, refusal),
    }
}

// The record after a call: on a refusal the one before it.
fn kept(rec: Rec, taken: Result<Taken, Refusal>) -> Rec {
    match taken {
        Ok(taken) => taken.rec,
        Err(_) => rec,
    }
}

// A complete datagram from a place on: as many of the payload buffer's first bytes as `progress` answers.
fn show_held(
    rt: &impl Print,
    progress: Result<Progress, Refusal>,
    payload: &[u8],
    from: usize,
) -> io::Result<()> {
    if let Ok(Progress::Complete(n)) = progress {
        print!(rt; ", holds ")?;
        rt.write_all(part::back(part::front(payload, n), from))?;
    }
    Ok(())
}

fn key_of(protocol: u8) -> Key {
    Key {
        saddr: CLIENT,
        daddr: SERVER,
        id: 0,
        protocol,
    }
}

// That of the segments.
fn key() -> Key {
    key_of(6)
}

fn template_of(protocol: u8) -> Template {
    Template {
        tos: 0,
        id: 0,
        df: false,
        evil: false,
        ttl: 64,
        protocol,
        saddr: CLIENT,
        daddr: SERVER,
    }
}

fn template() -> Template {
    template_of(6)
}

// Hands a packet in, and says what came of it. (rec, payload and map go apart, as the calls that are shown take them.)
fn handed(
    rt: &impl Print,
    rec: Rec,
    packet: &[u8],
    payload: &mut [u8],
    map: &mut [u8],
) -> io::Result<Rec> {
    let taken = assembly::take(rec, packet, payload, map);
    show_taken(rt, taken)?;
    Ok(kept(rec, taken))
}

// Piece (off, 1) of twenty bytes, with what stands behind it in its buffer.
fn digits(off: u16) -> [u8; 40] {
    let mut out = [0u8; 40];
    let _ = ip4::fragment(template(), b"01234567890123456789", off, 1, &mut out);
    out
}

// Three pieces of twenty bytes, and what is held then.
fn order(rt: &impl Print, a: u16, b: u16, c: u16) -> io::Result<()> {
    let mut payload = [0u8; 65515];
    let mut map = [0u8; 1024];
    print!(rt; "blocks {a} {b} {c}:")?;
    match assembly::open(key(), &mut payload, &mut map) {
        Err(refusal) => show_refused(rt, refusal)?,
        Ok(rec) => {
            let one = handed(rt, rec, &digits(a), &mut payload, &mut map)?;
            let two = handed(rt, one, &digits(b), &mut payload, &mut map)?;
            let three = handed(rt, two, &digits(c), &mut payload, &mut map)?;
            show_held(rt, assembly::progress(three, &payload, &map), &payload, 0)?;
        }
    }
    println!(rt; "")
}

fn orders(rt: &impl Print) -> io::Result<()> {
    order(rt, 0, 3, 2)?;
    order(rt, 0, 2, 3)?;
    order(rt, 3, 0, 2)?;
    order(rt, 3, 2, 0)?;
    order(rt, 2, 0, 3)?;
    order(rt, 2, 3, 0)?;
    order(rt, 2, 0, 1)
}

// Opens an assembly and hands in one packet.
fn first(rt: &impl Print, packet: &[u8]) -> io::Result<()> {
    let mut payload = [0u8; 65515];
    let mut map = [0u8; 1024];
    match assembly::open(key(), &mut payload, &mut map) {
        Err(refusal) => show_refused(rt, refusal)?,
        Ok(rec) => show_taken(rt, assembly::take(rec, packet, &mut payload, &mut map))?,
    }
    println!(rt; "")
}

// A segment of one byte, 41 bytes in all.
fn segment(saddr: u32, frag_off: u16) -> [u8; 41] {
    let request = Request::Tcp(TcpSegment {
        saddr,
        daddr: SERVER,
        sport: 40000,
        dport: 80,
        seq: 0,
        ack: 0,
        flags: 0,
        frag_off,
        marks: Marks::default(),
    });
    let mut out = [0u8; 41];
    let _ = build::build(request, b"!", &mut out);
    out
}

fn empty(rt: &impl Print) -> io::Result<()> {
    let mut out = [0u8; 20];
    let _ = ip4::fragment(template(), b"", 0, 0, &mut out);
    print!(rt; "all of no bytes:")?;
    first(rt, &out)
}

fn sizes(rt: &impl Print) -> io::Result<()> {
    let mut payload = [0u8; 65515];
    let mut map = [0u8; 1023];
    print!(rt; "a map of 1,023 bytes:")?;
    match assembly::open(key(), &mut payload, &mut map) {
        Err(refusal) => show_refused(rt, refusal)?,
        Ok(_) => print!(rt; " open")?,
    }
    println!(rt; "")
}

// Hands a segment to an assembly with this total and floor.
fn record(rt: &impl Print, total: Option<usize>, floor: usize) -> io::Result<()> {
    let mut payload = [0u8; 65515];
    let mut map = [0u8; 1024];
    let rec = Rec {
        key: key(),
        total,
        floor,
        spoilt: false,
    };
    let out = segment(CLIENT, 0);
    show_taken(rt, assembly::take(rec, &out, &mut payload, &mut map))?;
    println!(rt; "")
}

fn records(rt: &impl Print) -> io::Result<()> {
    print!(rt; "total 65,516:")?;
    record(rt, Some(65516), 0)?;
    print!(rt; "floor 65,514:")?;
    record(rt, None, 65514)?;
    print!(rt; "floor 65,513:")?;
    record(rt, None, 65513)
}

fn cut_short(rt: &impl Print) -> io::Result<()> {
    let whole = segment(CLIENT, 0);
    print!(rt; "19 bytes:")?;
    first(rt, &whole[0..19])?;
    print!(rt; "40 of 41 bytes:")?;
    first(rt, &whole[0..40])
}

// A segment with another byte at one place of its header.
fn changed(rt: &impl Print, words: &str, i: usize, byte: u8) -> io::Result<()> {
    let at = i % 20;
    let mut out = segment(CLIENT, 0);
    out[at] = byte;
    print!(rt; "{words}:")?;
    first(rt, &out)
}

// With 0x46 the first four bytes of the segment stand for options.
fn headers(rt: &impl Print) -> io::Result<()> {
    changed(rt, "first byte 0x44", 0, 0x44)?;
    changed(rt, "first byte 0x46", 0, 0x46)?;
    changed(rt, "total length 19", 3, 19)?;
    changed(rt, "another TTL under the same checksum", 8, 63)
}

fn sent(rt: &impl Print, saddr: u32, frag_off: u16) -> io::Result<()> {
    let out = segment(saddr, frag_off);
    first(rt, &out)
}

fn other_protocol(rt: &impl Print) -> io::Result<()> {
    let out = lap();
    first(rt, &out)
}

fn pieces(rt: &impl Print) -> io::Result<()> {
    print!(rt; "another source:")?;
    sent(rt, SERVER, 0)?;
    print!(rt; "another protocol:")?;
    other_protocol(rt)?;
    print!(rt; "21 bytes with MF set:")?;
    sent(rt, CLIENT, 0x2000)?;
    print!(rt; "21 bytes at block 8,187:")?;
    sent(rt, CLIENT, 8187)?;
    print!(rt; "21 bytes at block 8,186:")?;
    sent(rt, CLIENT, 8186)?;
    print!(rt; "21 bytes with DF set:")?;
    sent(rt, CLIENT, 0x4000)
}

// The reserved bit: 18, behind 7 and before 8 and 9.
fn reserved(rt: &impl Print) -> io::Result<()> {
    changed(rt, "the reserved bit set under the same checksum", 6, 0x80)?;
    print!(rt; "the reserved bit set:")?;
    sent(rt, CLIENT, 0x8000)?;
    print!(rt; "the reserved bit set, and another source:")?;
    sent(rt, SERVER, 0x8000)?;
    print!(rt; "the reserved bit and MF set, 21 bytes:")?;
    sent(rt, CLIENT, 0xa000)
}

// A ping and a telemetry datagram, of 52 bytes each, with identification 0 between the same hosts.
fn ping() -> [u8; 52] {
    let request = Request::Echo(IcmpEcho {
        saddr: CLIENT,
        daddr: SERVER,
        reply: false,
        seq: 0,
        marks: Marks::default(),
    });
    let mut out = [0u8; 52];
    let _ = build::build(request, b"a ping between two hosts", &mut out);
    out
}

fn lap() -> [u8; 52] {
    let request = Request::Udp(UdpDatagram {
        saddr: CLIENT,
        daddr: SERVER,
        sport: 40000,
        dport: 80,
        frag_off: 0,
        csum: true,
        marks: Marks::default(),
    });
    let mut out = [0u8; 52];
    let _ = build::build(request, b"a lap between two points", &mut out);
    out
}

// The protocol's number, since key_of and template_of take it.
fn datagram(protocol: u8) -> [u8; 52] {
    if protocol == 1 {
        return ping();
    }
    lap()
}

// One or two blocks of the IPv4 payload of the ping (1) or the telemetry datagram (17).
fn piece_of(protocol: u8, off: u16, len: u16) -> [u8; 36] {
    let whole = datagram(protocol);
    let mut out = [0u8; 36];
    let _ = ip4::fragment(
        template_of(protocol),
        part::back(&whole, 20),
        off,
        len,
        &mut out,
    );
    out
}

// The pieces of both datagrams, mixed, for the assembly of one protocol, and what it holds behind 8 bytes of header.
fn mixed(rt: &impl Print, protocol: u8) -> io::Result<()> {
    let mut payload = [0u8; 65515];
    let mut map = [0u8; 1024];
    match assembly::open(key_of(protocol), &mut payload, &mut map) {
        Err(refusal) => show_refused(rt, refusal)?,
        Ok(rec) => {
            let one = handed(rt, rec, &piece_of(1, 0, 2), &mut payload, &mut map)?;
            let two = handed(rt, one, &piece_of(17, 2, 2), &mut payload, &mut map)?;
            let three = handed(rt, two, &piece_of(17, 0, 2), &mut payload, &mut map)?;
            let four = handed(rt, three, &piece_of(1, 2, 2), &mut payload, &mut map)?;
            show_held(rt, assembly::progress(four, &payload, &map), &payload, 8)?;
        }
    }
    println!(rt; "")
}

fn both(rt: &impl Print) -> io::Result<()> {
    print!(rt; "a ping and a lap with one identification, to the ping's assembly:")?;
    mixed(rt, 1)?;
    print!(rt; "to the lap's assembly:")?;
    mixed(rt, 17)
}

// All of them.
fn each(rt: &impl Print) -> io::Result<()> {
    orders(rt)?;
    empty(rt)?;
    sizes(rt)?;
    records(rt)?;
    cut_short(rt)?;
    headers(rt)?;
    pieces(rt)?;
    reserved(rt)?;
    both(rt)?;
    options::each(rt)
}

fn main(rt: HostRuntime) {
    let _ = each(&rt); // what cannot be written is not shown
}
