// Every word of a packet at every number, run: below the line of a packet a line for each of its words, and for the odd last byte, says the place, what
// stands there and what the check answers if another number stood there, from the smallest to the largest.
#![tactic(auto)]

mod change;
mod shown;

use ezpkt::build::{IcmpEcho, Request, TcpSegment, UdpDatagram};
use ezpkt::{Marks, build};
use std::io;

const CAR: u32 = 0x0a000001;

const CORE: u32 = 0x0a000002;

const MARKS: Marks = Marks { tos: 16, ttl: 1 };

// A word of 0000, one of ffff, three others and an odd last byte.
const PAYLOAD: [u8; 9] = *b"\x00\x00\xff\xfflap 7";

// Builds what is asked for, and changes each of its words from a place on.
fn show(
    rt: &impl Print,
    what: &str,
    req: Request,
    packet: &mut [u8],
    from: usize,
) -> io::Result<()> {
    let _ = build::build(req, &PAYLOAD, packet);
    println!(rt; "{what}")?;
    change::each(rt, packet, from)
}

// A segment, with its header.
fn tcp(rt: &impl Print) -> io::Result<()> {
    let mut packet = [0u8; 49];
    let segment = TcpSegment {
        saddr: CAR,
        daddr: CORE,
        sport: 40000,
        dport: 80,
        seq: 0x0000ffff,
        ack: 0xffff0000,
        flags: 0x18,
        frag_off: 0,
        marks: MARKS,
    };
    show(rt, "TCP", Request::Tcp(segment), &mut packet, 0)
}

fn udp(rt: &impl Print) -> io::Result<()> {
    let mut packet = [0u8; 37];
    let datagram = UdpDatagram {
        saddr: CAR,
        daddr: CORE,
        sport: 40000,
        dport: 80,
        frag_off: 0,
        csum: true,
        marks: MARKS,
    };
    show(rt, "UDP", Request::Udp(datagram), &mut packet, 20)
}

fn echo(rt: &impl Print) -> io::Result<()> {
    let mut packet = [0u8; 37];
    let echo = IcmpEcho {
        saddr: CAR,
        daddr: CORE,
        reply: false,
        seq: 7,
        marks: MARKS,
    };
    show(rt, "ICMP echo", Request::Echo(echo), &mut packet, 20)
}

// All of them.
fn each(rt: &impl Print) -> io::Result<()> {
    tcp(rt)?;
    udp(rt)?;
    echo(rt)
}

fn main(rt: HostRuntime) {
    let _ = each(&rt); // what cannot be written is not shown
}
