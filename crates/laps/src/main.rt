// Frames of each kind and every refusal of a lap feed, run: standard output is one capture, and what the last frame carries are the numbers that
// the refused ones before it were answered.
#![tactic(auto)]

mod refused;

use ezpkt::part::{back, front};
use ezpkt::{Marks, SocketAddrV4};
use feed::{Feed, Written};
use pkt::refusal::Refusal;
use std::io::Error;

const CORE: SocketAddrV4 = SocketAddrV4 {
    ip: 0x0a000002,
    port: 6000,
};

// Byte i is i modulo 251.
fn fill(out: &mut [u8]) {
    for (i, b) in out.iter_mut().enumerate() {
        *b = (i % 251) as u8;
    }
}

// Writes out what a frame left at the start of a buffer, and answers the feed after it.
fn show(
    rt: &impl Print,
    feed: Feed,
    fed: Result<Written, Refusal>,
    out: &[u8],
) -> Result<Feed, Error> {
    match fed {
        Ok(written) => {
            rt.write_all(front(out, written.bytes))?;
            Ok(written.feed)
        }
        Err(_) => Ok(feed),
    }
}

// A frame, with room for any over a link of 65,535. (Not inlined, nor is refused::each: so the room of only one of them
// is on the stack at a time.)
#[inline(never)]
fn send(rt: &impl Print, feed: Feed, bytes: &[u8], sec: u32, usec: u32) -> Result<Feed, Error> {
    let mut scratch = [0u8; 65535];
    let mut out = [0u8; 65551];
    let fed = feed::frame(feed, bytes, sec, usec, &mut scratch, &mut out);
    show(rt, feed, fed, &out)
}

fn car(ip: u32) -> SocketAddrV4 {
    SocketAddrV4 { ip, port: 5000 }
}

// The first frame of a car over this link.
fn first(rt: &impl Print, ip: u32, link: u32, bytes: &[u8], sec: u32) -> Result<(), Error> {
    send(rt, feed::new(car(ip), CORE, link), bytes, sec, 0)?;
    Ok(())
}

// Three laps, each a byte further on in the telemetry: three pieces each.
fn three(rt: &impl Print, bytes: &[u8]) -> Result<Feed, Error> {
    let one = feed::new(car(0x0a000001), CORE, 1500);
    let two = send(rt, one, front(bytes, 3480), 0, 0)?;
    let last = send(rt, two, front(back(bytes, 1), 3480), 0, 4166)?;
    send(rt, last, front(back(bytes, 2), 3480), 0, 8333)
}

// 12 bytes over a link of 32, which go as 8 and 12, with just the room that they take.
fn twelve(rt: &impl Print, bytes: &[u8]) -> Result<(), Error> {
    let mut scratch = [0u8; 40];
    let mut out = [0u8; 92];
    let feed = feed::new(car(0x0a000102), CORE, 32);
    let fed = feed::frame(feed, bytes, 2, 0, &mut scratch, &mut out);
    show(rt, feed, fed, &out)?;
    Ok(())
}

// The identification after 65,535 is 0.
fn wrap(rt: &impl Print, bytes: &[u8]) -> Result<(), Error> {
    let feed = Feed {
        id: 65535,
        ..feed::new(car(0x0a000106), CORE, 28)
    };
    let next = send(rt, feed, front(bytes, 1), 6, 0)?;
    send(rt, next, front(bytes, 2), 6, 999999)?;
    Ok(())
}

// Two frames with another type of service and time to live, the first in three pieces.
fn marked(rt: &impl Print, bytes: &[u8]) -> Result<(), Error> {
    let plain = feed::new(car(0x0a000108), CORE, 60);
    let feed = feed::marked(plain, Marks { tos: 184, ttl: 3 });
    let next = send(rt, feed, front(bytes, 100), 8, 0)?;
    send(rt, next, front(bytes, 12), 8, 4166)?;
    Ok(())
}

fn header(rt: &impl Print) -> Result<(), Error> {
    let mut out = [0u8; 24];
    let _ = feed::begin(&mut out);
    rt.write_all(&out)
}

fn run(rt: &impl Print, bytes: &[u8]) -> Result<(), Error> {
    let feed = three(rt, bytes)?;
    first(rt, 0x0a000101, 28, front(bytes, 40), 1)?;
    twelve(rt, front(bytes, 12))?;
    first(rt, 0x0a000103, 1500, front(bytes, 0), 3)?;
    first(rt, 0x0a000104, 1500, front(bytes, 1472), 4)?;
    first(rt, 0x0a000105, 1500, front(bytes, 1473), 5)?;
    wrap(rt, bytes)?;
    first(rt, 0x0a000107, 65535, front(bytes, 65507), 7)?;
    marked(rt, bytes)?;
    let numbers = refused::each(feed, bytes, front(bytes, 12));
    send(rt, feed, &numbers, 4294967295, 0)?;
    Ok(())
}

// All of them.
fn each(rt: &impl Print) -> Result<(), Error> {
    let mut bytes = [0u8; 65508];
    fill(&mut bytes);
    header(rt)?;
    run(rt, &bytes)
}

fn main(rt: HostRuntime) {
    let _ = each(&rt); // what cannot be written is not shown
}
