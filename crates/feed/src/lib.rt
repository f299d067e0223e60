// The lap feed: telemetry frames of one car, each a UDP datagram, cut for a link and written as records of a capture.
#![tactic(auto)]

ghost use Rattle.std.specs.Prelude.{◌≡◌, ◌+◌, ◌≤◌, length};
ghost use Rattle.pkt.specs.Answers.{says, most_udp};
ghost use Rattle.pkt.specs.Written.{written};
ghost use Rattle.ezpkt.specs.Build.{packet_of, udp_packet};
ghost use Rattle.ezpkt.specs.Ip4.{fragment_of};
ghost use Rattle.pcap.specs.Answers.{HeaderWritten};
ghost use Rattle.pcap.specs.Pcap.{record_bytes};
ghost use Rattle.feed.specs.Feed.{new_feed, feed_marked, next_feed, bad_link, frame_dgram, template_of, feed_answer, Feeds};
ghost use Rattle.feed.specs.Steps.{record_long, PieceAsks, AllAsks, records_from};

use ezpkt::build::{Request, UdpDatagram};
use ezpkt::ip4::Template;
use ezpkt::{Marks, SocketAddrV4, build, ip4};
use pkt::copying::copy;
use pkt::limit;
use pkt::refusal::Refusal;

const LEAST_LINK: u32 = 28;

const MOST_LINK: u32 = 65535;

// The feed of one car: the two ends, the link's size, the identification of the next datagram, and what every packet is marked with.
#[derive(Clone, Copy, Drop)]
pub struct Feed {
    pub car: SocketAddrV4,
    pub core: SocketAddrV4,
    pub link: u32,
    pub id: u16,
    pub marks: Marks,
}

// What a frame left: the feed after it, and how many bytes and pieces were written.
#[derive(Clone, Copy, Drop)]
pub struct Written {
    pub feed: Feed,
    pub bytes: usize,
    pub pieces: usize,
}

// A feed whose next datagram is its first.
pub fn new(car: SocketAddrV4, core: SocketAddrV4, link: u32) -> Feed
    ensures { result ≡ new_feed car core link }
{
    Feed {
        car,
        core,
        link,
        id: 0,
        marks: Marks::default(),
    }
}

// The feed with other marks on every packet from now on.
pub fn marked(feed: Feed, marks: Marks) -> Feed
    ensures { result ≡ feed_marked feed marks }
{
    Feed { marks, ..feed }
}

// The capture's file header at the start of out.
pub fn begin(out: &mut [u8]) -> Result<usize, Refusal>
    ensures { HeaderWritten out.old result out.new }
{
    pcap::write_header(out)
}

fn next(feed: Feed) -> Feed
    ensures { result ≡ next_feed feed }
{
    Feed {
        id: feed.id.wrapping_add(1),
        ..feed
    }
}

fn is_bad(link: u32) -> bool
    ensures { result ≡ bad_link link }
{
    link < LEAST_LINK || link > MOST_LINK
}

// Every refusal, in its order.
fn answer(link: u32, n: usize, usec: u32, scratch: usize, out: usize) -> Result<usize, Refusal>
    ensures { says result ≡ feed_answer link n usec scratch out }
{
    if n > limit::UDP_PAYLOAD {
        return Err(Refusal::TooLong);
    }
    if is_bad(link) {
        return Err(Refusal::BadLink);
    }
    if usec > 999999 {
        return Err(Refusal::BadTime);
    }
    let size = 36 * planner::count(8 + n, link as usize) + (8 + n);
    if scratch < 28 + n {
        return Err(Refusal::NoRoom);
    }
    if out < size {
        return Err(Refusal::NoRoom);
    }
    Ok(size)
}

fn template(feed: Feed) -> Template
    ensures { result ≡ template_of feed }
{
    let car = feed.car;
    let core = feed.core;
    let marks = feed.marks;
    Template {
        tos: marks.tos,
        id: feed.id,
        df: false,
        evil: false,
        ttl: marks.ttl,
        protocol: 17,
        saddr: car.ip,
        daddr: core.ip,
    }
}

fn dgram(feed: Feed) -> UdpDatagram
    ensures { result ≡ frame_dgram feed }
{
    let car = feed.car;
    let core = feed.core;
    let marks = feed.marks;
    UdpDatagram {
        saddr: car.ip,
        daddr: core.ip,
        sport: car.port,
        dport: core.port,
        frag_off: 0,
        csum: true,
        marks,
    }
}

// The datagram of a frame, at the start of the scratch buffer.
fn datagram(feed: Feed, bytes: &[u8], scratch: &mut [u8])
    requires { (length bytes.now ≤ most_udp) × (28 + length bytes.now ≤ length scratch.old) }
    ensures { scratch.new ≡ written (udp_packet (frame_dgram feed) bytes.now) scratch.old }
{
    let _ = build::build(Request::Udp(dgram(feed)), bytes, scratch);
}

// The record of a piece, at the start of out: how many bytes it has. (Template, payload, time and output go apart, as the calls below take them.)
fn put(
    template: Template,
    payload: &[u8],
    off: u16,
    len: u16,
    sec: u32,
    usec: u32,
    out: &mut [u8],
) -> usize
    requires { PieceAsks off len (length payload.now) (length out.old) }
    ensures { (result ≡ record_long off len (length payload.now))
        × (out.new ≡ written (record_bytes sec usec (packet_of (fragment_of template off len) payload.now)) out.old) }
{
    let size = ip4::fragment_size(off, len, payload.len());
    let header = pcap::record_header(sec, usec, size as u32);
    copy(&header, out);
    let _ = ip4::fragment(template, payload, off, len, &mut out[16..]);
    16 + size
}

// The records of so many pieces, at the start of out.
fn put_all(
    template: Template,
    payload: &[u8],
    blocks: u16,
    pieces: usize,
    sec: u32,
    usec: u32,
    out: &mut [u8],
)
    requires { AllAsks blocks pieces (length payload.now) (length out.old) }
    ensures { out.new ≡ written (records_from template payload.now blocks pieces 0 sec usec) out.old }
{
    let mut off: u16 = 0;
    let mut at = 0;
    for done in 0..pieces {
        let left = pieces - 1 - done;
        let len = planner::length_at(blocks as usize, left, off, payload.len()) as u16;
        at += put(template, payload, off, len, sec, usec, &mut out[at..]);
        off += blocks;
    }
}

// Appends one frame of telemetry at the start of out, its datagram built once in the scratch buffer, or refuses it and leaves both buffers as they were.
pub fn frame(
    feed: Feed,
    bytes: &[u8],
    sec: u32,
    usec: u32,
    scratch: &mut [u8],
    out: &mut [u8],
) -> Result<Written, Refusal>
    ensures { Feeds feed bytes.now sec usec scratch.old out.old result scratch.new out.new }
{
    let n = bytes.len();
    let link = feed.link;
    let size = answer(link, n, usec, scratch.len(), out.len())?;
    let pieces = planner::count(8 + n, link as usize);
    let blocks = ((link - 20) / 8) as u16;
    datagram(feed, bytes, scratch);
    put_all(
        template(feed),
        &scratch[20..28 + n],
        blocks,
        pieces,
        sec,
        usec,
        out,
    );
    Ok(Written {
        feed: next(feed),
        bytes: size,
        pieces,
    })
}
