// One request to build names one kind of packet.
ghost use Rattle.std.specs.Prelude.{◌≡◌, ◌≤◌};
ghost use Rattle.pkt.specs.Answers.{says, most_ip};
ghost use Rattle.ezpkt.specs.Build.{tcp_hdr_of, sized_answer, datagram_answer, fragment_answer, answer_of, Answered};

use crate::ip4::Template;
use crate::{Marks, ip4, write};
use pkt::ipv4::tcp_hdr;
use pkt::limit;
use pkt::refusal::Refusal;

// A TCP segment between two addresses and ports.
#[repr(C)]
#[derive(Clone, Copy, Drop)]
pub struct TcpSegment {
    pub saddr: u32,
    pub daddr: u32,
    pub sport: u16,
    pub dport: u16,
    pub seq: u32,
    pub ack: u32,
    pub flags: u8,
    pub frag_off: u16,
    pub marks: Marks,
}

impl TcpSegment {
    // The segment's TCP header. (No From: hdr is public, with a promise of its own.)
    pub fn hdr(self) -> tcp_hdr
        ensures { result ≡ tcp_hdr_of self }
    {
        tcp_hdr {
            sport: self.sport,
            dport: self.dport,
            seq: self.seq,
            ack: self.ack,
            flags: self.flags,
        }
    }
}

// A UDP datagram between two addresses and ports. One for which no checksum is asked is refused.
#[repr(C)]
#[derive(Clone, Copy, Drop)]
pub struct UdpDatagram {
    pub saddr: u32,
    pub daddr: u32,
    pub sport: u16,
    pub dport: u16,
    pub frag_off: u16,
    pub csum: bool,
    pub marks: Marks,
}

// An ICMP echo, or the reply to one, with its number.
#[repr(C)]
#[derive(Clone, Copy, Drop)]
pub struct IcmpEcho {
    pub saddr: u32,
    pub daddr: u32,
    pub reply: bool,
    pub seq: u16,
    pub marks: Marks,
}

// A piece of an IPv4 payload: len blocks of 8 bytes from block off.
#[repr(C)]
#[derive(Clone, Copy, Drop)]
pub struct IpPiece {
    pub template: Template,
    pub off: u16,
    pub len: u16,
}

#[derive(Clone, Copy, Drop)]
pub enum Request {
    Tcp(TcpSegment),
    Udp(UdpDatagram),
    Echo(IcmpEcho),
    Piece(IpPiece),
}

// The length of a packet of head bytes and n more, of which there may be at most most.
fn sized(most: usize, head: usize, n: usize, room: usize) -> Result<usize, Refusal>
    requires { (most ≤ most_ip) × (head ≤ 40) }
    ensures { says result ≡ sized_answer most head n room }
{
    if n > most {
        return Err(Refusal::TooLong);
    }
    let size = head + n;
    if room < size {
        return Err(Refusal::NoRoom);
    }
    Ok(size)
}

fn sized_datagram(u: UdpDatagram, n: usize, room: usize) -> Result<usize, Refusal>
    ensures { says result ≡ datagram_answer u n room }
{
    if u.csum {
        return sized(limit::UDP_PAYLOAD, 28, n, room);
    }
    Err(Refusal::NoChecksum)
}

fn sized_piece(q: IpPiece, n: usize, room: usize) -> Result<usize, Refusal>
    ensures { says result ≡ fragment_answer q n room }
{
    let off = q.off;
    if n > limit::IP_PAYLOAD {
        return Err(Refusal::TooLong);
    }
    if off > limit::OFFSET {
        return Err(Refusal::BadOffset);
    }
    let size = ip4::fragment_size(off, q.len, n);
    if room < size {
        return Err(Refusal::NoRoom);
    }
    Ok(size)
}

// What build answers for a payload of n bytes and an output of room bytes, the packet's length or a refusal, with nothing written.
pub fn answer(req: Request, n: usize, room: usize) -> Result<usize, Refusal>
    ensures { says result ≡ answer_of req n room }
{
    match req {
        Request::Tcp(_) => sized(limit::TCP_PAYLOAD, 40, n, room),
        Request::Udp(u) => sized_datagram(u, n, room),
        Request::Echo(_) => sized(limit::UDP_PAYLOAD, 28, n, room),
        Request::Piece(q) => sized_piece(q, n, room),
    }
}

// Builds the packet at the start of out and answers its length, or refuses and leaves out as it was.
pub fn build(req: Request, payload: &[u8], out: &mut [u8]) -> Result<usize, Refusal>
    ensures { Answered req payload.now out.old result out.new }
{
    let len = answer(req, payload.len(), out.len())?;
    write::packet(req, payload, out);
    Ok(len)
}
