// Pieces of an IPv4 payload.
ghost use Rattle.std.specs.Prelude.{◌≡◌, ◌%◌, length};
ghost use Rattle.ezpkt.specs.Build.{fragment_size, Answered};
ghost use Rattle.ezpkt.specs.Ip4.{fragment_of, tail_of, datagram_of};

use crate::build::{IpPiece, Request};
use crate::{build, write};
use pkt::refusal::Refusal;

// What every piece of a payload says in its header.
#[repr(C)]
#[derive(Clone, Copy, Drop)]
pub struct Template {
    pub tos: u8,
    pub id: u16,
    pub df: bool,
    pub evil: bool,
    pub ttl: u8,
    pub protocol: u8,
    pub saddr: u32,
    pub daddr: u32,
}

// The length of the packet with len blocks from block off of a payload of n bytes, as far as they are there.
pub fn fragment_size(off: u16, len: u16, n: usize) -> usize
    ensures { result ≡ fragment_size off len n }
{
    let span = write::span_of(off, len, n);
    20 + (span.end - span.start)
}

// len blocks of the payload from block off, as far as they are there.
pub fn fragment(
    template: Template,
    payload: &[u8],
    off: u16,
    len: u16,
    out: &mut [u8],
) -> Result<usize, Refusal>
    ensures { Answered (fragment_of template off len) payload.now out.old result out.new }
{
    build::build(Request::Piece(IpPiece { template, off, len }), payload, out)
}

// All of the payload from block off. (The length is told modulo 65,536, as tail_of tells it: a longer payload is refused whatever it is.)
pub fn tail(template: Template, payload: &[u8], off: u16, out: &mut [u8]) -> Result<usize, Refusal>
    ensures { Answered (tail_of template off (length payload.now)) payload.now out.old result out.new }
{
    let len = (payload.len() % 65536) as u16;
    build::build(Request::Piece(IpPiece { template, off, len }), payload, out)
}

// The whole payload.
pub fn datagram(template: Template, payload: &[u8], out: &mut [u8]) -> Result<usize, Refusal>
    ensures { Answered (datagram_of template (length payload.now)) payload.now out.old result out.new }
{
    tail(template, payload, 0, out)
}
