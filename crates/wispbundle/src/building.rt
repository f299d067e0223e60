// One call for each kind of packet, and pieces by name.
ghost use Rattle.std.specs.Prelude.{◌≡◌, length};
ghost use Rattle.ezpkt.specs.Ip4.{fragment_of, tail_of, datagram_of};
ghost use Rattle.ezpkt.specs.declared.build.Request.TheVariants.{Tcp, Udp, Echo, Piece};
ghost use Rattle.pkt.specs.Answers.{list_says};
ghost use Rattle.wispbundle.specs.Answers.{listed_for};
ghost use Rattle.wispbundle.specs.Calls.{Builds, Cuts};

use crate::lengths::wb_length;
use ezpkt::build::{IcmpEcho, IpPiece, Request, TcpSegment, UdpDatagram};
use ezpkt::ip4::Template;
use ezpkt::{build, ip4};
use pieces::BlockRequest;
use pkt::refusal::ListRefusal;

pub fn wb_build_tcp(segment: TcpSegment, payload: &[u8], out: &mut [u8]) -> wb_length
    ensures { Builds (Tcp segment) payload.now out.old result out.new }
{
    build::build(Request::Tcp(segment), payload, out).into()
}

pub fn wb_build_udp(datagram: UdpDatagram, payload: &[u8], out: &mut [u8]) -> wb_length
    ensures { Builds (Udp datagram) payload.now out.old result out.new }
{
    build::build(Request::Udp(datagram), payload, out).into()
}

pub fn wb_build_icmp(echo: IcmpEcho, payload: &[u8], out: &mut [u8]) -> wb_length
    ensures { Builds (Echo echo) payload.now out.old result out.new }
{
    build::build(Request::Echo(echo), payload, out).into()
}

pub fn wb_build_piece(piece: IpPiece, payload: &[u8], out: &mut [u8]) -> wb_length
    ensures { Builds (Piece piece) payload.now out.old result out.new }
{
    build::build(Request::Piece(piece), payload, out).into()
}

pub fn wb_fragment(
    template: Template,
    payload: &[u8],
    off: u16,
    len: u16,
    out: &mut [u8],
) -> wb_length
    ensures { Builds (fragment_of template off len) payload.now out.old result out.new }
{
    ip4::fragment(template, payload, off, len, out).into()
}

pub fn wb_tail(template: Template, payload: &[u8], off: u16, out: &mut [u8]) -> wb_length
    ensures { Builds (tail_of template off (length payload.now)) payload.now out.old result out.new }
{
    ip4::tail(template, payload, off, out).into()
}

pub fn wb_datagram(template: Template, payload: &[u8], out: &mut [u8]) -> wb_length
    ensures { Builds (datagram_of template (length payload.now)) payload.now out.old result out.new }
{
    ip4::datagram(template, payload, out).into()
}

// How many bytes were written for a list, or the refusal, with the index of the first of the list that it is for where it is for one.
#[repr(C)]
#[derive(Clone, Copy, Drop)]
pub struct wb_listed {
    pub status: u8,
    pub length: usize,
    pub index: usize,
}

impl From<Result<usize, ListRefusal>> for wb_listed {
    ghost from_gives = { λ answer told. told ≡ listed_for (list_says answer) };

    fn from(answer: Result<usize, ListRefusal>) -> Self {
        match answer {
            Ok(length) => wb_listed {
                status: crate::ACCEPTED,
                length,
                index: 0,
            },
            Err(ListRefusal::Whole(refusal)) => wb_listed {
                status: refusal.number(),
                length: 0,
                index: 0,
            },
            Err(ListRefusal::At(refusal, index)) => wb_listed {
                status: refusal.number(),
                length: 0,
                index,
            },
        }
    }
}

pub fn wb_fragments(
    template: Template,
    payload: &[u8],
    list: &[BlockRequest],
    out: &mut [u8],
    ends: &mut [usize],
) -> wb_listed
    ensures { Cuts template list.now payload.now out.old ends.old result out.new ends.new }
{
    pieces::fragments(template, payload, list, out, ends).into()
}
