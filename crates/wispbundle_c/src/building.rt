// One call for each kind of packet, and pieces by name.
ghost use Rattle.std.specs.Prelude.{length};
ghost use Rattle.ezpkt.specs.Ip4.{fragment_of, tail_of, datagram_of};
ghost use Rattle.ezpkt.specs.declared.build.Request.TheVariants.{Tcp, Udp, Echo, Piece};
ghost use Rattle.wispbundle.specs.Calls.{Builds, Cuts};

use ezpkt::build::{IcmpEcho, IpPiece, TcpSegment, UdpDatagram};
use ezpkt::ip4::Template;
use pieces::BlockRequest;
use wispbundle::building as library;
use wispbundle::building::wb_listed;
use wispbundle::lengths::wb_length;

#[unsafe(no_mangle)]
pub extern "C" fn wb_build_tcp(segment: TcpSegment, payload: &[u8], out: &mut [u8]) -> wb_length
    ensures { Builds (Tcp segment) payload.now out.old result out.new }
{
    library::wb_build_tcp(segment, payload, out)
}

#[unsafe(no_mangle)]
pub extern "C" fn wb_build_udp(datagram: UdpDatagram, payload: &[u8], out: &mut [u8]) -> wb_length
    ensures { Builds (Udp datagram) payload.now out.old result out.new }
{
    library::wb_build_udp(datagram, payload, out)
}

#[unsafe(no_mangle)]
pub extern "C" fn wb_build_icmp(echo: IcmpEcho, payload: &[u8], out: &mut [u8]) -> wb_length
    ensures { Builds (Echo echo) payload.now out.old result out.new }
{
    library::wb_build_icmp(echo, payload, out)
}

#[unsafe(no_mangle)]
pub extern "C" fn wb_build_piece(piece: IpPiece, payload: &[u8], out: &mut [u8]) -> wb_length
    ensures { Builds (Piece piece) payload.now out.old result out.new }
{
    library::wb_build_piece(piece, payload, out)
}

#[unsafe(no_mangle)]
pub extern "C" fn wb_fragment(
    template: Template,
    payload: &[u8],
    off: u16,
    len: u16,
    out: &mut [u8],
) -> wb_length
    ensures { Builds (fragment_of template off len) payload.now out.old result out.new }
{
    library::wb_fragment(template, payload, off, len, out)
}

#[unsafe(no_mangle)]
pub extern "C" fn wb_tail(template: Template, payload: &[u8], off: u16, out: &mut [u8]) -> wb_length
    ensures { Builds (tail_of template off (length payload.now)) payload.now out.old result out.new }
{
    library::wb_tail(template, payload, off, out)
}

#[unsafe(no_mangle)]
pub extern "C" fn wb_datagram(template: Template, payload: &[u8], out: &mut [u8]) -> wb_length
    ensures { Builds (datagram_of template (length payload.now)) payload.now out.old result out.new }
{
    library::wb_datagram(template, payload, out)
}

#[unsafe(no_mangle)]
pub extern "C" fn wb_fragments(
    template: Template,
    payload: &[u8],
    list: &[BlockRequest],
    out: &mut [u8],
    ends: &mut [usize],
) -> wb_listed
    ensures { Cuts template list.now payload.now out.old ends.old result out.new ends.new }
{
    library::wb_fragments(template, payload, list, out, ends)
}
