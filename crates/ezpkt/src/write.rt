// The writers behind a decision: what they are asked for is known to fit.
ghost use Rattle.std.specs.Prelude.{◌≡◌, ◌+◌, ◌≤◌, min, ◌++◌, length};
ghost use Rattle.pkt.specs.Written.{written};
ghost use Rattle.pkt.specs.Answers.{gives, most_tcp, most_udp, most_ip};
ghost use Rattle.pkt.specs.Rfc791.{ip_header};
ghost use Rattle.ezpkt.specs.Build.{flow_ip, echo_type, start_at, end_at, piece_flags, piece_ip, flag_bit, tcp_packet, udp_packet, echo_packet, piece_packet, packet_of, answer_of, size_of};
ghost use Rattle.ezpkt.specs.declared.build.Request.TheVariants.{Piece};

use crate::Marks;
use crate::build::{IcmpEcho, IpPiece, Request, TcpSegment, UdpDatagram};
use pkt::copying::copy;
use pkt::ipv4;
use pkt::ipv4::{icmp_echo_hdr, icmp_hdr, ip_hdr, udp_hdr};

// src at the start of dst, whose other bytes stay.
fn put(src: &[u8], dst: &mut [u8])
    requires { length src.now ≤ length dst.old }
    ensures { dst.new ≡ written src.now dst.old }
{
    copy(src, dst);
}

// An IPv4 header, a transport header and a payload, end to end.
fn put_all(ip: &[u8; 20], head: &[u8], payload: &[u8], out: &mut [u8])
    requires { 20 + length head.now + length payload.now ≤ length out.old }
    ensures { out.new ≡ written (ip.now ++ (head.now ++ payload.now)) out.old }
{
    put(ip, out);
    put(head, &mut out[20..]);
    let at = 20 + head.len();
    put(payload, &mut out[at..]);
}

// The IPv4 header of a packet that has no template.
fn flow_ip(marks: Marks, protocol: u8, size: u16, frag_off: u16, saddr: u32, daddr: u32) -> [u8; 20]
    ensures { result ≡ ip_header (flow_ip marks protocol size frag_off saddr daddr) }
{
    let ip = ip_hdr {
        tos: marks.tos,
        ttl: marks.ttl,
        tot_len: size,
        frag_off,
        protocol,
        saddr,
        daddr,
        ..ip_hdr::default()
    };
    ip.to_bytes()
}

// tcp, udp and echo stay three, as the checksums do: header, sum, protocol and flags field all differ.
fn tcp(t: TcpSegment, payload: &[u8], out: &mut [u8])
    requires { (length payload.now ≤ most_tcp) × (40 + length payload.now ≤ length out.old) }
    ensures { out.new ≡ written (tcp_packet t payload.now) out.old }
{
    let h = t.hdr();
    let csum = ipv4::tcp_csum(t.saddr, t.daddr, h, payload).unwrap_or(0);
    let ip = flow_ip(
        t.marks,
        ipv4::proto::TCP,
        (40 + payload.len()) as u16,
        t.frag_off,
        t.saddr,
        t.daddr,
    );
    let head = h.to_bytes(csum);
    put_all(&ip, &head, payload, out);
}

fn udp(u: UdpDatagram, payload: &[u8], out: &mut [u8])
    requires { (length payload.now ≤ most_udp) × (28 + length payload.now ≤ length out.old) }
    ensures { out.new ≡ written (udp_packet u payload.now) out.old }
{
    let n = payload.len();
    let h = udp_hdr {
        sport: u.sport,
        dport: u.dport,
        len: (8 + n) as u16,
    };
    let csum = ipv4::udp_csum(u.saddr, u.daddr, h, payload).unwrap_or(0);
    let ip = flow_ip(
        u.marks,
        ipv4::proto::UDP,
        (28 + n) as u16,
        u.frag_off,
        u.saddr,
        u.daddr,
    );
    let head = h.to_bytes(csum);
    put_all(&ip, &head, payload, out);
}

fn echo_type(reply: bool) -> u8
    ensures { result ≡ echo_type reply }
{
    if reply {
        ipv4::ICMP_ECHOREPLY
    } else {
        ipv4::ICMP_ECHO
    }
}

fn echo(e: IcmpEcho, payload: &[u8], out: &mut [u8])
    requires { (length payload.now ≤ most_udp) × (28 + length payload.now ≤ length out.old) }
    ensures { out.new ≡ written (echo_packet e payload.now) out.old }
{
    let h = icmp_hdr::new(echo_type(e.reply));
    let numbers = icmp_echo_hdr::new(e.seq);
    let csum = ipv4::icmp_csum(h, numbers, payload).unwrap_or(0);
    let ip = flow_ip(
        e.marks,
        ipv4::proto::ICMP,
        (28 + payload.len()) as u16,
        0,
        e.saddr,
        e.daddr,
    );
    let head = h.to_bytes(numbers, csum);
    put_all(&ip, &head, payload, out);
}

// From which byte of a payload up to which a piece goes.
#[derive(Clone, Copy, Drop)]
pub struct Span {
    pub start: usize,
    pub end: usize,
}

pub(crate) fn span_of(off: u16, len: u16, n: usize) -> Span
    ensures { (result.start ≡ start_at off n) × (result.end ≡ end_at off len n) }
{
    let from = 8 * (off as usize);
    Span {
        start: from.min(n),
        end: (from + 8 * (len as usize)).min(n),
    }
}

// The bit n where on holds, and no bit where it does not.
fn bit(on: bool, n: u16) -> u16
    ensures { (result ≡ flag_bit on n) × (result ≤ n) }
{
    if on { n } else { 0 }
}

// The bound of the offset is asked here and below, and is no invariant of IpPiece: it crosses to C with any offset, and 2 refuses it.
fn piece_flags(q: IpPiece, more: bool) -> u16
    requires { q.off ≤ 8191 }
    ensures { result ≡ piece_flags q more }
{
    let t = q.template;
    let evil = bit(t.evil, ipv4::flags::EVIL);
    let df = bit(t.df, ipv4::flags::DF);
    let mf = bit(more, ipv4::flags::MF);
    evil + df + mf + q.off
}

fn piece_ip(q: IpPiece, size: u16, more: bool) -> [u8; 20]
    requires { q.off ≤ 8191 }
    ensures { result ≡ ip_header (piece_ip q size more) }
{
    let t = q.template;
    let ip = ip_hdr {
        tos: t.tos,
        tot_len: size,
        id: t.id,
        frag_off: piece_flags(q, more),
        ttl: t.ttl,
        protocol: t.protocol,
        saddr: t.saddr,
        daddr: t.daddr,
    };
    ip.to_bytes()
}

fn piece(q: IpPiece, payload: &[u8], out: &mut [u8])
    requires { (length payload.now ≤ most_ip) × (q.off ≤ 8191) × (size_of (Piece q) (length payload.now) ≤ length out.old) }
    ensures { out.new ≡ written (piece_packet q payload.now) out.old }
{
    let n = payload.len();
    let span = span_of(q.off, q.len, n);
    let start = span.start;
    let end = span.end;
    let ip = piece_ip(q, (20 + (end - start)) as u16, end != n);
    put(&ip, out);
    put(&payload[start..end], &mut out[20..]);
}

pub(crate) fn packet(req: Request, payload: &[u8], out: &mut [u8])
    requires { answer_of req (length payload.now) (length out.old) ≡ gives (size_of req (length payload.now)) }
    ensures { out.new ≡ written (packet_of req payload.now) out.old }
{
    match req {
        Request::Tcp(t) => tcp(t, payload, out),
        Request::Udp(u) => udp(u, payload, out),
        Request::Echo(e) => echo(e, payload, out),
        Request::Piece(q) => piece(q, payload, out),
    }
}
