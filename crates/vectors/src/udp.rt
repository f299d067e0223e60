// Kinds 20 to 23: UDP datagrams.
use crate::state::Now;
use crate::{fields, payload, state};
use ezpkt::SocketAddrV4;
use ezpkt::part::back;
use ezpkt::udp4::{Choices, UdpFlow};
use pkt::refusal::Refusal;

// An address and a port.
pub(crate) fn socket(b: &[u8]) -> SocketAddrV4 {
    SocketAddrV4 {
        ip: fields::four(b, 0),
        port: fields::two(b, 4),
    }
}

// Whether every bit has a meaning, and what was not chosen is 0.
fn is_choice(a: &[u8], frag_off: u16) -> bool {
    let bits = fields::byte(a, 0);
    let has_ip = fields::four(a, 1) != 0;
    let other_ip = bits & 1 != 0;
    let other_frag_off = bits & 2 != 0;
    bits < 8 && (other_ip || !has_ip) && (other_frag_off || frag_off == 0)
}

// Whether the case asks for a datagram without checksum. The Rust builds it; here it is refused (document 02,
// T-09).
pub(crate) fn is_retired(kind: u8, b: &[u8]) -> bool {
    let bits = fields::byte(payload::behind(kind, b), 0);
    kind / 16 == 2 && bits & 4 == 0
}

// The choices that a begins with, and a number for frag_off.
fn chosen(a: &[u8], frag_off: u16) -> Choices {
    let bits = fields::byte(a, 0);
    Choices {
        srcip: (bits & 1 != 0).then_some(fields::four(a, 1)),
        frag_off,
        csum: bits & 4 != 0,
    }
}

fn dgram(
    kind: u8,
    flow: UdpFlow,
    bytes: &[u8],
    c: Choices,
    out: &mut [u8],
) -> Result<usize, Refusal> {
    if kind % 2 == 0 {
        return flow.client_dgram(bytes, c, out);
    }
    flow.server_dgram(bytes, c, out)
}

// The datagram of the case with this number for frag_off.
pub(crate) fn sent(
    now: Now,
    kind: u8,
    b: &[u8],
    bytes: &[u8],
    frag_off: u16,
    out: &mut [u8],
) -> Now {
    let a = payload::behind(kind, b);
    if !is_choice(a, frag_off) {
        return now;
    }
    let flow = UdpFlow::new(socket(b), socket(back(b, 6)));
    state::built(now, dgram(kind, flow, bytes, chosen(a, frag_off), out))
}
