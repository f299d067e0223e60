// The checksums of one packet, worked out anew.
ghost use Rattle.std.specs.Prelude.{◌≡◌, ◌+◌, ◌%◌, ◌≤◌, length, option_to_list};
ghost use Rattle.pkt.specs.Answers.{gives, most_ip};
ghost use Rattle.pkt.specs.Rfc1071.{checksum};
ghost use Rattle.pkt.specs.Rfc792.{echo_sum_at};
ghost use Rattle.inspect.specs.Answers.{whole};
ghost use Rattle.inspect.specs.Header.{field_at, frame_answer};
ghost use Rattle.inspect.specs.Check.{examine_answer};
ghost use Rattle.mending.specs.Sums.{renewed, ip_sum, PartAsks, behind_pseudo, field_of, part_fields, sums_in, sums_says};

use inspect::check;
use inspect::check::{Kind, Whole};
use inspect::header::IpRead;
use pkt::ipv4;
use pkt::ipv4::{icmp_echo_hdr, icmp_hdr, proto};

// A checksum's field of a packet: its place, the number that it holds, and the number that belongs there.
#[derive(Clone, Copy, Drop)]
pub struct SumField {
    pub at: usize,
    pub old: u16,
    pub new: u16,
}

// The fields of a packet that are worked out anew: the header's, and the transport's where it has one that is summed.
#[derive(Clone, Copy, Drop)]
pub struct Sums {
    pub ip: SumField,
    pub part: Option<SumField>,
}

// The number in two bytes, as inspect has it for itself: public there, this one line would need a row and wrong programs of its own.
#[tactic(auto, using(inspect::proofs::Numbers::field_two))]
fn be16(s: &[u8], at: usize) -> u16
    requires { at + 2 ≤ length s.now }
    ensures { result ≡ field_at s.now at 2 }
{
    u16::from_be_bytes([s[at], s[at + 1]])
}

// Where the checksum stands in a header.
const IP_SUM: usize = 10;

const TCP_SUM: usize = 16;

const UDP_SUM: usize = 6;

const ICMP_SUM: usize = 2;

// A field of a packet, and the number that belongs there.
fn field(packet: &[u8], at: usize, new: u16) -> SumField
    requires { at + 2 ≤ length packet.now }
    ensures { result ≡ field_of packet.now at new }
{
    SumField {
        at,
        old: be16(packet, at),
        new,
    }
}

// A checksum without one of the words that it was taken of: what that word took from it is given back.
fn without(csum: u16, word: u16) -> u16
    ensures { result ≡ (csum + word) % 65535 }
{
    ((csum as u32 + word as u32) % 65535) as u16
}

// The number that belongs into a header's field.
fn ip_sum(h: IpRead, packet: &[u8]) -> u16
    requires { frame_answer packet.now ≡ gives h }
    ensures { result ≡ ip_sum h packet.now }
{
    let start = h.start;
    let csum = ipv4::ip_csum(&packet[0..start]).unwrap_or(0);
    without(csum, be16(packet, IP_SUM))
}

// The number that belongs into the field at a place of a transport part behind its pseudo header.
fn behind_pseudo(h: IpRead, protocol: u8, at: usize, part: &[u8]) -> u16
    requires { PartAsks protocol at part.now }
    ensures { result ≡ behind_pseudo protocol at h part.now }
{
    let csum = ipv4::transport_csum(h.saddr, h.daddr, protocol, part).unwrap_or(0);
    without(csum, be16(part, at))
}

// The number that belongs into the field of an ICMP message, which may be all zero.
fn icmp_sum(part: &[u8]) -> u16
    requires { (8 ≤ length part.now) × (length part.now ≤ most_ip) }
    ensures { result ≡ checksum (renewed echo_sum_at 0 part.now) }
{
    let h = icmp_hdr {
        typ: part[0],
        code: part[1],
    };
    let echo = icmp_echo_hdr {
        id: be16(part, 4),
        seq: be16(part, 6),
    };
    ipv4::icmp_csum(h, echo, &part[8..]).unwrap_or(0)
}

// The transport's field of a packet with this header and of this kind, where it is summed.
#[tactic(auto, using(crate::proofs::Wholes::places), unfolding(crate::specs::Sums::part_fields))]
fn part_field(h: IpRead, kind: Kind, packet: &[u8]) -> Option<SumField>
    requires { examine_answer packet.now ≡ gives (whole h kind) }
    ensures { option_to_list result ≡ part_fields kind h packet.now }
{
    let start = h.start;
    let end = h.end;
    let part = &packet[start..end];
    match kind {
        Kind::Tcp => Some(field(
            packet,
            start + TCP_SUM,
            behind_pseudo(h, proto::TCP, TCP_SUM, part),
        )),
        Kind::Udp => Some(field(
            packet,
            start + UDP_SUM,
            ipv4::nonzero(behind_pseudo(h, proto::UDP, UDP_SUM, part)),
        )),
        Kind::Bare => None,
        Kind::Icmp => Some(field(packet, start + ICMP_SUM, icmp_sum(part))),
    }
}

// The fields of a packet that are worked out anew, if it is one that the check up to its sums would not refuse.
#[tactic(auto, unfolding(crate::specs::Sums::sums_in))]
pub(crate) fn sums_in(packet: &[u8]) -> Option<Sums>
    ensures { sums_says result ≡ sums_in packet.now }
{
    let Whole { header, kind } = check::examine(packet).ok()?;
    Some(Sums {
        ip: field(packet, IP_SUM, ip_sum(header, packet)),
        part: part_field(header, kind, packet),
    })
}
