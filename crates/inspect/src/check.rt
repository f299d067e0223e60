// The check of a finished packet, in two steps: what kind of packet it is and whether it is whole,
// and whether its sums verify.
ghost use Rattle.std.specs.Prelude.{◌≡◌, ◌≤◌, length};
ghost use Rattle.pkt.specs.Answers.{says, most_ip};
ghost use Rattle.inspect.specs.Check.{is_piece, is_other, tcp_cut, udp_cut, is_cut, kind_of, whole_answer, verifies_behind_pseudo, unless_bad, verdict_of, part_answer, check_answer, examine_answer};

use crate::header;
use crate::header::IpRead;
use pkt::ipv4;
use pkt::ipv4::proto;
use pkt::refusal::Refusal;

// The kinds of whole packets. Bare is UDP with a checksum field of 0.
#[derive(Clone, Copy, Drop)]
pub enum Kind {
    Tcp,
    Udp,
    Bare,
    Icmp,
}

// A whole packet's header and kind.
#[derive(Clone, Copy, Drop)]
pub struct Whole {
    pub header: IpRead,
    pub kind: Kind,
}

// What the check says of a packet that it does not refuse: NoChecksum of UDP with a checksum field of 0.
#[derive(Clone, Copy, PartialEq, Eq, Drop)]
pub enum Verdict {
    Good,
    NoChecksum,
}

fn is_piece(h: IpRead) -> bool
    ensures { result ≡ is_piece h }
{
    h.mf || h.off != 0
}

// The protocol stays the header's number here and below, and is no Kind: it may be any number, and 12 refuses those that are of no Kind.
fn is_other(protocol: u8) -> bool
    ensures { result ≡ is_other protocol }
{
    if protocol == proto::ICMP {
        return false;
    }
    if protocol == proto::TCP {
        return false;
    }
    protocol != proto::UDP
}

pub(crate) fn tcp_cut(part: &[u8]) -> bool
    ensures { result ≡ tcp_cut part.now }
{
    if part.len() < 20 {
        return true;
    }
    header::be8(part, 12) != 0x50
}

fn udp_cut(part: &[u8]) -> bool
    ensures { result ≡ udp_cut part.now }
{
    let n = part.len();
    if n < 8 {
        return true;
    }
    header::be16(part, 4) as usize != n
}

fn is_cut(protocol: u8, part: &[u8]) -> bool
    ensures { result ≡ is_cut protocol part.now }
{
    if protocol == proto::TCP {
        return tcp_cut(part);
    }
    if protocol == proto::UDP {
        return udp_cut(part);
    }
    part.len() < 8
}

fn kind_of(protocol: u8, part: &[u8]) -> Kind
    requires { 8 ≤ length part.now }
    ensures { result ≡ kind_of protocol part.now }
{
    if protocol == proto::TCP {
        return Kind::Tcp;
    }
    if protocol != proto::UDP {
        return Kind::Icmp;
    }
    if header::be16(part, 6) == 0 {
        return Kind::Bare;
    }
    Kind::Udp
}

// The first step: what kind of packet a header and its data part are, and whether it is whole.
#[tactic(auto, unfolding(crate::specs::Check::whole_answer))]
fn whole_kind(h: IpRead, part: &[u8]) -> Result<Kind, Refusal>
    ensures { says result ≡ whole_answer h part.now }
{
    let piece = is_piece(h);
    let other = is_other(h.protocol);
    if piece {
        return Err(Refusal::Piece);
    }
    if other {
        return Err(Refusal::OtherProtocol);
    }
    if is_cut(h.protocol, part) {
        return Err(Refusal::Cut);
    }
    Ok(kind_of(h.protocol, part))
}

// `length part ≤ most_ip` is asked here and of sums and both: a slice of a packet has no type of its own that could keep it.
// Whether a transport part verifies behind the pseudo header with the addresses of its header.
fn verify_part(h: IpRead, protocol: u8, part: &[u8]) -> bool
    requires { length part.now ≤ most_ip }
    ensures { result ≡ verifies_behind_pseudo h protocol part.now }
{
    header::is_zero(ipv4::transport_csum(h.saddr, h.daddr, protocol, part))
}

fn unless_bad(good: bool) -> Result<Verdict, Refusal>
    ensures { says result ≡ unless_bad good }
{
    if good {
        Ok(Verdict::Good)
    } else {
        Err(Refusal::BadSum)
    }
}

// The second step: whether the sums of a whole packet of this kind verify. A UDP field of 0 is not
// summed.
#[tactic(auto, unfolding(crate::specs::Check::verdict_of))]
fn sums(kind: Kind, h: IpRead, part: &[u8]) -> Result<Verdict, Refusal>
    requires { length part.now ≤ most_ip }
    ensures { says result ≡ verdict_of kind h part.now }
{
    match kind {
        Kind::Tcp => unless_bad(verify_part(h, proto::TCP, part)),
        Kind::Udp => unless_bad(verify_part(h, proto::UDP, part)),
        Kind::Bare => Ok(Verdict::NoChecksum),
        Kind::Icmp => unless_bad(header::verify(part)),
    }
}

// Both steps, one after the other.
fn both(h: IpRead, part: &[u8]) -> Result<Verdict, Refusal>
    requires { length part.now ≤ most_ip }
    ensures { says result ≡ part_answer h part.now }
{
    let kind = whole_kind(h, part)?;
    sums(kind, h, part)
}

// Whether a packet is whole and its sums verify. Bytes after its total length do not count.
#[tactic(auto, unfolding(crate::specs::Check::check_answer))]
pub fn check(packet: &[u8]) -> Result<Verdict, Refusal>
    ensures { says result ≡ check_answer packet.now }
{
    let h = header::read(packet)?;
    let start = h.start;
    let end = h.end;
    both(h, &packet[start..end])
}

// The header and the kind of a packet that the check would call good, with or without checksum, if it asked for no sum: neither 7 nor 15
// is given. Bytes after its total length do not count.
#[tactic(auto, unfolding(crate::specs::Check::examine_answer))]
pub fn examine(packet: &[u8]) -> Result<Whole, Refusal>
    ensures { says result ≡ examine_answer packet.now }
{
    let seen = header::frame(packet)?;
    let header = header::unreserved(seen)?;
    let start = header.start;
    let end = header.end;
    let kind = whole_kind(header, &packet[start..end])?;
    Ok(Whole { header, kind })
}
