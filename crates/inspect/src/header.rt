// The header reader: which bytes are an IPv4 packet, what its header says, and where its data is.
ghost use Rattle.std.specs.Prelude.{◌≡◌, ◌+◌, ◌≤◌, length};
ghost use Rattle.pkt.specs.Answers.{says, and_then};
ghost use Rattle.inspect.specs.Header.{field_at, header_of, not_ipv4, frame_answer, is_zero, summed, unreserved, read_answer};
ghost use Rattle.pkt.specs.Rfc1071.{verifies};

use pkt::ipv4;
use pkt::ipv4::flags;
use pkt::refusal::Refusal;

// What a packet's header says. Its data is the bytes from start, behind the options, up to, not including, end.
#[derive(Clone, Copy, Drop)]
pub struct IpRead {
    pub tos: u8,
    pub tot_len: u16,
    pub id: u16,
    pub evil: bool,
    pub df: bool,
    pub mf: bool,
    pub off: u16,
    pub ttl: u8,
    pub protocol: u8,
    pub saddr: u32,
    pub daddr: u32,
    pub start: usize,
    pub end: usize,
}

// The byte at a place. One function for each width, told by one field_at: from_be_bytes is each type's own, and a trait for it would be longer than
// the three.
#[tactic(auto, using(crate::proofs::Numbers::field_one))]
pub(crate) fn be8(s: &[u8], at: usize) -> u8
    requires { at + 1 ≤ length s.now }
    ensures { result ≡ field_at s.now at 1 }
{
    s[at]
}

// The number in two bytes.
#[tactic(auto, using(crate::proofs::Numbers::field_two))]
pub(crate) fn be16(s: &[u8], at: usize) -> u16
    requires { at + 2 ≤ length s.now }
    ensures { result ≡ field_at s.now at 2 }
{
    u16::from_be_bytes([s[at], s[at + 1]])
}

// The number in four bytes.
pub(crate) fn be32(s: &[u8], at: usize) -> u32
    requires { at + 4 ≤ length s.now }
    ensures { result ≡ field_at s.now at 4 }
{
    u32::from_be_bytes([s[at], s[at + 1], s[at + 2], s[at + 3]])
}

// What the first 20 bytes say. The bits below MF are the offset.
#[tactic(auto, unfolding(crate::specs::Header::header_of))]
fn fields(packet: &[u8]) -> IpRead
    requires { 20 ≤ length packet.now }
    ensures { result ≡ header_of packet.now }
{
    let size = be16(packet, 2);
    let frag = be16(packet, 6);
    IpRead {
        tos: be8(packet, 1),
        tot_len: size,
        id: be16(packet, 4),
        evil: frag / flags::EVIL % 2 == 1,
        df: frag / flags::DF % 2 == 1,
        mf: frag / flags::MF % 2 == 1,
        off: frag % flags::MF,
        ttl: be8(packet, 8),
        protocol: be8(packet, 9),
        saddr: be32(packet, 12),
        daddr: be32(packet, 16),
        start: 4 * (be8(packet, 0) % 16) as usize,
        end: size as usize,
    }
}

// Whether the version is not 4, or the header has under 5 words.
#[tactic(auto, unfolding(crate::specs::Header::not_ipv4))]
fn not_ipv4(packet: &[u8]) -> bool
    requires { 1 ≤ length packet.now }
    ensures { result ≡ not_ipv4 packet.now }
{
    let first = be8(packet, 0);
    first / 16 != 4 || first % 16 < 5
}

// The header of a packet that is all there, whatever its checksum.
pub fn frame(packet: &[u8]) -> Result<IpRead, Refusal>
    ensures { says result ≡ frame_answer packet.now }
{
    let n = packet.len();
    if n < 20 {
        return Err(Refusal::Short);
    }
    if not_ipv4(packet) {
        return Err(Refusal::NotIpv4);
    }
    let h = fields(packet);
    if h.end < h.start {
        return Err(Refusal::BadTotal);
    }
    if n < h.end {
        return Err(Refusal::Short);
    }
    Ok(h)
}

// Whether a checksum says that what it was taken of verifies.
pub(crate) fn is_zero(sum: Result<u16, Refusal>) -> bool
    ensures { result ≡ is_zero sum }
{
    sum == Ok(0)
}

// Whether bytes with their checksum among them verify.
pub(crate) fn verify(s: &[u8]) -> bool
    requires { length s.now ≤ 65535 }
    ensures { result ≡ verifies s.now }
{
    is_zero(ipv4::ip_csum(s))
}

// A header, unless its reserved bit is set.
pub(crate) fn unreserved(h: IpRead) -> Result<IpRead, Refusal>
    ensures { says result ≡ unreserved h }
{
    if h.evil {
        return Err(Refusal::Reserved);
    }
    Ok(h)
}

// The header of a packet that is all there and whose header verifies.
fn verified(packet: &[u8]) -> Result<IpRead, Refusal>
    ensures { says result ≡ and_then (frame_answer packet.now) (summed packet.now) }
{
    let h = frame(packet)?;
    let start = h.start;
    if verify(&packet[0..start]) {
        return Ok(h);
    }
    Err(Refusal::BadHeader)
}

// The header of a packet that is all there, whose header verifies and has the reserved bit clear. Bytes after its total
// length do not count.
#[tactic(auto, unfolding(crate::specs::Header::read_answer))]
pub fn read(packet: &[u8]) -> Result<IpRead, Refusal>
    ensures { says result ≡ read_answer packet.now }
{
    let h = verified(packet)?;
    unreserved(h)
}
