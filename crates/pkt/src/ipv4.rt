// IPv4, TCP, UDP and ICMP headers and their checksums.
ghost use Rattle.std.specs.Prelude.{◌≡◌, ◌+◌, ◌/◌, ◌%◌};
ghost use Rattle.pkt.specs.Rfc791.{ip_bytes, ip_header, ip_default};
ghost use Rattle.pkt.specs.Rfc768.{pseudo, nonzero, udp_header};
ghost use Rattle.pkt.specs.Rfc9293.{tcp_header, tcp_new};
ghost use Rattle.pkt.specs.Rfc792.{echo_header, icmp_new, echo_new};
ghost use Rattle.pkt.specs.Sums.{total, canon};
ghost use Rattle.pkt.specs.Answers.{says, csum_answer, tcp_answer, udp_answer, echo_answer, transport_answer};

use crate::refusal::Refusal;
use crate::{csum, limit};

// Numbers on the wire, by the Rust's public names, and no enums: a header's field may hold any number.
pub mod proto {
    pub const ICMP: u8 = 1;

    pub const TCP: u8 = 6;

    pub const UDP: u8 = 17;

    pub const GRE: u8 = 47;
}

pub mod flags {
    pub const EVIL: u16 = 0x8000;

    pub const DF: u16 = 0x4000;

    pub const MF: u16 = 0x2000;
}

// What an IPv4 header says. The first byte is 0x45, and the checksum is worked out.
#[derive(Clone, Copy, Drop)]
pub struct ip_hdr {
    pub tos: u8,
    pub tot_len: u16,
    pub id: u16,
    pub frag_off: u16,
    pub ttl: u8,
    pub protocol: u8,
    pub saddr: u32,
    pub daddr: u32,
}

impl Default for ip_hdr {
    ghost is_default = { λ h. h ≡ ip_default };

    // TOS 0, id 0 and TTL 64, the length of a header alone, and 0 for the rest.
    fn default() -> Self {
        Self {
            tos: 0,
            tot_len: 20,
            id: 0,
            frag_off: 0,
            ttl: 64,
            protocol: 0,
            saddr: 0,
            daddr: 0,
        }
    }
}

impl ip_hdr {
    // The header, with this number for its checksum.
    fn with_csum(self, csum: u16) -> [u8; 20]
        ensures { result ≡ ip_bytes self csum }
    {
        let tot_len = self.tot_len.to_be_bytes();
        let id = self.id.to_be_bytes();
        let frag_off = self.frag_off.to_be_bytes();
        let csum = csum.to_be_bytes();
        let saddr = self.saddr.to_be_bytes();
        let daddr = self.daddr.to_be_bytes();
        [
            0x45,
            self.tos,
            tot_len[0],
            tot_len[1],
            id[0],
            id[1],
            frag_off[0],
            frag_off[1],
            self.ttl,
            self.protocol,
            csum[0],
            csum[1],
            saddr[0],
            saddr[1],
            saddr[2],
            saddr[3],
            daddr[0],
            daddr[1],
            daddr[2],
            daddr[3],
        ]
    }

    // The header, checksummed.
    pub fn to_bytes(self) -> [u8; 20]
        ensures { result ≡ ip_header self }
    {
        let bare = self.with_csum(0);
        let csum = csum::ip_csum_fold(csum::ip_csum_partial(&bare));
        self.with_csum(csum)
    }
}

pub const TCP_FIN: u8 = 0x01;

pub const TCP_SYN: u8 = 0x02;

pub const TCP_RST: u8 = 0x04;

pub const TCP_PSH: u8 = 0x08;

pub const TCP_ACK: u8 = 0x10;

pub const TCP_URG: u8 = 0x20;

pub const TCP_ECE: u8 = 0x40;

pub const TCP_CWR: u8 = 0x80;

// What a TCP header says. The data offset byte is 0x50, the window 65,535 and the urgent pointer 0.
#[derive(Clone, Copy, Drop)]
pub struct tcp_hdr {
    pub sport: u16,
    pub dport: u16,
    pub seq: u32,
    pub ack: u32,
    pub flags: u8,
}

impl tcp_hdr {
    // Between two ports; numbers and flags are 0.
    pub fn new(sport: u16, dport: u16) -> Self
        ensures { result ≡ tcp_new sport dport }
    {
        Self {
            sport,
            dport,
            seq: 0,
            ack: 0,
            flags: 0,
        }
    }

    // The header, with this number for its checksum.
    pub fn to_bytes(self, csum: u16) -> [u8; 20]
        ensures { result ≡ tcp_header self csum }
    {
        let sport = self.sport.to_be_bytes();
        let dport = self.dport.to_be_bytes();
        let seq = self.seq.to_be_bytes();
        let ack = self.ack.to_be_bytes();
        let window = 0xffffu16.to_be_bytes();
        let csum = csum.to_be_bytes();
        [
            sport[0], sport[1], dport[0], dport[1], seq[0], seq[1], seq[2], seq[3], ack[0], ack[1],
            ack[2], ack[3], 0x50, self.flags, window[0], window[1], csum[0], csum[1], 0, 0,
        ]
    }
}

// What a UDP header says.
#[derive(Clone, Copy, Drop)]
pub struct udp_hdr {
    pub sport: u16,
    pub dport: u16,
    pub len: u16,
}

impl udp_hdr {
    // The header, with this number for its checksum. 0 says that there is none.
    pub fn to_bytes(self, csum: u16) -> [u8; 8]
        ensures { result ≡ udp_header self csum }
    {
        let sport = self.sport.to_be_bytes();
        let dport = self.dport.to_be_bytes();
        let len = self.len.to_be_bytes();
        let csum = csum.to_be_bytes();
        [
            sport[0], sport[1], dport[0], dport[1], len[0], len[1], csum[0], csum[1],
        ]
    }
}

// ICMP types.
pub const ICMP_ECHOREPLY: u8 = 0;

pub const ICMP_DEST_UNREACH: u8 = 3;

pub const ICMP_SOURCE_QUENCH: u8 = 4;

pub const ICMP_REDIRECT: u8 = 5;

pub const ICMP_ECHO: u8 = 8;

pub const ICMP_TIME_EXCEEDED: u8 = 11;

pub const ICMP_PARAMETERPROB: u8 = 12;

pub const ICMP_TIMESTAMP: u8 = 13;

pub const ICMP_TIMESTAMPREPLY: u8 = 14;

pub const ICMP_INFO_REQUEST: u8 = 15;

pub const ICMP_INFO_REPLY: u8 = 16;

pub const ICMP_ADDRESS: u8 = 17;

pub const ICMP_ADDRESSREPLY: u8 = 18;

// ICMP codes, with ICMP_DEST_UNREACH.
pub const ICMP_NET_UNREACH: u8 = 0;

pub const ICMP_HOST_UNREACH: u8 = 1;

pub const ICMP_PROT_UNREACH: u8 = 2;

pub const ICMP_PORT_UNREACH: u8 = 3;

pub const ICMP_FRAG_NEEDED: u8 = 4;

pub const ICMP_SR_FAILED: u8 = 5;

pub const ICMP_NET_UNKNOWN: u8 = 7;

pub const ICMP_HOST_UNKNOWN: u8 = 8;

pub const ICMP_NET_ANO: u8 = 9;

pub const ICMP_HOST_ANO: u8 = 10;

pub const ICMP_NET_UNR_TOS: u8 = 11;

pub const ICMP_HOST_UNR_TOS: u8 = 12;

pub const ICMP_PKT_FILTERED: u8 = 13;

pub const ICMP_PREC_VIOLATION: u8 = 14;

pub const ICMP_PREC_CUTOFF: u8 = 15;

// What an ICMP header says, but for the checksum.
#[derive(Clone, Copy, Drop)]
pub struct icmp_hdr {
    pub typ: u8,
    pub code: u8,
}

// What follows it in an echo.
#[derive(Clone, Copy, Drop)]
pub struct icmp_echo_hdr {
    pub id: u16,
    pub seq: u16,
}

impl icmp_echo_hdr {
    // The id 0x1234 and a number.
    pub fn new(seq: u16) -> Self
        ensures { result ≡ echo_new seq }
    {
        Self { id: 0x1234, seq }
    }
}

impl icmp_hdr {
    // A type, with code 0.
    pub fn new(typ: u8) -> Self
        ensures { result ≡ icmp_new typ }
    {
        Self { typ, code: 0 }
    }

    // The header of an echo, with this number for its checksum.
    pub fn to_bytes(self, echo: icmp_echo_hdr, csum: u16) -> [u8; 8]
        ensures { result ≡ echo_header self echo csum }
    {
        let csum = csum.to_be_bytes();
        let id = echo.id.to_be_bytes();
        let seq = echo.seq.to_be_bytes();
        [
            self.typ, self.code, csum[0], csum[1], id[0], id[1], seq[0], seq[1],
        ]
    }
}

// The checksum of any bytes.
pub fn ip_csum(buf: &[u8]) -> Result<u16, Refusal>
    ensures { says result ≡ csum_answer buf.now }
{
    if buf.len() > limit::BYTES {
        return Err(Refusal::TooLong);
    }
    Ok(csum::ip_csum_fold(csum::ip_csum_partial(buf)))
}

// The sum of an address's two words, which are told by division, as its promise tells them.
fn address(addr: u32) -> u16
    ensures { result ≡ canon (addr / 65536 + addr % 65536) }
{
    csum::plus((addr / 65536) as u16, (addr % 65536) as u16)
}

// What goes before a transport header in its checksum.
#[derive(Clone, Copy, Drop)]
struct ip_pseudo_hdr {
    src: u32,
    dst: u32,
    proto: u8,
    len: u16,
}

impl ip_pseudo_hdr {
    // The sum of its words.
    fn csum_partial(self) -> u16
        ensures { result ≡ canon (total (pseudo self.src self.dst self.proto self.len)) }
    {
        let addresses = csum::plus(address(self.src), address(self.dst));
        csum::plus(addresses, csum::plus(self.proto as u16, self.len))
    }
}

// The checksum of a whole transport part between two addresses. It is 0 exactly where the part's own
// checksum verifies.
pub fn transport_csum(saddr: u32, daddr: u32, proto: u8, part: &[u8]) -> Result<u16, Refusal>
    ensures { says result ≡ transport_answer saddr daddr proto part.now }
{
    let n = part.len();
    if n > limit::IP_PAYLOAD {
        return Err(Refusal::TooLong);
    }
    let pseudo = ip_pseudo_hdr {
        src: saddr,
        dst: daddr,
        proto,
        len: n as u16,
    };
    Ok(csum::finished(pseudo.csum_partial(), b"", part))
}

// The checksum of a TCP segment between two addresses.
pub fn tcp_csum(saddr: u32, daddr: u32, h: tcp_hdr, payload: &[u8]) -> Result<u16, Refusal>
    ensures { says result ≡ tcp_answer saddr daddr h payload.now }
{
    let n = payload.len();
    if n > limit::TCP_PAYLOAD {
        return Err(Refusal::TooLong);
    }
    let pseudo = ip_pseudo_hdr {
        src: saddr,
        dst: daddr,
        proto: proto::TCP,
        len: (20 + n) as u16,
    };
    let header = h.to_bytes(0);
    Ok(csum::finished(pseudo.csum_partial(), &header, payload))
}

// A computed 0 is sent as all ones, since a field of 0 says that there is no checksum.
pub fn nonzero(csum: u16) -> u16
    ensures { result ≡ nonzero csum }
{
    if csum == 0 { 0xffff } else { csum }
}

// The checksum of a UDP datagram between two addresses. No generic function with TCP's: the header, the protocol, the limit and what is sent for 0 all differ, and
// a trait that says them would be longer than both.
pub fn udp_csum(saddr: u32, daddr: u32, h: udp_hdr, payload: &[u8]) -> Result<u16, Refusal>
    ensures { says result ≡ udp_answer saddr daddr h payload.now }
{
    let n = payload.len();
    if n > limit::UDP_PAYLOAD {
        return Err(Refusal::TooLong);
    }
    let pseudo = ip_pseudo_hdr {
        src: saddr,
        dst: daddr,
        proto: proto::UDP,
        len: (8 + n) as u16,
    };
    let header = h.to_bytes(0);
    Ok(nonzero(csum::finished(pseudo.csum_partial(), &header, payload)))
}

// The checksum of an ICMP echo.
pub fn icmp_csum(h: icmp_hdr, echo: icmp_echo_hdr, payload: &[u8]) -> Result<u16, Refusal>
    ensures { says result ≡ echo_answer h echo payload.now }
{
    if payload.len() > limit::UDP_PAYLOAD {
        return Err(Refusal::TooLong);
    }
    let header = h.to_bytes(echo, 0);
    Ok(csum::finished(0, &header, payload))
}
