// Datagrams of a UDP flow.
ghost use Rattle.ezpkt.specs.Build.{Answered};
ghost use Rattle.ezpkt.specs.Udp4.{new_udp_flow, udp_marked, dgram_of};
ghost use Rattle.std.specs.Prelude.{◌≡◌, take, drop};
ghost use Rattle.ezpkt.specs.declared.build.Request.TheVariants.{Udp};

use crate::build::{Request, UdpDatagram};
use crate::{Marks, SocketAddrV4, build, part};
use pkt::refusal::Refusal;

// The two ends, and what every packet is marked with.
#[repr(C)]
#[derive(Clone, Copy, Drop)]
pub struct UdpFlow {
    pub cl: SocketAddrV4,
    pub sv: SocketAddrV4,
    pub marks: Marks,
}

// The choices that go with a datagram: another source address than the flow's, flags and offset, checksum.
#[derive(Clone, Copy, Drop)]
pub struct Choices {
    pub srcip: Option<u32>,
    pub frag_off: u16,
    pub csum: bool,
}

fn dgram(marks: Marks, from: SocketAddrV4, to: SocketAddrV4, choices: Choices) -> UdpDatagram
    ensures { result ≡ dgram_of marks from to choices }
{
    UdpDatagram {
        saddr: choices.srcip.unwrap_or(from.ip),
        daddr: to.ip,
        sport: from.port,
        dport: to.port,
        frag_off: choices.frag_off,
        csum: choices.csum,
        marks,
    }
}

impl UdpFlow {
    // A flow between two ends.
    pub fn new(cl: SocketAddrV4, sv: SocketAddrV4) -> Self
        ensures { result ≡ new_udp_flow cl sv }
    {
        Self {
            cl,
            sv,
            marks: Marks::default(),
        }
    }

    // The flow with other marks on every packet from now on.
    pub fn marked(self, marks: Marks) -> Self
        ensures { result ≡ udp_marked self marks }
    {
        Self { marks, ..self }
    }

    // A datagram from the client to the server, carrying bytes, at the start of out.
    pub fn client_dgram(
        self,
        bytes: &[u8],
        choices: Choices,
        out: &mut [u8],
    ) -> Result<usize, Refusal>
        ensures { Answered (Udp (dgram_of self.marks self.cl self.sv choices)) bytes.now out.old result out.new }
    {
        let datagram = dgram(self.marks, self.cl, self.sv, choices);
        build::build(Request::Udp(datagram), bytes, out)
    }

    // A datagram from the server to the client, carrying bytes, at the start of out.
    pub fn server_dgram(
        self,
        bytes: &[u8],
        choices: Choices,
        out: &mut [u8],
    ) -> Result<usize, Refusal>
        ensures { Answered (Udp (dgram_of self.marks self.sv self.cl choices)) bytes.now out.old result out.new }
    {
        let datagram = dgram(self.marks, self.sv, self.cl, choices);
        build::build(Request::Udp(datagram), bytes, out)
    }
}

// The UDP header of a packet, as far as it is there.
pub fn udp_hdr_bytes(packet: &[u8]) -> &[u8]
    ensures { result.now ≡ take 8 (drop 20 packet.now) }
{
    part::front(part::back(packet, 20), 8)
}

// The UDP header of a packet and all that follows it.
pub fn udp_dgram_bytes(packet: &[u8]) -> &[u8]
    ensures { result.now ≡ drop 20 packet.now }
{
    part::back(packet, 20)
}
