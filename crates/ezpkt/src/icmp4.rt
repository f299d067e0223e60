// Echoes and replies of an ICMP flow.
ghost use Rattle.std.specs.Prelude.{◌≡◌};
ghost use Rattle.ezpkt.specs.Icmp4.{new_icmp_flow, icmp_marked, Echoed, ping_of, pong_of, pinged, ponged};
ghost use Rattle.ezpkt.specs.declared.build.Request.TheVariants.{Echo};

use crate::build::{IcmpEcho, Request};
use crate::{Marks, build};
use pkt::refusal::Refusal;

// The two addresses, the numbers of the next echo and of the next reply, which count apart, and what every packet is marked with.
#[repr(C)]
#[derive(Clone, Copy, Drop)]
pub struct IcmpFlow {
    pub cl: u32,
    pub sv: u32,
    pub ping_seq: u16,
    pub pong_seq: u16,
    pub marks: Marks,
}

// The flow after a packet, and the packet's length.
#[derive(Clone, Copy, Drop)]
pub struct EchoSent {
    pub flow: IcmpFlow,
    pub size: usize,
}

// A packet that leaves this flow.
fn send(echo: IcmpEcho, flow: IcmpFlow, bytes: &[u8], out: &mut [u8]) -> Result<EchoSent, Refusal>
    ensures { Echoed (Echo echo) flow bytes.now out.old result out.new }
{
    let size = build::build(Request::Echo(echo), bytes, out)?;
    Ok(EchoSent { flow, size })
}

impl IcmpFlow {
    // A flow between two addresses, both numbers 0.
    pub fn new(cl: u32, sv: u32) -> Self
        ensures { result ≡ new_icmp_flow cl sv }
    {
        Self {
            cl,
            sv,
            ping_seq: 0,
            pong_seq: 0,
            marks: Marks::default(),
        }
    }

    // The flow with other marks on every packet from now on.
    pub fn marked(self, marks: Marks) -> Self
        ensures { result ≡ icmp_marked self marks }
    {
        Self { marks, ..self }
    }

    // echo and echo_reply are two, since each moves a number of its own: what they have in common is send.

    // The client's next echo, carrying bytes, at the start of out; the ping number moves on.
    pub fn echo(self, bytes: &[u8], out: &mut [u8]) -> Result<EchoSent, Refusal>
        ensures { Echoed (ping_of self) (pinged self) bytes.now out.old result out.new }
    {
        let echo = IcmpEcho {
            saddr: self.cl,
            daddr: self.sv,
            reply: false,
            seq: self.ping_seq,
            marks: self.marks,
        };
        let flow = Self {
            ping_seq: self.ping_seq.wrapping_add(1),
            ..self
        };
        send(echo, flow, bytes, out)
    }

    // The server's next reply, carrying bytes, at the start of out; the pong number moves on.
    pub fn echo_reply(self, bytes: &[u8], out: &mut [u8]) -> Result<EchoSent, Refusal>
        ensures { Echoed (pong_of self) (ponged self) bytes.now out.old result out.new }
    {
        let reply = IcmpEcho {
            saddr: self.sv,
            daddr: self.cl,
            reply: true,
            seq: self.pong_seq,
            marks: self.marks,
        };
        let flow = Self {
            pong_seq: self.pong_seq.wrapping_add(1),
            ..self
        };
        send(reply, flow, bytes, out)
    }
}
