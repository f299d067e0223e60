// Datagrams of a UDP flow.
ghost use Rattle.std.specs.Prelude.{◌≡◌};
ghost use Rattle.ezpkt.specs.Udp4.{new_udp_flow, udp_marked, dgram_of};
ghost use Rattle.ezpkt.specs.declared.build.Request.TheVariants.{Udp};
ghost use Rattle.wispbundle.specs.Answers.{choices_of};
ghost use Rattle.wispbundle.specs.Calls.{Builds};

use crate::lengths::wb_length;
use ezpkt::udp4::{Choices, UdpFlow};
use ezpkt::{Marks, SocketAddrV4};

// The choices that go with a datagram. Where other_source is false, srcip does not count: C has no Option.
#[repr(C)]
#[derive(Clone, Copy, Drop)]
pub struct wb_choices {
    pub other_source: bool,
    pub srcip: u32,
    pub frag_off: u16,
    pub csum: bool,
}

impl From<wb_choices> for Choices {
    ghost from_gives = { λ given choices. choices ≡ choices_of given };

    fn from(given: wb_choices) -> Self {
        Choices {
            srcip: given.other_source.then_some(given.srcip),
            frag_off: given.frag_off,
            csum: given.csum,
        }
    }
}

pub fn wb_udp_new(cl: SocketAddrV4, sv: SocketAddrV4) -> UdpFlow
    ensures { result ≡ new_udp_flow cl sv }
{
    UdpFlow::new(cl, sv)
}

pub fn wb_udp_marked(flow: UdpFlow, marks: Marks) -> UdpFlow
    ensures { result ≡ udp_marked flow marks }
{
    flow.marked(marks)
}

pub fn wb_udp_client_dgram(
    flow: UdpFlow,
    bytes: &[u8],
    given: wb_choices,
    out: &mut [u8],
) -> wb_length
    ensures { Builds (Udp (dgram_of flow.marks flow.cl flow.sv (choices_of given))) bytes.now out.old result out.new }
{
    flow.client_dgram(bytes, given.into(), out).into()
}

pub fn wb_udp_server_dgram(
    flow: UdpFlow,
    bytes: &[u8],
    given: wb_choices,
    out: &mut [u8],
) -> wb_length
    ensures { Builds (Udp (dgram_of flow.marks flow.sv flow.cl (choices_of given))) bytes.now out.old result out.new }
{
    flow.server_dgram(bytes, given.into(), out).into()
}
