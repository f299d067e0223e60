// Datagrams of a UDP flow.
ghost use Rattle.std.specs.Prelude.{◌≡◌};
ghost use Rattle.ezpkt.specs.Udp4.{new_udp_flow, udp_marked, dgram_of};
ghost use Rattle.ezpkt.specs.declared.build.Request.TheVariants.{Udp};
ghost use Rattle.wispbundle.specs.Answers.{choices_of};
ghost use Rattle.wispbundle.specs.Calls.{Builds};

use ezpkt::udp4::UdpFlow;
use ezpkt::{Marks, SocketAddrV4};
use wispbundle::lengths::wb_length;
use wispbundle::udp as library;
use wispbundle::udp::wb_choices;

#[unsafe(no_mangle)]
pub extern "C" fn wb_udp_new(cl: SocketAddrV4, sv: SocketAddrV4) -> UdpFlow
    ensures { result ≡ new_udp_flow cl sv }
{
    library::wb_udp_new(cl, sv)
}

#[unsafe(no_mangle)]
pub extern "C" fn wb_udp_marked(flow: UdpFlow, marks: Marks) -> UdpFlow
    ensures { result ≡ udp_marked flow marks }
{
    library::wb_udp_marked(flow, marks)
}

#[unsafe(no_mangle)]
pub extern "C" fn wb_udp_client_dgram(
    flow: UdpFlow,
    bytes: &[u8],
    given: wb_choices,
    out: &mut [u8],
) -> wb_length
    ensures { Builds (Udp (dgram_of flow.marks flow.cl flow.sv (choices_of given))) bytes.now out.old result out.new }
{
    library::wb_udp_client_dgram(flow, bytes, given, out)
}

#[unsafe(no_mangle)]
pub extern "C" fn wb_udp_server_dgram(
    flow: UdpFlow,
    bytes: &[u8],
    given: wb_choices,
    out: &mut [u8],
) -> wb_length
    ensures { Builds (Udp (dgram_of flow.marks flow.sv flow.cl (choices_of given))) bytes.now out.old result out.new }
{
    library::wb_udp_server_dgram(flow, bytes, given, out)
}
