// Echoes and replies of an ICMP flow. The answer hands the flow back, as a TCP call's does.
ghost use Rattle.std.specs.Prelude.{◌≡◌};
ghost use Rattle.ezpkt.specs.Icmp4.{new_icmp_flow, icmp_marked, ping_of, pong_of, pinged, ponged};
ghost use Rattle.wispbundle.specs.Calls.{IcmpSends};

use ezpkt::Marks;
use ezpkt::icmp4::IcmpFlow;
use wispbundle::icmp as library;
use wispbundle::icmp::wb_icmp_sent;

#[unsafe(no_mangle)]
pub extern "C" fn wb_icmp_new(cl: u32, sv: u32) -> IcmpFlow
    ensures { result ≡ new_icmp_flow cl sv }
{
    library::wb_icmp_new(cl, sv)
}

#[unsafe(no_mangle)]
pub extern "C" fn wb_icmp_marked(flow: IcmpFlow, marks: Marks) -> IcmpFlow
    ensures { result ≡ icmp_marked flow marks }
{
    library::wb_icmp_marked(flow, marks)
}

#[unsafe(no_mangle)]
pub extern "C" fn wb_icmp_echo(flow: IcmpFlow, bytes: &[u8], out: &mut [u8]) -> wb_icmp_sent
    ensures { IcmpSends flow (ping_of flow) (pinged flow) bytes.now out.old result out.new }
{
    library::wb_icmp_echo(flow, bytes, out)
}

#[unsafe(no_mangle)]
pub extern "C" fn wb_icmp_echo_reply(flow: IcmpFlow, bytes: &[u8], out: &mut [u8]) -> wb_icmp_sent
    ensures { IcmpSends flow (pong_of flow) (ponged flow) bytes.now out.old result out.new }
{
    library::wb_icmp_echo_reply(flow, bytes, out)
}
