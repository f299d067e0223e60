// Echoes and replies of an ICMP flow. The answer hands the flow back, as a TCP call's does.
ghost use Rattle.std.specs.Prelude.{◌≡◌};
ghost use Rattle.pkt.specs.Answers.{says};
ghost use Rattle.ezpkt.specs.Icmp4.{new_icmp_flow, icmp_marked, ping_of, pong_of, pinged, ponged};
ghost use Rattle.wispbundle.specs.Answers.{icmp_for};
ghost use Rattle.wispbundle.specs.Calls.{IcmpSends};

use ezpkt::Marks;
use ezpkt::icmp4::{EchoSent, IcmpFlow};
use pkt::refusal::Refusal;

// The flow, and the packet's length.
#[repr(C)]
#[derive(Clone, Copy, Drop)]
pub struct wb_icmp_sent {
    pub status: u8,
    pub flow: IcmpFlow,
    pub length: usize,
}

fn sent(before: IcmpFlow, answer: Result<EchoSent, Refusal>) -> wb_icmp_sent
    ensures { result ≡ icmp_for before (says answer) }
{
    match answer {
        Ok(sent) => wb_icmp_sent {
            status: crate::ACCEPTED,
            flow: sent.flow,
            length: sent.size,
        },
        Err(refusal) => wb_icmp_sent {
            status: refusal.number(),
            flow: before,
            length: 0,
        },
    }
}

pub fn wb_icmp_new(cl: u32, sv: u32) -> IcmpFlow
    ensures { result ≡ new_icmp_flow cl sv }
{
    IcmpFlow::new(cl, sv)
}

pub fn wb_icmp_marked(flow: IcmpFlow, marks: Marks) -> IcmpFlow
    ensures { result ≡ icmp_marked flow marks }
{
    flow.marked(marks)
}

pub fn wb_icmp_echo(flow: IcmpFlow, bytes: &[u8], out: &mut [u8]) -> wb_icmp_sent
    ensures { IcmpSends flow (ping_of flow) (pinged flow) bytes.now out.old result out.new }
{
    sent(flow, flow.echo(bytes, out))
}

pub fn wb_icmp_echo_reply(flow: IcmpFlow, bytes: &[u8], out: &mut [u8]) -> wb_icmp_sent
    ensures { IcmpSends flow (pong_of flow) (ponged flow) bytes.now out.old result out.new }
{
    sent(flow, flow.echo_reply(bytes, out))
}
