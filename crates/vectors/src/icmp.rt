// Kinds 30 to 34: echoes and replies of one flow.
use crate::state::Now;
use crate::{fields, state};
use ezpkt::Marks;
use ezpkt::icmp4::{EchoSent, IcmpFlow};
use ezpkt::part::back;
use pkt::refusal::Refusal;

// Whether e is the two numbers of the flow, which has the ends that it had.
pub(crate) fn has_state(e: &[u8], before: IcmpFlow, flow: IcmpFlow) -> bool {
    let ping = fields::two(e, 0) == flow.ping_seq;
    let pong = fields::two(e, 2) == flow.pong_seq;
    let ends = before.cl == flow.cl && before.sv == flow.sv;
    e.len() == 4 && ping && pong && ends
}

// Kind 30.
pub(crate) fn opened(now: Now, a: &[u8]) -> Now {
    let cl = fields::four(a, 0);
    let sv = fields::four(a, 4);
    let flow = IcmpFlow::new(cl, sv);
    let asked = IcmpFlow {
        cl,
        sv,
        ping_seq: 0,
        pong_seq: 0,
        marks: Marks::default(),
    };
    Now {
        icmp: Some(flow),
        same: has_state(back(a, 8), asked, flow),
        ..now
    }
}

fn echoed(kind: u8, flow: IcmpFlow, bytes: &[u8], out: &mut [u8]) -> Result<EchoSent, Refusal> {
    if kind % 2 == 1 {
        return flow.echo(bytes, out);
    }
    flow.echo_reply(bytes, out)
}

// The echo or the reply of the case; as it was, where it was refused.
pub(crate) fn sent(now: Now, kind: u8, bytes: &[u8], out: &mut [u8]) -> Now {
    let Some(flow) = now.icmp else {
        return now;
    };
    match echoed(kind, flow, bytes, out) {
        Ok(sent) => state::wrote(
            Now {
                icmp: Some(sent.flow),
                ..now
            },
            sent.size,
        ),
        Err(_) => now,
    }
}
