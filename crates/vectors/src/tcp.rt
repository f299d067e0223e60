// Kinds 40 to 53: the calls of one TCP flow.
use crate::state::Now;
use crate::{fields, payload, state, udp};
use ezpkt::Marks;
use ezpkt::part::{back, front};
use pkt::refusal::Refusal;
use tcp4::{Header, PushedState, Sent, Seq, TcpFlow};

// Whether e is the two numbers of the flow, which has the ends that it had.
pub(crate) fn has_state(e: &[u8], before: TcpFlow, flow: TcpFlow) -> bool {
    let cl = fields::four(e, 0) == flow.cl_seq;
    let sv = fields::four(e, 4) == flow.sv_seq;
    let ends = before.cl == flow.cl && before.sv == flow.sv;
    e.len() == 8 && cl && sv && ends
}

// The flow afterwards, and whether it has the numbers that e tells and what was answered is the same.
fn stepped(now: Now, before: TcpFlow, flow: TcpFlow, e: &[u8], same: bool) -> Now {
    Now {
        tcp: Some(flow),
        same: same && has_state(e, before, flow),
        ..now
    }
}

// Kind 40.
fn opened(now: Now, a: &[u8]) -> Now {
    let cl = udp::socket(a);
    let sv = udp::socket(back(a, 6));
    let flow = TcpFlow::new(cl, sv, fields::four(a, 12), fields::four(a, 16));
    let ends = TcpFlow {
        cl,
        sv,
        cl_seq: 0,
        sv_seq: 0,
        marks: Marks::default(),
    };
    stepped(now, ends, flow, back(a, 20), true)
}

// A side, with the number that e begins with, if it is set.
fn side(set: bool, e: &[u8]) -> Seq {
    if set {
        Seq::Is(fields::four(e, 0))
    } else {
        Seq::Nothing
    }
}

// Whether a side is what the file has for it: set or not, and a number that is 0 where it is not set.
fn is_side(seq: Seq, set: bool, e: &[u8]) -> bool {
    let number = fields::four(e, 0);
    match seq {
        Seq::Is(n) => set && n == number,
        Seq::Nothing => !set && number == 0,
    }
}

// Whether e begins with these two sides.
fn are_sides(e: &[u8], cl: Seq, sv: Seq) -> bool {
    let bits = fields::byte(e, 0);
    let is_cl = is_side(cl, bits & 1 != 0, back(e, 1));
    let is_sv = is_side(sv, bits & 2 != 0, back(e, 5));
    bits < 4 && is_cl && is_sv
}

// Kinds 41 and 42, with the sides that a begins with.
fn set(now: Now, flow: TcpFlow, kind: u8, a: &[u8]) -> Now {
    let bits = fields::byte(a, 0);
    let cl = side(bits & 1 != 0, back(a, 1));
    let sv = side(bits & 2 != 0, back(a, 5));
    let e = back(a, 9);
    let right = are_sides(a, cl, sv);
    if kind == 0x42 {
        return stepped(now, flow, flow.pop_state(cl, sv), e, right);
    }
    pushed(now, flow, flow.push_state(cl, sv), e, right)
}

// The flow after kind 41, and whether the old numbers are those that e tells.
fn pushed(now: Now, before: TcpFlow, got: PushedState, e: &[u8], right: bool) -> Now {
    let same = right && are_sides(e, got.cl, got.sv);
    stepped(now, before, got.flow, back(e, 9), same)
}

fn header(kind: u8, flow: TcpFlow, dlen: u32, csum: u16) -> Header {
    if kind == 0x49 {
        return flow.client_hdr(dlen, csum);
    }
    flow.server_hdr(dlen, csum)
}

// Kinds 49 and 4a: a header alone.
fn headed(now: Now, before: TcpFlow, kind: u8, a: &[u8]) -> Now {
    let got = header(kind, before, fields::four(a, 0), fields::two(a, 4));
    let size = fields::four(a, 6);
    let same = front(back(a, 10), 20) == got.bytes.as_slice();
    stepped(now, before, got.flow, back(a, 30), same && size == 20)
}

// Kinds that write no packet.
pub(crate) fn unsent(now: Now, kind: u8, a: &[u8]) -> Now {
    let bytes = fields::four(a, 0);
    match (kind, now.tcp) {
        (0x40, _) => opened(now, a),
        (0x41 | 0x42, Some(flow)) => set(now, flow, kind, a),
        (0x43, Some(flow)) => stepped(now, flow, flow.client_hole(bytes), back(a, 4), true),
        (0x44, Some(flow)) => stepped(now, flow, flow.server_hole(bytes), back(a, 4), true),
        (0x49 | 0x4a, Some(flow)) => headed(now, flow, kind, a),
        _ => state::told(now, false),
    }
}

// So many packets were written, and the flow moved on.
fn packets(now: Now, flow: TcpFlow, count: u8, first: usize, second: usize, end: usize) -> Now {
    Now {
        tcp: Some(flow),
        count,
        first,
        second,
        end,
        ..now
    }
}

// The flow and the packets after a call; as they were, where it was refused.
fn wrote(now: Now, sent: Result<Sent, Refusal>) -> Now {
    match sent {
        Ok(Sent::One(flow, a)) => packets(now, flow, 1, a, a, a),
        Ok(Sent::Two(flow, a, b)) => packets(now, flow, 2, a, b, b),
        Ok(Sent::Three(flow, a, b, c)) => packets(now, flow, 3, a, b, c),
        Err(_) => now,
    }
}

// Kinds 45 and 46.
fn segment(kind: u8, flow: TcpFlow, bytes: &[u8], out: &mut [u8]) -> Result<Sent, Refusal> {
    if kind == 0x45 {
        return flow.client_data_segment(bytes, out);
    }
    flow.server_data_segment(bytes, out)
}

// Kinds 47, 48 and 4b to 4f.
fn empty(kind: u8, flow: TcpFlow, out: &mut [u8]) -> Result<Sent, Refusal> {
    match kind {
        0x47 => flow.client_ack(out),
        0x48 => flow.server_ack(out),
        0x4b => flow.open(out),
        0x4c => flow.client_close(out),
        0x4d => flow.server_close(out),
        0x4e => flow.client_reset(out),
        _ => flow.server_reset(out),
    }
}

// Kinds 50 to 53, with a yes or a no behind the payload.
fn message(
    kind: u8,
    flow: TcpFlow,
    ack: bool,
    bytes: &[u8],
    frag_off: u16,
    out: &mut [u8],
) -> Result<Sent, Refusal> {
    if kind % 2 == 0 {
        return flow.client_message(bytes, ack, frag_off, out);
    }
    flow.server_message(bytes, ack, frag_off, out)
}

// The call of the case, with this number for frag_off, on the flow if it is open. What is neither a yes nor a no is no call.
pub(crate) fn sent(
    now: Now,
    kind: u8,
    b: &[u8],
    bytes: &[u8],
    frag_off: u16,
    out: &mut [u8],
) -> Now {
    let Some(flow) = now.tcp else {
        return now;
    };
    if kind < 0x47 {
        return wrote(now, segment(kind, flow, bytes, out));
    }
    if kind < 0x50 {
        return wrote(now, empty(kind, flow, out));
    }
    match fields::byte(payload::behind(kind, b), 0) {
        0 => wrote(now, message(kind, flow, false, bytes, frag_off, out)),
        1 => wrote(now, message(kind, flow, true, bytes, frag_off, out)),
        _ => now,
    }
}
