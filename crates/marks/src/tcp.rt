// Every call of a TCP flow, one after the other on the same flow; those that build no packet with an acknowledgment behind them.
use crate::shown;
use crate::shown::Flows;
use ezpkt::part::{back, front};
use ezpkt::{Marks, SocketAddrV4};
use pkt::refusal::Refusal;
use std::io;
use tcp4::{Sent, Seq, TcpFlow};

// The flow after a call, and where up to three packets end: what there is not ends where the one before it does.
// Numbers, and no Sent: two flows' packets are shown side by side, and so both have three ends.
#[derive(Clone, Copy, Drop)]
struct Run {
    flow: TcpFlow,
    first: usize,
    second: usize,
    third: usize,
}

fn ran(flow: TcpFlow, sent: Result<Sent, Refusal>) -> Run {
    let (flow, first, second, third) = match sent {
        Ok(Sent::One(next, a)) => (next, a, a, a),
        Ok(Sent::Two(next, a, b)) => (next, a, b, b),
        Ok(Sent::Three(next, a, b, c)) => (next, a, b, c),
        Err(_) => (flow, 0, 0, 0),
    };
    Run {
        flow,
        first,
        second,
        third,
    }
}

// The packet from one place to another.
fn part(packets: &[u8], from: usize, to: usize) -> &[u8] {
    back(front(packets, to), from)
}

fn show_packets(rt: &impl Print, a: &[u8], x: Run, b: &[u8], y: Run) -> io::Result<()> {
    shown::show_both(rt, front(a, x.first), front(b, y.first))?;
    if x.second > x.first {
        let plain = part(b, y.first, y.second);
        shown::show_both(rt, part(a, x.first, x.second), plain)?;
    }
    if x.third > x.second {
        let plain = part(b, y.second, y.third);
        shown::show_both(rt, part(a, x.second, x.third), plain)?;
    }
    Ok(())
}

// The call on both flows.
fn both<C: Fn(TcpFlow, &mut [u8]) -> Result<Sent, Refusal>>(
    rt: &impl Print,
    what: &str,
    flows: Flows<TcpFlow>,
    call: C,
) -> io::Result<Flows<TcpFlow>>
    requires { C.IsAlwaysCallable call }
{
    let mut a = [0u8; 120];
    let mut b = [0u8; 120];
    let x = ran(flows.marked, call(flows.marked, &mut a));
    let y = ran(flows.plain, call(flows.plain, &mut b));
    println!(rt; "TCP, the {what}")?;
    show_packets(rt, &a, x, &b, y)?;
    Ok(Flows {
        marked: x.flow,
        plain: y.flow,
    })
}

// The opening, and the calls on the numbers of both sides.
fn calls_of_both(rt: &impl Print, flows: Flows<TcpFlow>) -> io::Result<Flows<TcpFlow>> {
    let flows = both(rt, "client's opening", flows, |f, out| f.open(out))?;
    let flows = both(
        rt,
        "client's acknowledgment after push_state",
        flows,
        |f, out| { f.push_state(Seq::Is(9), Seq::Nothing).flow.client_ack(out) },
    )?;
    both(
        rt,
        "client's acknowledgment after pop_state",
        flows,
        |f, out| { f.pop_state(Seq::Nothing, Seq::Is(70000)).client_ack(out) },
    )
}

fn calls_of_client(rt: &impl Print, flows: Flows<TcpFlow>) -> io::Result<Flows<TcpFlow>> {
    let flows = both(rt, "client's message, acknowledged", flows, |f, out| {
        f.client_message(b"lap!", true, 0, out)
    })?;
    let flows = both(rt, "client's message", flows, |f, out| {
        f.client_message(b"lap!", false, 0, out)
    })?;
    let flows = both(rt, "client's data segment", flows, |f, out| {
        f.client_data_segment(b"lap!", out)
    })?;
    let flows = both(
        rt,
        "client's acknowledgment",
        flows,
        |f, out| f.client_ack(out),
    )?;
    let flows = both(
        rt,
        "client's acknowledgment after a hole",
        flows,
        |f, out| { f.client_hole(7).client_ack(out) },
    )?;
    let flows = both(
        rt,
        "client's acknowledgment after a header",
        flows,
        |f, out| { f.client_hdr(7, 0).flow.client_ack(out) },
    )?;
    let flows = both(rt, "client's close", flows, |f, out| f.client_close(out))?;
    both(rt, "client's reset", flows, |f, out| f.client_reset(out))
}

fn calls_of_server(rt: &impl Print, flows: Flows<TcpFlow>) -> io::Result<Flows<TcpFlow>> {
    let flows = both(rt, "server's message, acknowledged", flows, |f, out| {
        f.server_message(b"lap!", true, 0, out)
    })?;
    let flows = both(rt, "server's message", flows, |f, out| {
        f.server_message(b"lap!", false, 0, out)
    })?;
    let flows = both(rt, "server's data segment", flows, |f, out| {
        f.server_data_segment(b"lap!", out)
    })?;
    let flows = both(
        rt,
        "server's acknowledgment",
        flows,
        |f, out| f.server_ack(out),
    )?;
    let flows = both(
        rt,
        "server's acknowledgment after a hole",
        flows,
        |f, out| { f.server_hole(7).server_ack(out) },
    )?;
    let flows = both(
        rt,
        "server's acknowledgment after a header",
        flows,
        |f, out| { f.server_hdr(7, 0).flow.server_ack(out) },
    )?;
    let flows = both(rt, "server's close", flows, |f, out| f.server_close(out))?;
    both(rt, "server's reset", flows, |f, out| f.server_reset(out))
}

pub(crate) fn calls(
    rt: &impl Print,
    cl: SocketAddrV4,
    sv: SocketAddrV4,
    marks: Marks,
) -> io::Result<()> {
    let plain = TcpFlow::new(cl, sv, 1000, 5000);
    let marked = plain.marked(marks);
    let opened = calls_of_both(rt, Flows { marked, plain })?;
    let told = calls_of_client(rt, opened)?;
    calls_of_server(rt, told)?;
    Ok(())
}
