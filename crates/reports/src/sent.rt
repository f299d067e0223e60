// What a flow sends at a place, where there is room for it, and the flow then.
use pkt::refusal::Refusal;
use tcp4::{Sent, TcpFlow};

// The flow after a call; it stays where nothing was sent.
fn after(flow: TcpFlow, sent: Result<Sent, Refusal>) -> TcpFlow {
    match sent {
        Ok(Sent::One(next, _)) => next,
        Ok(Sent::Two(next, _, _)) => next,
        Ok(Sent::Three(next, _, _, _)) => next,
        Err(_) => flow,
    }
}

// The three packets that open it, at the start.
pub(crate) fn open(flow: TcpFlow, out: &mut [u8]) -> TcpFlow {
    after(flow, flow.open(out))
}

// The flow after a call that is given the room at a place.
fn at_place<F: Fn(&mut [u8]) -> Result<Sent, Refusal>>(
    flow: TcpFlow,
    at: usize,
    out: &mut [u8],
    call: F,
) -> TcpFlow
    requires { F.IsAlwaysCallable call }
{
    match out.get_mut(at..) {
        Some(rest) => after(flow, call(rest)),
        None => flow,
    }
}

// The client's message, and the server's acknowledgment.
pub(crate) fn tell(flow: TcpFlow, bytes: &[u8], at: usize, out: &mut [u8]) -> TcpFlow {
    at_place(
        flow,
        at,
        out,
        |rest| flow.client_message(bytes, true, 0, rest),
    )
}

// The server's message, and no acknowledgment.
pub(crate) fn answer(flow: TcpFlow, bytes: &[u8], at: usize, out: &mut [u8]) -> TcpFlow {
    at_place(
        flow,
        at,
        out,
        |rest| flow.server_message(bytes, false, 0, rest),
    )
}

// The three packets by which the client closes it.
pub(crate) fn close(flow: TcpFlow, at: usize, out: &mut [u8]) -> TcpFlow {
    at_place(flow, at, out, |rest| flow.client_close(rest))
}
