// Datagrams of a UDP flow.
use crate::shown;
use crate::shown::Flows;
use ezpkt::part::front;
use ezpkt::udp4::{Choices, UdpFlow};
use ezpkt::{Marks, SocketAddrV4};
use pkt::refusal::Refusal;
use std::io;

const CHOICES: Choices = Choices {
    srcip: None,
    frag_off: 0,
    csum: true,
};

// The call on both flows.
fn both<C: Fn(UdpFlow, &mut [u8]) -> Result<usize, Refusal>>(
    rt: &impl Print,
    what: &str,
    flows: Flows<UdpFlow>,
    call: C,
) -> io::Result<()>
    requires { C.IsAlwaysCallable call }
{
    let mut a = [0u8; 32];
    let mut b = [0u8; 32];
    let n = call(flows.marked, &mut a).unwrap_or(0);
    let m = call(flows.plain, &mut b).unwrap_or(0);
    println!(rt; "UDP, {what}")?;
    shown::show_both(rt, front(&a, n), front(&b, m))
}

pub(crate) fn calls(
    rt: &impl Print,
    cl: SocketAddrV4,
    sv: SocketAddrV4,
    marks: Marks,
) -> io::Result<()> {
    let plain = UdpFlow::new(cl, sv);
    let flows = Flows {
        marked: plain.marked(marks),
        plain,
    };
    both(rt, "the client's datagram", flows, |f, out| {
        f.client_dgram(b"lap!", CHOICES, out)
    })?;
    both(rt, "the server's datagram", flows, |f, out| {
        f.server_dgram(b"lap!", CHOICES, out)
    })
}
