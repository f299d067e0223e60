// Echoes and replies of an ICMP flow.
use crate::shown;
use crate::shown::Flows;
use ezpkt::Marks;
use ezpkt::icmp4::{EchoSent, IcmpFlow};
use ezpkt::part::front;
use pkt::refusal::Refusal;
use std::io;

// The call on both flows, each as it was where it was refused.
fn both<C: Fn(IcmpFlow, &mut [u8]) -> Result<EchoSent, Refusal>>(
    rt: &impl Print,
    what: &str,
    flows: Flows<IcmpFlow>,
    call: C,
) -> io::Result<Flows<IcmpFlow>>
    requires { C.IsAlwaysCallable call }
{
    let Flows { marked, plain } = flows;
    let mut a = [0u8; 32];
    let mut b = [0u8; 32];
    let x = call(marked, &mut a).unwrap_or(EchoSent {
        flow: marked,
        size: 0,
    });
    let y = call(plain, &mut b).unwrap_or(EchoSent {
        flow: plain,
        size: 0,
    });
    println!(rt; "ICMP, {what}")?;
    shown::show_both(rt, front(&a, x.size), front(&b, y.size))?;
    Ok(Flows {
        marked: x.flow,
        plain: y.flow,
    })
}

// Two of each, so that both numbers have moved on.
pub(crate) fn calls(rt: &impl Print, cl: u32, sv: u32, marks: Marks) -> io::Result<()> {
    let plain = IcmpFlow::new(cl, sv);
    let marked = plain.marked(marks);
    let one = both(
        rt,
        "an echo",
        Flows { marked, plain },
        |f, out| f.echo(b"lap!", out),
    )?;
    let two = both(rt, "a reply", one, |f, out| f.echo_reply(b"lap!", out))?;
    let three = both(rt, "the next echo", two, |f, out| f.echo(b"lap!", out))?;
    both(
        rt,
        "the next reply",
        three,
        |f, out| f.echo_reply(b"lap!", out),
    )?;
    Ok(())
}
