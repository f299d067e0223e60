// Lists of ends over the three packets of 40 bytes that open a flow.
use crate::made::flow_at;
use crate::shown::show;
use ezpkt::part::front;
use std::io;

// Three ends.
fn three(
    rt: &impl Print,
    what: &str,
    packets: &[u8],
    a: usize,
    b: usize,
    c: usize,
) -> io::Result<()> {
    show(rt, what, packets, &[a, b, c])
}

// Lists that are reported.
fn right(rt: &impl Print, packets: &[u8]) -> io::Result<()> {
    show(rt, "no ends", packets, &[])?;
    three(rt, "the three packets", packets, 40, 80, 120)?;
    three(rt, "an end equal to the one before", packets, 40, 40, 80)?;
    three(rt, "a first end of 0", packets, 0, 40, 80)?;
    three(rt, "a packet cut in two", packets, 20, 40, 80)?;
    show(rt, "no ends and no bytes", front(packets, 0), &[])
}

// Lists with a wrong end.
fn wrong(rt: &impl Print, packets: &[u8]) -> io::Result<()> {
    three(rt, "an end below the one before", packets, 40, 39, 80)?;
    three(rt, "a last end below the one before", packets, 80, 120, 40)?;
    three(rt, "an end past the bytes", packets, 40, 80, 121)?;
    three(rt, "the largest end", packets, 0xffffffffffffffff, 40, 80)?;
    three(rt, "one below, then one past", packets, 80, 40, 121)?;
    three(rt, "one past, then one below", packets, 40, 121, 80)
}

// All of them.
pub(crate) fn each(rt: &impl Print) -> io::Result<()> {
    let mut packets = [0u8; 120];
    let _ = flow_at(1000, 5000).open(&mut packets);
    right(rt, &packets)?;
    wrong(rt, &packets)
}
