// One word, or the odd last byte, at every number.
use crate::shown;
use crate::shown::{Answer, Run};
use ezpkt::part::back;
use inspect::check;
use std::io;

// The word at a place, or the odd last byte.
fn number_at(packet: &[u8], place: usize) -> u16 {
    match back(packet, place) {
        [high, low, ..] => u16::from_be_bytes([*high, *low]),
        [last] => u16::from(*last),
        [] => 0,
    }
}

fn put(packet: &mut [u8], place: usize, x: u16) {
    let [high, low] = x.to_be_bytes();
    let end = packet.len();
    match &mut packet[place.min(end)..] {
        [a, b, ..] => {
            *a = high;
            *b = low;
        }
        [last] => *last = low,
        [] => {}
    }
}

// What the check answers with a number there.
fn answer_with(packet: &mut [u8], place: usize, x: u16) -> Answer {
    put(packet, place, x);
    check::check(packet)
}

// A line for the word at a place, or for the odd last byte.
fn line(rt: &impl Print, packet: &mut [u8], place: usize) -> io::Result<()> {
    let (most, digits) = if back(packet, place).len() > 1 {
        (0xffff, 4)
    } else {
        (0xff, 2)
    };
    let was = number_at(packet, place);
    print!(rt; "  at {place}, {was:0digits$x}:")?;
    let mut run = Run {
        first: 0,
        last: 0,
        answer: answer_with(packet, place, 0),
    };
    for x in 1..=most {
        run = shown::next(rt, run, x, answer_with(packet, place, x), digits)?;
    }
    shown::show_run(rt, run, digits)?;
    put(packet, place, was);
    println!(rt; "")
}

// A line for each word from a place on.
pub(crate) fn each(rt: &impl Print, packet: &mut [u8], from: usize) -> io::Result<()> {
    for place in (from..packet.len()).step_by(2) {
        line(rt, packet, place)?;
    }
    Ok(())
}
