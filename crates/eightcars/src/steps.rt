// The calls of a table, each with the line that says what it answers, and the table after it.
use crate::cars;
use crate::words::{show_gone, show_refused, show_stepped, yes};
use ezpkt::part;
use pkt::refusal::Refusal;
use std::io;
use table::Slot;

// A step.
#[derive(Clone, Copy, Drop)]
pub(crate) enum Step {
    // The piece of a car's telemetry that begins at a block.
    Piece(u8, u16),
    // The same piece with what car 9 sends there.
    Lie(u8, u16),
    // A datagram of a car that ends at 8,193.
    Far(u8),
    // Takes the datagram of a car out.
    Out(u8),
    // Discards what is there of a car.
    Discard(u8),
    // Which car is in each slot.
    Slots,
    // Whether all is zero.
    Zero,
}

// Hands a packet in. (Table and buffers go apart here and below, as the calls that are shown take them.)
pub(crate) fn hand(
    rt: &impl Print,
    t: [Slot; 8],
    packet: &[u8],
    payloads: &mut [u8],
    maps: &mut [u8],
) -> io::Result<[Slot; 8]> {
    let placed = table::take(t, packet, payloads, maps);
    show_stepped(rt, placed.answer)?;
    println!(rt; "")?;
    Ok(placed.table)
}

// Hands in the piece that begins at block off of the telemetry of the car `of`, sent by `car`.
fn piece(
    rt: &impl Print,
    t: [Slot; 8],
    car: u8,
    of: u8,
    off: u16,
    payloads: &mut [u8],
    maps: &mut [u8],
) -> io::Result<[Slot; 8]> {
    let packet = cars::piece(car, of, off);
    print!(rt; "car {car} block {off}")?;
    if of != car {
        print!(rt; " with the data of car {of}")?;
    }
    print!(rt; ":")?;
    hand(rt, t, &packet, payloads, maps)
}

// Hands in a datagram of a car that ends at 8,193.
fn far(
    rt: &impl Print,
    t: [Slot; 8],
    car: u8,
    payloads: &mut [u8],
    maps: &mut [u8],
) -> io::Result<[Slot; 8]> {
    let whole = cars::datagram(car, 1023, b"!");
    print!(rt; "car {car}, 9 bytes at block 1,023:")?;
    hand(rt, t, whole.packet(), payloads, maps)
}

// The length of what was taken out, whether it is the car's telemetry, and its words.
fn show_out(
    rt: &impl Print,
    car: u8,
    answer: Result<usize, Refusal>,
    out: &[u8],
) -> io::Result<()> {
    match answer {
        Err(refusal) => show_refused(rt, refusal)?,
        Ok(n) => {
            let datagram = part::front(out, n);
            print!(rt;
                " {n} bytes, as sent: {}, ",
                yes(cars::is_telemetry(car, datagram))
            )?;
            rt.write_all(part::back(datagram, 8))?;
        }
    }
    println!(rt; "")
}

// Takes the datagram of a car out.
fn out(
    rt: &impl Print,
    t: [Slot; 8],
    car: u8,
    payloads: &mut [u8],
    maps: &mut [u8],
) -> io::Result<[Slot; 8]> {
    let mut out = [0u8; 80];
    print!(rt; "car {car} out:")?;
    let taken = table::take_out(t, cars::key_of(car), payloads, maps, &mut out);
    show_out(rt, car, taken.answer, &out)?;
    Ok(taken.table)
}

// Discards what is there of a car.
fn discard(
    rt: &impl Print,
    t: [Slot; 8],
    car: u8,
    payloads: &mut [u8],
    maps: &mut [u8],
) -> io::Result<[Slot; 8]> {
    print!(rt; "car {car} discarded:")?;
    let gone = table::discard(t, cars::key_of(car), payloads, maps);
    show_gone(rt, gone.answer)?;
    println!(rt; "")?;
    Ok(gone.table)
}

// The number of the car whose key a slot has.
fn show_slot(rt: &impl Print, s: Slot) -> io::Result<()> {
    if s.used {
        print!(rt; " {}", s.rec.key.saddr % 256)
    } else {
        print!(rt; " -")
    }
}

// Which car is in each slot. The table stays.
fn slots(rt: &impl Print, t: [Slot; 8]) -> io::Result<[Slot; 8]> {
    print!(rt; "slots:")?;
    for s in t {
        show_slot(rt, s)?;
    }
    println!(rt; "")?;
    Ok(t)
}

// Whether the payloads, and then the maps, are all zero. The table stays.
fn zero(rt: &impl Print, t: [Slot; 8], payloads: &[u8], maps: &[u8]) -> io::Result<[Slot; 8]> {
    let payloads_zero = payloads == &[0u8; 65536][..];
    let maps_zero = maps == &[0u8; 1024][..];
    println!(rt;
        "payloads and maps zero: {} {}",
        yes(payloads_zero),
        yes(maps_zero)
    )?;
    Ok(t)
}

// Takes one step.
fn take_step(
    rt: &impl Print,
    t: [Slot; 8],
    s: Step,
    payloads: &mut [u8],
    maps: &mut [u8],
) -> io::Result<[Slot; 8]> {
    match s {
        Step::Piece(car, off) => piece(rt, t, car, car, off, payloads, maps),
        Step::Lie(car, off) => piece(rt, t, car, 9, off, payloads, maps),
        Step::Far(car) => far(rt, t, car, payloads, maps),
        Step::Out(car) => out(rt, t, car, payloads, maps),
        Step::Discard(car) => discard(rt, t, car, payloads, maps),
        Step::Slots => slots(rt, t),
        Step::Zero => zero(rt, t, payloads, maps),
    }
}

// Takes steps, one after the other.
pub(crate) fn play(
    rt: &impl Print,
    t: [Slot; 8],
    steps: &[Step],
    payloads: &mut [u8],
    maps: &mut [u8],
) -> io::Result<[Slot; 8]> {
    let mut now = t;
    for s in steps {
        let after = take_step(rt, now, *s, payloads, maps)?;
        now = after;
    }
    Ok(now)
}

// Place p of the 24 pieces of eight cars: three of each.
fn send_at(
    rt: &impl Print,
    t: [Slot; 8],
    p: u8,
    payloads: &mut [u8],
    maps: &mut [u8],
) -> io::Result<[Slot; 8]> {
    let car = 1 + p / 3;
    piece(rt, t, car, car, 2 * (p % 3) as u16, payloads, maps)
}

fn next(p: u8, by: u8) -> u8 {
    (p % 24 + by % 24) % 24
}

// Hands in n of the 24 pieces: each one's place is `by` behind the one before, and they go round.
pub(crate) fn run(
    rt: &impl Print,
    t: [Slot; 8],
    n: u8,
    first: u8,
    by: u8,
    payloads: &mut [u8],
    maps: &mut [u8],
) -> io::Result<[Slot; 8]> {
    let mut p = first;
    let mut now = t;
    for _ in 0..n {
        let after = send_at(rt, now, p, payloads, maps)?;
        now = after;
        p = next(p, by);
    }
    Ok(now)
}
