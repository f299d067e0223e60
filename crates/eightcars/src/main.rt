// Telemetry of eight cars, cut and mixed, and every refusal of a table, run: each line is a call and what it answers.
#![tactic(auto)]

mod cars;
mod steps;
mod words;

ghost use Rattle.std.specs.Prelude.{◌<◌};

use assembly::Rec;
use ezpkt::ip4;
use std::io;
use steps::Step::{Discard, Far, Lie, Out, Piece, Slots, Zero};
use steps::{hand, play, run};
use table::Slot;
use words::{show_refused, yes};

// The 24 pieces of eight cars in one order, and what is taken out then.
fn order(
    rt: &impl Print,
    from: u8,
    by: u8,
    payloads: &mut [u8],
    maps: &mut [u8],
) -> io::Result<()> {
    println!(rt; "all pieces from place {from} in steps of {by}:")?;
    let all = run(rt, table::new(), 24, from, by, payloads, maps)?;
    play(
        rt,
        all,
        &[
            Slots,
            Out(1),
            Out(2),
            Out(3),
            Out(4),
            Out(5),
            Out(6),
            Out(7),
            Out(8),
        ],
        payloads,
        maps,
    )?;
    Ok(())
}

// A ninth car has to wait until one of eight is out.
fn ninth(rt: &impl Print, payloads: &mut [u8], maps: &mut [u8]) -> io::Result<()> {
    println!(rt; "a ninth car:")?;
    let eight = run(rt, table::new(), 8, 0, 3, payloads, maps)?;
    let nine = play(
        rt,
        eight,
        &[
            Piece(9, 0),
            Far(9),
            Piece(2, 4),
            Piece(2, 2),
            Piece(9, 0),
            Out(2),
            Piece(9, 0),
            Slots,
            Piece(9, 4),
            Piece(9, 2),
            Out(9),
        ],
        payloads,
        maps,
    )?;
    emptied(rt, nine, payloads, maps)
}

// Then the other seven are discarded, and all is zero.
fn emptied(rt: &impl Print, t: [Slot; 8], payloads: &mut [u8], maps: &mut [u8]) -> io::Result<()> {
    play(
        rt,
        t,
        &[
            Discard(1),
            Discard(3),
            Discard(4),
            Discard(5),
            Discard(6),
            Discard(7),
            Discard(8),
            Zero,
        ],
        payloads,
        maps,
    )?;
    Ok(())
}

// What is spoilt is discarded, and its key is used again.
fn spoil(rt: &impl Print, payloads: &mut [u8], maps: &mut [u8]) -> io::Result<()> {
    println!(rt; "two pieces that contradict each other:")?;
    let spoilt = play(
        rt,
        table::new(),
        &[
            Piece(1, 0),
            Out(1),
            Lie(1, 0),
            Piece(1, 4),
            Piece(1, 2),
            Out(1),
        ],
        payloads,
        maps,
    )?;
    play(
        rt,
        spoilt,
        &[
            Discard(1),
            Out(1),
            Discard(1),
            Piece(1, 0),
            Piece(1, 4),
            Piece(1, 2),
            Out(1),
        ],
        payloads,
        maps,
    )?;
    Ok(())
}

// A slot with the key of car 1.
fn slot(used: bool, total: Option<usize>, floor: usize, spoilt: bool) -> Slot {
    let key = cars::key_of(1);
    let rec = Rec {
        key,
        total,
        floor,
        spoilt,
    };
    Slot { used, rec }
}

// Free slots are free whatever is in them.
fn rubbish(rt: &impl Print) -> io::Result<()> {
    let mut payloads = [0xaau8; 65536];
    let mut maps = [0xffu8; 1024];
    let free = slot(false, Some(60000), 65000, true);
    println!(rt; "rubbish with the key of car 1 in eight free slots:")?;
    play(
        rt,
        [free; 8],
        &[
            Out(1),
            Discard(1),
            Piece(2, 0),
            Piece(1, 0),
            Slots,
            Piece(2, 4),
            Piece(2, 2),
            Piece(1, 4),
            Piece(1, 2),
            Out(1),
            Out(2),
            Out(1),
        ],
        &mut payloads,
        &mut maps,
    )?;
    Ok(())
}

// Takes a datagram of car 2 out into so many bytes, and compares it with what was sent.
fn into(
    rt: &impl Print,
    t: [Slot; 8],
    out: &mut [u8],
    sent: &[u8],
    payloads: &mut [u8],
    maps: &mut [u8],
) -> io::Result<[Slot; 8]> {
    print!(rt; "car 2 out into {} bytes:", out.len())?;
    let taken = table::take_out(t, cars::key_of(2), payloads, maps, out);
    match taken.answer {
        Err(refusal) => show_refused(rt, refusal)?,
        Ok(n) => print!(rt; " {n} bytes, as sent: {}", yes(&*out == sent))?,
    }
    println!(rt; "")?;
    Ok(taken.table)
}

// A datagram of 8,192 bytes, handed in whole and taken out into one byte less, into as many, and once more.
fn long(
    rt: &impl Print,
    t: [Slot; 8],
    payloads: &mut [u8],
    maps: &mut [u8],
) -> io::Result<[Slot; 8]> {
    let mut data = [b'x'; 8192];
    data[0] = b'a';
    data[8191] = b'z';
    let mut packet = [0u8; 8212];
    let _ = ip4::datagram(cars::template_of(2), &data, &mut packet);
    print!(rt; "8,192 bytes of car 2:")?;
    let all = hand(rt, t, &packet, payloads, maps)?;
    let mut short = [0u8; 8191];
    let kept = into(rt, all, &mut short, &data, payloads, maps)?;
    let mut enough = [0u8; 8192];
    let gone = into(rt, kept, &mut enough, &data, payloads, maps)?;
    into(rt, gone, &mut short, &data, payloads, maps)
}

// A slot filled to its end leaves those beside it as they are.
fn beside(rt: &impl Print, payloads: &mut [u8], maps: &mut [u8]) -> io::Result<()> {
    println!(rt; "8,192 bytes between two others:")?;
    let free = play(
        rt,
        table::new(),
        &[Piece(1, 0), Piece(2, 0), Piece(3, 0), Discard(2)],
        payloads,
        maps,
    )?;
    let filled = long(rt, free, payloads, maps)?;
    play(
        rt,
        filled,
        &[
            Piece(1, 4),
            Piece(1, 2),
            Piece(3, 4),
            Piece(3, 2),
            Out(1),
            Out(3),
        ],
        payloads,
        maps,
    )?;
    Ok(())
}

// The three calls with this table and these buffers.
fn calls(rt: &impl Print, t: [Slot; 8], payloads: &mut [u8], maps: &mut [u8]) -> io::Result<()> {
    play(rt, t, &[Piece(2, 0), Out(2), Discard(2)], payloads, maps)?;
    Ok(())
}

// The three calls with P payload bytes and M map bytes.
fn sized<const P: usize, const M: usize>(rt: &impl Print, words: &str) -> io::Result<()>
    requires payloads_small { P < 65538 }
    requires maps_small { M < 65538 }
{
    let mut payloads = [0u8; P];
    let mut maps = [0u8; M];
    println!(rt; "{words}:")?;
    calls(rt, table::new(), &mut payloads, &mut maps)
}

// One byte too few, and one too many.
fn sizes(rt: &impl Print) -> io::Result<()> {
    sized::<65535, 1024>(rt, "65,535 payload bytes")?;
    sized::<65537, 1024>(rt, "65,537 payload bytes")?;
    sized::<65536, 1023>(rt, "1,023 map bytes")?;
    sized::<65536, 1025>(rt, "1,025 map bytes")
}

// The three calls with two slots of which one, and perhaps the other, is car 1's.
fn slots(rt: &impl Print, second: Slot, last: Slot) -> io::Result<()> {
    let mut payloads = [0u8; 65536];
    let mut maps = [0u8; 1024];
    let mut t = table::new();
    t[1] = second;
    t[7] = last;
    calls(rt, t, &mut payloads, &mut maps)
}

fn records(rt: &impl Print) -> io::Result<()> {
    let free = slot(false, None, 0, false);
    let good = slot(true, None, 0, false);
    println!(rt; "total 8,193 in the last slot:")?;
    slots(rt, free, slot(true, Some(8193), 0, false))?;
    println!(rt; "total 8,192:")?;
    slots(rt, free, slot(true, Some(8192), 0, false))?;
    println!(rt; "floor 8,194:")?;
    slots(rt, free, slot(true, None, 8194, false))?;
    println!(rt; "floor 8,193:")?;
    slots(rt, free, slot(true, None, 8193, false))?;
    println!(rt; "one key in two slots:")?;
    slots(rt, good, good)
}

// Hands one packet to an empty table.
fn first(rt: &impl Print, packet: &[u8]) -> io::Result<()> {
    let mut payloads = [0u8; 65536];
    let mut maps = [0u8; 1024];
    hand(rt, table::new(), packet, &mut payloads, &mut maps)?;
    Ok(())
}

fn cut_short(rt: &impl Print) -> io::Result<()> {
    let packet = cars::piece(1, 1, 0);
    print!(rt; "19 bytes:")?;
    first(rt, &packet[0..19])?;
    print!(rt; "35 of 36 bytes:")?;
    first(rt, &packet[0..35])
}

// A piece with another byte at one place of its header.
fn changed(rt: &impl Print, words: &str, i: usize, byte: u8) -> io::Result<()> {
    let at = i % 20;
    let mut packet = cars::piece(1, 1, 0);
    packet[at] = byte;
    print!(rt; "{words}:")?;
    first(rt, &packet)
}

fn headers(rt: &impl Print) -> io::Result<()> {
    cut_short(rt)?;
    changed(rt, "version 5", 0, 0x55)?;
    changed(rt, "a header of 4 words", 0, 0x44)?;
    changed(rt, "a header of 10 words, and 36 bytes", 0, 0x4a)?;
    changed(rt, "total length 19", 3, 19)?;
    changed(rt, "another TTL under the same checksum", 8, 63)?;
    changed(rt, "the same TTL", 8, 64)?;
    changed(rt, "the reserved bit set under the same checksum", 6, 0xa0)
}

fn router_alert(rt: &impl Print) -> io::Result<()> {
    print!(rt; "8 bytes behind router alert:")?;
    first(
        rt,
        b"\x46\x00\x00\x20\x00\x00\x00\x00\x40\x11\xd1\xc6\x0a\x00\x00\x01\x0a\x00\x00\x02\x94\x04\x00\x00\x61\x20\x70\x69\x65\x63\x65\x21",
    )
}

// Hands a datagram with these flags and this offset to an empty table.
fn placed(rt: &impl Print, words: &str, frag_off: u16, data: &[u8]) -> io::Result<()> {
    let whole = cars::datagram(1, frag_off, data);
    print!(rt; "{words}:")?;
    first(rt, whole.packet())
}

fn ends(rt: &impl Print) -> io::Result<()> {
    placed(rt, "the reserved bit set", 0x8000, b"")?;
    placed(rt, "9 bytes with the reserved bit and MF set", 0xa000, b"!")?;
    placed(rt, "9 bytes with MF set", 0x2000, b"!")?;
    placed(
        rt,
        "9 bytes at block 1,023 with MF set",
        0x2000 + 1023,
        b"!",
    )?;
    placed(rt, "9 bytes at block 1,023", 1023, b"!")?;
    placed(rt, "8 bytes at block 1,023", 1023, b"")?;
    placed(rt, "8 bytes at block 1,023 with MF set", 0x2000 + 1023, b"")?;
    placed(rt, "8 bytes at block 8,191", 8191, b"")
}

// One after the other in the same buffers.
fn runs(rt: &impl Print, payloads: &mut [u8], maps: &mut [u8]) -> io::Result<()> {
    order(rt, 3, 7, payloads, maps)?;
    order(rt, 20, 19, payloads, maps)?;
    ninth(rt, payloads, maps)?;
    spoil(rt, payloads, maps)?;
    beside(rt, payloads, maps)
}

// All of them.
fn each(rt: &impl Print) -> io::Result<()> {
    let mut payloads = [0u8; 65536];
    let mut maps = [0u8; 1024];
    runs(rt, &mut payloads, &mut maps)?;
    rubbish(rt)?;
    sizes(rt)?;
    records(rt)?;
    headers(rt)?;
    router_alert(rt)?;
    ends(rt)
}

fn main(rt: HostRuntime) {
    let _ = each(&rt); // what cannot be written is not shown
}
