// A lap in three pieces, with router alert on some of them, in every order.
use crate::{first, handed, key_of, piece_of, show_held};
use assembly::Rec;
use std::io;

// The lap's piece at block 0, 1 or 2, with router alert: a block, and eight bytes that do not count; the last has two blocks.
fn alerted(off: u16) -> [u8; 40] {
    match off {
        0 => {
            *b"\x46\x00\x00\x20\x00\x00\x20\x00\x40\x11\xb1\xc6\x0a\x00\x00\x01\x0a\x00\x00\x02\x94\x04\x00\x00\x9c\x40\x00\x50\x00\x20\x35\x2d12345678"
        }
        1 => {
            *b"\x46\x00\x00\x20\x00\x00\x20\x01\x40\x11\xb1\xc5\x0a\x00\x00\x01\x0a\x00\x00\x02\x94\x04\x00\x00a lap be12345678"
        }
        _ => {
            *b"\x46\x00\x00\x28\x00\x00\x00\x02\x40\x11\xd1\xbc\x0a\x00\x00\x01\x0a\x00\x00\x02\x94\x04\x00\x00tween two points"
        }
    }
}

// Whether the piece at a block has router alert, by a choice among eight. (A number, and no three flags: choices counts through all eight.)
fn has_alert(choice: u8, off: u16) -> bool {
    match off {
        0 => choice % 2 == 1,
        1 => choice / 2 % 2 == 1,
        _ => choice / 4 % 2 == 1,
    }
}

// Hands in the lap's piece at a block, with router alert or without.
fn hand_lap(
    rt: &impl Print,
    rec: Rec,
    choice: u8,
    off: u16,
    payload: &mut [u8; 65515],
    map: &mut [u8; 1024],
) -> io::Result<Rec> {
    if has_alert(choice, off) {
        return handed(rt, rec, &alerted(off), payload, map);
    }
    handed(rt, rec, &piece_of(17, off, off / 2 + 1), payload, map)
}

// The lap's assembly, opened.
fn opened(payload: &mut [u8; 65515], map: &mut [u8; 1024]) -> Rec {
    let key = key_of(17);
    let none = Rec {
        key,
        total: None,
        floor: 0,
        spoilt: true,
    };
    assembly::open(key, payload, map).unwrap_or(none)
}

// The three pieces in an order, and the record then.
fn three(
    rt: &impl Print,
    choice: u8,
    order: [u16; 3],
    payload: &mut [u8; 65515],
    map: &mut [u8; 1024],
) -> io::Result<Rec> {
    let mut now = opened(payload, map);
    for off in order {
        let after = hand_lap(rt, now, choice, off, payload, map)?;
        now = after;
    }
    Ok(now)
}

// Where router alert is.
fn show_alert(rt: &impl Print, choice: u8, off: u16) -> io::Result<()> {
    if has_alert(choice, off) {
        print!(rt; " {off}")?;
    }
    Ok(())
}

// Which pieces have router alert, and the order.
fn show_order(rt: &impl Print, choice: u8, order: [u16; 3]) -> io::Result<()> {
    let [a, b, c] = order;
    print!(rt; "router alert on")?;
    if choice == 0 {
        print!(rt; " none")?;
    }
    show_alert(rt, choice, 0)?;
    show_alert(rt, choice, 1)?;
    show_alert(rt, choice, 2)?;
    print!(rt; ", blocks {a} {b} {c}:")
}

// Whether two payload buffers and two maps are the same.
fn same_bytes(p: &[u8], q: &[u8], m: &[u8], n: &[u8]) -> bool {
    p == q && m == n
}

// Whether a state is that without router alert.
fn show_same(rt: &impl Print, same: bool) -> io::Result<()> {
    if same {
        print!(rt; ", the same state")
    } else {
        print!(rt; ", ANOTHER state")
    }
}

// What a complete lap carries.
fn show_lap(rt: &impl Print, rec: Rec, payload: &[u8; 65515], map: &[u8; 1024]) -> io::Result<()> {
    show_held(rt, assembly::progress(rec, payload, map), payload, 8)?;
    println!(rt; "")
}

// The pieces with router alert and as they are, and whether both end in the same state.
fn beside(rt: &impl Print, choice: u8, order: [u16; 3]) -> io::Result<()> {
    let mut payload = [0u8; 65515];
    let mut map = [0u8; 1024];
    let mut other = [0u8; 65515];
    let mut marks = [0u8; 1024];
    show_order(rt, choice, order)?;
    let rec = three(rt, choice, order, &mut payload, &mut map)?;
    print!(rt; ", without it:")?;
    let plain = three(rt, 0, order, &mut other, &mut marks)?;
    show_same(
        rt,
        rec == plain && same_bytes(&payload, &other, &map, &marks),
    )?;
    show_lap(rt, rec, &payload, &map)
}

// All six orders.
fn orders(rt: &impl Print, choice: u8) -> io::Result<()> {
    beside(rt, choice, [0, 1, 2])?;
    beside(rt, choice, [0, 2, 1])?;
    beside(rt, choice, [1, 0, 2])?;
    beside(rt, choice, [1, 2, 0])?;
    beside(rt, choice, [2, 0, 1])?;
    beside(rt, choice, [2, 1, 0])
}

// All eight choices.
fn choices(rt: &impl Print) -> io::Result<()> {
    for choice in 0..8 {
        orders(rt, choice)?;
    }
    Ok(())
}

// A piece with router alert whose header is wrong.
fn refused(rt: &impl Print) -> io::Result<()> {
    let mut out = alerted(0);
    out[23] = 1;
    print!(rt; "another byte in the option:")?;
    first(rt, &out)?;
    out[3] = 23;
    print!(rt; "router alert, total length 23:")?;
    first(rt, &out)
}

// All of them.
pub(crate) fn each(rt: &impl Print) -> io::Result<()> {
    choices(rt)?;
    refused(rt)
}
