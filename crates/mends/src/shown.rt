// A capture mended, and what came of it.
ghost use Rattle.std.specs.Prelude.{◌<◌, ◌≤◌, length};

use crate::words::{show_change, show_checked};
use ezpkt::part::{back, front};
use inspect::check;
use mending::Counts;
use pkt::refusal::ListRefusal;
use std::io;

// What each byte of the second buffer is before a call, and each number of a row.
pub const BYTE: u8 = 0xaa;

pub const NUMBER: usize = 7;

// The middle of an answer's line. (By a match, and no Display: the type is a library's, and each program has its own words for it.)
fn show_answer(rt: &impl Print, answer: Result<Counts, ListRefusal>) -> io::Result<()> {
    match answer {
        Ok(counts) => print!(rt; "{} bytes, changes: {}", counts.bytes, counts.changed),
        Err(ListRefusal::Whole(refusal)) => print!(rt; "refused {}", refusal.number()),
        Err(ListRefusal::At(refusal, record)) => {
            print!(rt; "refused {} at record {record}", refusal.number())
        }
    }
}

// Whether all these bytes are as before the call. (As in exports: no library needs it.)
fn is_filled(s: &[u8]) -> bool {
    s.iter().all(|b| *b == BYTE)
}

// Whether a row is as before the call.
fn is_blank(row: &[usize; 4]) -> bool {
    row.iter().all(|n| *n == NUMBER)
}

// Whether the rows from a place on are as before the call.
fn are_blank(from: usize, rows: &[[usize; 4]]) -> bool {
    rows.iter().skip(from).all(is_blank)
}

// The changes, a line for each.
fn show_changes(rt: &impl Print, changes: usize, rows: &[[usize; 4]]) -> io::Result<()> {
    for row in rows.iter().take(changes) {
        show_change(rt, *row)?;
    }
    Ok(())
}

// The byte at a place, or 0 past the end. (No library needs it.)
fn byte_at(s: &[u8], at: usize) -> u8 {
    s.get(at).copied().unwrap_or(0)
}

// The places at which the mended capture has another byte than the capture.
fn show_places(rt: &impl Print, capture: &[u8], mended: &[u8]) -> io::Result<()> {
    print!(rt; "  changed at:")?;
    for (i, b) in capture.iter().enumerate() {
        if *b != byte_at(mended, i) {
            print!(rt; " {i}")?;
        }
    }
    rt.println("")
}

// How many bytes the packet of the record at the start of s has.
fn size(s: &[u8]) -> u16 {
    u16::from_le_bytes([byte_at(s, 8), byte_at(s, 9)])
}

// How many bytes of s that record takes: some of them, if there are any.
fn taken(s: &[u8]) -> usize
    ensures { (result ≤ length s.now) × (0 < length s.now → 0 < result) }
{
    s.len().min(16 + size(s) as usize)
}

// A line for that record: how long its packet is, what the check answers, and its bytes, of a long one the first 64.
fn show_packet(rt: &impl Print, s: &[u8]) -> io::Result<()> {
    let n = size(s) as usize;
    let packet = front(back(s, 16), n);
    print!(rt; "  {n} bytes, ")?;
    show_checked(rt, check::check(packet))?;
    for b in front(packet, 64) {
        print!(rt; " {b:02x}")?;
    }
    rt.println("")
}

// A line for each record. (A while: how long a record is, stands in it.)
fn show_packets(rt: &impl Print, records: &[u8]) -> io::Result<()> {
    let mut rest = records;
    while !rest.is_empty() {
        show_packet(rt, rest)?;
        let n = taken(rest);
        rest = &rest[n..];
    }
    Ok(())
}

// What the mender wrote.
fn show_written(
    rt: &impl Print,
    counts: Counts,
    capture: &[u8],
    mended: &[u8],
    rows: &[[usize; 4]],
) -> io::Result<()> {
    if counts.bytes > 0 {
        show_changes(rt, counts.changed, rows)?;
        show_places(rt, capture, mended)?;
        show_packets(rt, back(mended, 24))?;
    }
    Ok(())
}

// What came of a capture: the answer, and what the second buffer and the list hold then.
fn show_mended(
    rt: &impl Print,
    what: &str,
    capture: &[u8],
    answer: Result<Counts, ListRefusal>,
    out: &[u8],
    rows: &[[usize; 4]],
) -> io::Result<()> {
    let counts = answer.unwrap_or(Counts {
        bytes: 0,
        changed: 0,
    });
    print!(rt; "{what}, {} bytes: ", capture.len())?;
    show_answer(rt, answer)?;
    if is_filled(back(out, counts.bytes)) && are_blank(counts.changed, rows) {
        rt.println(", the rest untouched")?;
    } else {
        rt.println(", the rest NOT untouched")?;
    }
    show_written(rt, counts, capture, front(out, counts.bytes), rows)
}

// Mends a capture into lent room, and says what came of it.
pub(crate) fn show(
    rt: &impl Print,
    what: &str,
    capture: &[u8],
    out: &mut [u8],
    rows: &mut [[usize; 4]],
) -> io::Result<()> {
    let answer = mending::mend(capture, out, rows);
    show_mended(rt, what, capture, answer, out, rows)
}

// .. with room for so many bytes and changes.
pub(crate) fn show_into(
    rt: &(impl Print + AllocGlobal),
    what: &str,
    capture: &[u8],
    room: usize,
    places: usize,
) -> io::Result<()> {
    let mut out = vec![in rt.alloc(); BYTE; room]?;
    let mut rows = vec![in rt.alloc(); [NUMBER; 4]; places]?;
    show(rt, what, capture, &mut out, &mut rows)
}
