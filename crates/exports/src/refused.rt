// Captures that are refused, and the room that is just enough.
use crate::made::{changed, put_bytes, three};
use crate::shown::show_into;
use ezpkt::part::front;
use std::io::Error;

// Microseconds: the least that are refused, and the most. Those of the three records stand at 28, 47 and 68.
const MILLION: [u8; 4] = *b"\x40\x42\x0f\x00";

const MOST: [u8; 4] = *b"\xff\xff\xff\xff";

// The first n bytes of the three records.
fn cut(rt: &(impl Print + AllocGlobal), words: &str, n: usize, room: usize) -> Result<(), Error> {
    let c = three();
    show_into(rt, words, front(&c, n), room)
}

// .. all of them, with other bytes at a place.
fn changed_three(
    rt: &(impl Print + AllocGlobal),
    words: &str,
    at: usize,
    bytes: &[u8],
    room: usize,
) -> Result<(), Error> {
    show_into(rt, words, &changed(three(), at, bytes), room)
}

// .. or at two.
fn changed_twice(
    rt: &(impl Print + AllocGlobal),
    words: &str,
    at: usize,
    bytes: &[u8],
    then: usize,
    others: &[u8],
) -> Result<(), Error> {
    let c = changed(three(), at, bytes);
    show_into(rt, words, &changed(c, then, others), 192)
}

// 23.
fn headers(rt: &(impl Print + AllocGlobal)) -> Result<(), Error> {
    cut(rt, "no bytes", 0, 192)?;
    cut(rt, "a header cut short", 23, 192)?;
    changed_three(
        rt,
        "the magic number for nanoseconds",
        0,
        b"\x4d\x3c\xb2\xa1",
        192,
    )?;
    changed_three(rt, "link type 1", 20, b"\x01", 192)
}

// 25, where a record is cut short,
fn records(rt: &(impl Print + AllocGlobal)) -> Result<(), Error> {
    cut(rt, "the first record's header cut short", 39, 192)?;
    cut(rt, "the second record's header cut short", 58, 192)?;
    cut(rt, "the last record's header cut short", 65, 192)?;
    cut(rt, "the first record's bytes cut short", 42, 192)?;
    cut(rt, "the last record's bytes cut short", 83, 192)?;
    changed_three(rt, "a length of 65,536", 51, b"\x00\x00\x01\x00", 192)
}

// and where it has all of its bytes, and one too many.
fn too_long(rt: &(impl Print + AllocGlobal)) -> Result<(), Error> {
    let mut c = vec![in rt.alloc(); 0u8; 65576]?;
    let _ = pcap::write_header(&mut c);
    put_bytes(b"\x00\x00\x01\x00\x00\x00\x01\x00", 32, &mut c);
    show_into(rt, "a packet of 65,536 bytes", &c, 65618)
}

// 17.
fn times(rt: &(impl Print + AllocGlobal)) -> Result<(), Error> {
    changed_three(rt, "1,000,000 us in the first", 28, &MILLION, 192)?;
    changed_three(rt, "4,294,967,295 us in the last", 68, &MOST, 192)?;
    changed_twice(rt, "both in the last two", 47, &MILLION, 68, &MOST)
}

// Two refusals at once.
fn orders(rt: &(impl Print + AllocGlobal)) -> Result<(), Error> {
    changed_twice(rt, "23 before 17", 20, b"\x01", 28, &MOST)?;
    changed_twice(
        rt,
        "25 of the last before 17 of the first",
        28,
        &MOST,
        72,
        b"\x05",
    )?;
    changed_three(rt, "17 of the last before 3", 68, &MOST, 159)?;
    changed_three(rt, "17 of the last before 3, no room", 68, &MOST, 0)?;
    cut(rt, "23 before 3", 23, 0)?;
    cut(rt, "25 before 3", 83, 0)
}

// 3.
fn rooms(rt: &(impl Print + AllocGlobal)) -> Result<(), Error> {
    cut(rt, "one byte too few", 84, 159)?;
    cut(rt, "exactly enough", 84, 160)?;
    cut(rt, "no room", 84, 0)?;
    cut(rt, "no records, one byte too few", 24, 47)?;
    cut(rt, "no records, exactly enough", 24, 48)?;
    cut(rt, "no records, no room", 24, 0)
}

// All of them.
pub(crate) fn each(rt: &(impl Print + AllocGlobal)) -> Result<(), Error> {
    headers(rt)?;
    records(rt)?;
    too_long(rt)?;
    times(rt)?;
    orders(rt)?;
    rooms(rt)
}
