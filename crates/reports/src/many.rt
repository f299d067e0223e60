// The longest list of ends, and one that is longer.
use crate::shown::show;
use std::io;

// A list of ends, each past the bytes, of which there are none: without its last end and with it.
fn around(rt: &impl Print, ends: &[usize]) -> io::Result<()> {
    if let Some((_, most)) = ends.split_last() {
        show(rt, "1,000,000 ends past the bytes", b"", most)?;
    }
    show(rt, "1,000,001 ends past the bytes", b"", ends)
}

// The array as a list.
fn whole(rt: &impl Print, ends: &[usize; 1000001]) -> io::Result<()> {
    around(rt, ends)
}

// 1,000,001 ends.
pub(crate) fn each(rt: &impl Print) -> io::Result<()> {
    let ends = [1usize; 1000001];
    whole(rt, &ends)
}
