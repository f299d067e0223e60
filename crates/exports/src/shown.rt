// A capture exported, and what came of it.
use ezpkt::part::{back, front};
use pkt::refusal::ListRefusal;
use std::io::Error;

// What each byte of the output is before a call.
const BYTE: u8 = 0xaa;

// What the call answers. (By a match, and no Display: the type is a library's, and each program has its own words for it.)
fn say_answer(rt: &impl Print, answer: Result<usize, ListRefusal>) -> Result<(), Error> {
    match answer {
        Ok(n) => print!(rt; ": {n} bytes"),
        Err(ListRefusal::Whole(refusal)) => print!(rt; ": refused {}", refusal.number()),
        Err(ListRefusal::At(refusal, record)) => {
            print!(rt; ": refused {} at record {record}", refusal.number())
        }
    }
}

// Whether all these bytes are as before the call. (As in mends: no library needs it.)
fn is_filled(s: &[u8]) -> bool {
    s.iter().all(|b| *b == BYTE)
}

// .. the end of an answer's line.
fn say_untouched(rt: &impl Print, rest: &[u8]) -> Result<(), Error> {
    if is_filled(rest) {
        rt.print(", the rest untouched")
    } else {
        rt.print(", the rest NOT untouched")
    }
}

// Each of these bytes in two hexadecimal digits, 16 on a line of their own.
fn say_bytes(rt: &impl Print, s: &[u8]) -> Result<(), Error> {
    for line in s.chunks(16) {
        rt.print("\n ")?;
        for b in line {
            print!(rt; " {b:02x}")?;
        }
    }
    Ok(())
}

// What was written; of a long file the first 96 bytes and the last 16.
fn say_file(rt: &impl Print, file: &[u8]) -> Result<(), Error> {
    if file.len() <= 512 {
        say_bytes(rt, file)?;
    } else {
        say_bytes(rt, front(file, 96))?;
        rt.print("\n  ..")?;
        say_bytes(rt, back(file, file.len() - 16))?;
    }
    rt.println("")
}

// Exports a capture into lent room, and says what came of it.
fn show(rt: &impl Print, words: &str, capture: &[u8], out: &mut [u8]) -> Result<(), Error> {
    let answer = exporting::export(capture, out);
    let n = answer.unwrap_or(0); // how many bytes it says that it wrote
    print!(rt; "{words}, {} bytes into {}", capture.len(), out.len())?;
    say_answer(rt, answer)?;
    say_untouched(rt, back(out, n))?;
    say_file(rt, front(out, n))
}

// .. with room for so many bytes.
pub(crate) fn show_into(
    rt: &(impl Print + AllocGlobal),
    words: &str,
    capture: &[u8],
    room: usize,
) -> Result<(), Error> {
    let mut out = vec![in rt.alloc(); BYTE; room]?;
    show(rt, words, capture, &mut out)
}
