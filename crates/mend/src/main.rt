// Mends a capture: the checksums of its packets are worked out anew. The mended capture goes to standard output, and each change is a line on
// standard error.
#![tactic(auto)]

ghost use Rattle.std.specs.Prelude.{◌≤◌, length, IfOk};

use pkt::refusal::{ListRefusal, Refusal};
use std::alloc::AllocError;
use std::env::FillError;
use std::fmt::Display;
use std::io::{Error, Read};
use std::rt::Env;

// The bytes of the longest capture that is taken.
const MOST: usize = 65536;

// The most changes in one. Its header has 24 bytes, so that its records have 65,512. A record with a change has a header of 16 and a packet of at
// least 28, the IPv4 header's 20 and 8 of its transport: there are at most 65,512 / 44 = 1,488 of them. Each has at most two changes: 2,976.
const MOST_CHANGES: usize = 2 * ((MOST - 24) / (16 + 28));

// Says on standard error what failed, and why. (In each program for itself: no contract can say what a stream takes, and nothing public goes without
// one.)
fn say_failed(rt: &impl Eprint, what: &str, e: impl Display + Drop) {
    let _ = eprintln!(rt; "mend: {what}: {e}");
}

// Which checksum. (A number, as mending's rows have it: mending::IPV4 says why. mends has this and the next too: a program has no library of its own.)
fn field_name(which: usize) -> &'static str {
    if which == mending::IPV4 {
        "IPv4"
    } else {
        "transport"
    }
}

// A line for one change: the record's number, which checksum, what it was and what it is.
fn say_change(rt: &impl Eprint, change: [usize; 4]) {
    let [record, which, old, new] = change;
    let _ = eprintln!(rt;
        "mend: record {record}, {} checksum: was 0x{old:04x}, is now 0x{new:04x}",
        field_name(which)
    );
}

// Why a refusal is given for the whole of a capture. (The texts, here and below, are each program's own.)
fn reason(refusal: Refusal) -> &'static str {
    if refusal == Refusal::NotCapture {
        "the input does not begin with the header of a classic pcap capture, little-endian, version 2.4, with microseconds, snap length 65,535 and link type 101"
    } else {
        "there is no room for the mended capture or its changes"
    }
}

// Why nothing is written.
fn say_refused(rt: &impl Eprint, refused: ListRefusal) {
    let _ = match refused {
        ListRefusal::Whole(refusal) => {
            eprintln!(rt;
                "mend: refused by {}: {}",
                refusal.number(),
                reason(refusal)
            )
        }
        ListRefusal::At(refusal, record) => {
            eprintln!(rt;
                "mend: refused by {}: record {record} is cut short, or has more than 65,535 bytes",
                refusal.number()
            )
        }
    };
}

// The mended capture, and a line for each change.
fn write(rt: &(impl Print + Eprint), capture: &[u8], changes: &[[usize; 4]]) {
    if let Err(e) = rt.write_all(capture) {
        say_failed(rt, "standard output", e);
        return;
    }
    for change in changes {
        say_change(rt, *change);
    }
}

// Mends a capture into out, its changes into rows, or says why not.
fn mend_into(rt: &(impl Print + Eprint), capture: &[u8], out: &mut [u8], rows: &mut [[usize; 4]]) {
    match mending::mend(capture, out, rows) {
        Ok(counts) => write(rt, &out[0..counts.bytes], &rows[0..counts.changed]),
        Err(refused) => say_refused(rt, refused),
    }
}

fn mend(rt: &(impl Print + Eprint + AllocGlobal), capture: &[u8]) -> Result<(), AllocError> {
    let mut out = vec![in rt.alloc(); 0u8; MOST]?;
    let mut rows = vec![in rt.alloc(); [0usize; 4]; MOST_CHANGES]?;
    mend_into(rt, capture, &mut out, &mut rows);
    Ok(())
}

// Reads until the buffer is full or the input ends, and answers how many bytes were read.
// (A while into a lent array: read_to_end asks for 512 bytes at first, and so cuts a longer message. In each program for itself: no contract can say
// what a stream gives.)
fn fill(from: &mut impl Read, buf: &mut [u8]) -> Result<usize, Error>
    ensures { IfOk result (λ n. n ≤ length buf.new) }
{
    let mut n = 0;
    while n < buf.len() {
        let more = from.read(&mut buf[n..])?;
        if more == 0 {
            break;
        }
        n += more;
    }
    Ok(n)
}

// Reads a capture, and mends it; a byte more than the longest has shows that there is more.
fn run(rt: &(impl Print + Eprint + Input + AllocGlobal)) -> Result<(), AllocError> {
    let mut input = vec![in rt.alloc(); 0u8; MOST + 1]?;
    match fill(&mut rt.reader(), &mut input) {
        Err(e) => say_failed(rt, "standard input", e),
        Ok(n) if MOST < n => {
            let _ = rt.eprintln("mend: more than 65,536 bytes of input");
        }
        Ok(n) => mend(rt, &input[..n])?,
    }
    Ok(())
}

// Whether there are words behind the program's name. (In each program for itself: no contract can say which words it has.)
fn has_words(rt: &impl Env) -> bool {
    !matches!(rt.arg(1, &mut [0u8; 1]), Err(FillError::NotPresent))
}

fn main(rt: HostRuntime) {
    if has_words(&rt) {
        let _ = rt.eprintln("mend wants no words, as in: mend < old.pcap > new.pcap");
        return;
    }
    if let Err(e) = run(&rt) {
        say_failed(&rt, "memory", e);
    }
}
