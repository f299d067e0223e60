// Exports a capture: the classic capture on standard input goes to standard output as pcapng.
#![tactic(auto)]

ghost use Rattle.std.specs.Prelude.{◌≤◌, length, IfOk};

use pkt::refusal::{ListRefusal, Refusal};
use std::alloc::AllocError;
use std::env::FillError;
use std::fmt::Display;
use std::io::{Error, Read};
use std::rt::Env;

// The bytes of the longest capture that is taken.
const MOST: usize = 2097152;

// The most bytes that one becomes: 48 before the packets, and a block for each record. A record of n bytes takes 16 + n of the capture behind its
// header of 24, and its block 32 + n and up to three zeros: 36 bytes for 17 where n is 1, and for every other n fewer to a byte. So there is always
// room.
const MOST_WRITTEN: usize = 48 + 36 * (MOST - 24) / 17;

// Says on standard error what failed, and why. (In each program for itself: no contract can say what a stream takes, and nothing public goes without
// one.)
fn say_failed(rt: &impl Eprint, what: &str, e: impl Display + Drop) {
    let _ = eprintln!(rt; "pcapng: {what}: {e}");
}

// Why nothing is written. (The texts, here and below, are each program's own.)
fn say_refused(rt: &impl Eprint, refusal: Refusal) {
    let why = if refusal == Refusal::NotCapture {
        "the input does not begin with the header of a classic pcap capture, little-endian, version 2.4, with microseconds, snap length 65,535 and link type 101"
    } else {
        "there is no room for the pcapng file"
    };
    let _ = eprintln!(rt; "pcapng: refused by {}: {why}", refusal.number());
}

// .. where that lies in a record.
fn say_refused_at(rt: &impl Eprint, refusal: Refusal, record: usize) {
    let why = if refusal == Refusal::BadTime {
        "has a time with more than 999,999 microseconds"
    } else {
        "is cut short, or has more than 65,535 bytes"
    };
    let _ = eprintln!(rt;
        "pcapng: refused by {}: record {record} {why}",
        refusal.number()
    );
}

// The pcapng file.
fn write(rt: &(impl Print + Eprint), file: &[u8]) {
    if let Err(e) = rt.write_all(file) {
        say_failed(rt, "standard output", e);
    }
}

// Exports a capture by way of out, or says why not.
fn export_in(rt: &(impl Print + Eprint), capture: &[u8], out: &mut [u8]) {
    match exporting::export(capture, out) {
        Ok(n) => write(rt, &out[0..n]),
        Err(ListRefusal::Whole(refusal)) => say_refused(rt, refusal),
        Err(ListRefusal::At(refusal, record)) => say_refused_at(rt, refusal, record),
    }
}

fn export(rt: &(impl Print + Eprint + AllocGlobal), capture: &[u8]) -> Result<(), AllocError> {
    let mut out = vec![in rt.alloc(); 0u8; MOST_WRITTEN]?;
    export_in(rt, capture, &mut out);
    Ok(())
}

// Reads until the buffer is full or the input ends, and answers how many bytes were read.
// (A while into a lent array: read_to_end asks for 512 bytes at first, and so cuts a longer message. In each program for itself: no contract can say
// what a stream gives.)
fn fill(from: &mut impl Read, buf: &mut [u8]) -> Result<usize, Error>
    ensures { IfOk result (λ n. n ≤ length buf.new) }
{
    let mut n = 0;
    while n < buf.len() {
        let more = from.read(&mut buf[n..])?;
        if more == 0 {
            break;
        }
        n += more;
    }
    Ok(n)
}

// Reads a capture, and exports it; a byte more than the longest has shows that there is more.
fn run(rt: &(impl Print + Eprint + Input + AllocGlobal)) -> Result<(), AllocError> {
    let mut input = vec![in rt.alloc(); 0u8; MOST + 1]?;
    match fill(&mut rt.reader(), &mut input) {
        Err(e) => say_failed(rt, "standard input", e),
        Ok(n) if MOST < n => {
            let _ = rt.eprintln("pcapng: more than 2,097,152 bytes of input");
        }
        Ok(n) => export(rt, &input[..n])?,
    }
    Ok(())
}

// Whether there are words behind the program's name. (In each program for itself: no contract can say which words it has.)
fn has_words(rt: &impl Env) -> bool {
    !matches!(rt.arg(1, &mut [0u8; 1]), Err(FillError::NotPresent))
}

fn main(rt: HostRuntime) {
    if has_words(&rt) {
        let _ = rt.eprintln("pcapng wants no words, as in: pcapng < old.pcap > new.pcapng");
        return;
    }
    if let Err(e) = run(&rt) {
        say_failed(&rt, "memory", e);
    }
}
