// Reads telemetry, and writes a capture of the datagrams that carry it from a car to the core, a frame at a time.
#![tactic(auto)]

mod frames;
mod setup;

ghost use Rattle.std.specs.Prelude.{◌≤◌, length, IfOk};
ghost use Rattle.lapfeed.specs.Frames.{Ready, Follows, SetUp};

use feed::Feed;
use pkt::limit;
use setup::Setup;
use std::env::FillError;
use std::io::{Error, Read};
use std::rt::Env;

// Says on standard error what failed, and why. (In each program for itself: no contract can say what a stream takes, and nothing public goes without
// one.)
fn say_failed(rt: &impl Eprint, what: &str, e: Error) {
    let _ = eprintln!(rt; "lapfeed: {what}: {e}");
}

// Reads until the buffer is full or the input ends, and answers how many bytes were read.
// (A while: how many bytes a read gives is only known behind it, and read_to_end reads into a Vec, where a frame goes into one lent array. In each
// program for itself: no contract can say what a stream gives.)
fn fill(from: &mut impl Read, buf: &mut [u8]) -> Result<usize, Error>
    ensures { IfOk result (λ n. n ≤ length buf.new) }
{
    let mut n = 0;
    while n < buf.len() {
        let more = from.read(&mut buf[n..])?;
        if more == 0 {
            break;
        }
        n += more;
    }
    Ok(n)
}

// Reads frame i and writes its records: the feed after it, or nothing where it was the last. (Feed, frame and buffers go apart, here and below: each
// buffer is lent to another call.)
fn feed_one(
    rt: &(impl Print + Eprint),
    from: &mut impl Read,
    feed: Feed,
    i: u64,
    input: &mut [u8],
    scratch: &mut [u8],
    out: &mut [u8],
) -> Option<Feed>
    requires { Ready feed i (length input.old) (length scratch.old) (length out.old) }
    ensures { Follows feed result }
{
    let n = match fill(from, input) {
        Ok(n) => n,
        Err(e) => {
            say_failed(rt, "standard input", e);
            return None;
        }
    };
    if n == 0 {
        return None;
    }
    let put = frames::put(feed, i, &input[0..n], scratch, out);
    let size = put.bytes;
    if let Err(e) = rt.write_all(&out[0..size]) {
        say_failed(rt, "standard output", e);
        return None;
    }
    if n < input.len() {
        return None;
    }
    let next = put.feed;
    Some(next)
}

fn say_full(rt: &impl Eprint) {
    let _ = eprintln!(rt;
        "lapfeed: a capture counts seconds up to 4,294,967,295, and no frame goes in after that"
    );
}

// Every frame, from number 0 on. A loop has to end, and nothing says that the input does: this one stops where the 32 bits of a second do, after
// 136 years of telemetry.
fn feed_all(
    rt: &(impl Print + Eprint),
    from: &mut impl Read,
    first: Feed,
    input: &mut [u8],
    scratch: &mut [u8],
    out: &mut [u8],
)
    requires { Ready first 0 (length input.old) (length scratch.old) (length out.old) }
{
    let mut feed = first;
    for i in 0..frames::MOST_FRAMES {
        let Some(next) = feed_one(rt, from, feed, i, input, scratch, out) else {
            return;
        };
        feed = next;
    }
    say_full(rt);
}

fn write_header(rt: &impl Print) -> Result<(), Error> {
    let mut header = [0u8; 24];
    let _ = feed::begin(&mut header);
    rt.write_all(&header)
}

// The capture's header, and every frame behind it.
fn run(rt: &(impl Print + Eprint + Input), setup: Setup)
    requires { SetUp setup }
{
    if let Err(e) = write_header(rt) {
        say_failed(rt, "standard output", e);
        return;
    }
    let mut from = rt.reader();
    let mut input = [0u8; limit::UDP_PAYLOAD]; // lent as far as a frame goes: a Vec of that size would bring memory that runs out
    let mut scratch = [0u8; limit::BYTES];
    let mut out = [0u8; frames::MOST_RECORDS];
    let first = setup.feed;
    let size = setup.size;
    feed_all(
        rt,
        &mut from,
        first,
        &mut input[0..size],
        &mut scratch,
        &mut out,
    );
}

fn say_wanted(rt: &impl Eprint) {
    let _ = eprintln!(rt;
        "lapfeed wants four words, CAR:PORT CORE:PORT LINK FRAME-BYTES, as in: lapfeed 10.0.0.1:5000 10.0.0.2:6000 1500 3480 < telemetry > lap.pcap\nor six, with TOS TTL behind these, which are 0 64 without them.\nAn address is four numbers of 0 to 255, a port 0 to 65535, LINK 28 to 65535, FRAME-BYTES 1 to 65507, and TOS and TTL 0 to 255, in decimal and with no leading 0."
    );
}

// The word of this number at the start of buf, and how long it is: 0 where it is missing or longer than buf. (Not env::args, here and below: it wants
// memory for every word and UTF-8 in every word, the program's name too. In each program for itself: no contract can say which words it has.)
fn word(rt: &impl Env, i: usize, buf: &mut [u8]) -> usize
    ensures { result ≤ length buf.new }
{
    rt.arg(i, buf).unwrap_or(0)
}

// How many words there are, with the program's name.
fn word_count(rt: &impl Env) -> usize {
    for i in 0..usize::MAX {
        if let Err(FillError::NotPresent) = rt.arg(i, &mut [0u8; 1]) {
            return i;
        }
    }
    usize::MAX
}

// Reads the two words behind the first four, if they are there, and runs what all of them ask for.
fn start(
    rt: &(impl Print + Eprint + Input + Env),
    car: &[u8],
    core: &[u8],
    link: &[u8],
    size: &[u8],
) {
    let mut tos = [0u8; words::LONGEST];
    let mut ttl = [0u8; words::LONGEST];
    let a = word(rt, 5, &mut tos);
    let b = word(rt, 6, &mut ttl);
    let count = word_count(rt);
    match setup::read_all(count, car, core, link, size, &tos[..a], &ttl[..b]) {
        Some(setup) => run(rt, setup),
        None => say_wanted(rt),
    }
}

fn main(rt: HostRuntime) {
    let mut car = [0u8; words::LONGEST];
    let mut core = [0u8; words::LONGEST];
    let mut link = [0u8; words::LONGEST];
    let mut size = [0u8; words::LONGEST];
    let a = word(&rt, 1, &mut car);
    let b = word(&rt, 2, &mut core);
    let c = word(&rt, 3, &mut link);
    let d = word(&rt, 4, &mut size);
    start(&rt, &car[..a], &core[..b], &link[..c], &size[..d]);
}
