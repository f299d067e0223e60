// Reads a capture, and prints the report of one TCP flow in it.
#![tactic(auto)]

mod gather;
mod table;

ghost use Rattle.std.specs.Prelude.{◌≤◌, length};
ghost use Rattle.flowreport.specs.Gather.{GatherAsks, most_bytes};

use ezpkt::SocketAddrV4;
use pkt::refusal::{ListRefusal, Refusal};
use reporting::Report;
use std::alloc::AllocError;
use std::env::FillError;
use std::fmt::Display;
use std::io::Read;
use std::rt::Env;

// The bytes of the longest capture that is taken.
const MOST: usize = 2097152;

// Says on standard error what failed, and why. (In each program for itself: no contract can say what a stream takes, and nothing public goes without
// one.)
fn say_failed(rt: &impl Eprint, what: &str, e: impl Display + Drop) {
    let _ = eprintln!(rt; "flowreport: {what}: {e}");
}

fn say_wanted(rt: &impl Eprint) {
    let _ = rt.eprintln(
        "flowreport wants two words, CLIENT:PORT SERVER:PORT, as in: flowreport 10.0.0.1:40000 10.0.0.2:80 < flows.pcap\nAn address is four numbers of 0 to 255, a port 0 to 65535, in decimal and with no leading 0.",
    );
}

// Why a refusal is given for the whole of a capture. (The texts, here and below, are each program's own.)
fn reason(refusal: Refusal) -> &'static str {
    if refusal == Refusal::NotCapture {
        "the input does not begin with the header of a classic pcap capture, little-endian, version 2.4, with microseconds, snap length 65,535 and link type 101"
    } else {
        "more than 1,000,000 packets"
    }
}

// Why there is no report.
fn say_refused(rt: &impl Eprint, refused: ListRefusal) {
    let _ = match refused {
        ListRefusal::Whole(refusal) => {
            eprintln!(rt;
                "flowreport: refused by {}: {}",
                refusal.number(),
                reason(refusal)
            )
        }
        ListRefusal::At(refusal, record) => {
            eprintln!(rt;
                "flowreport: refused by {}: record {record} is cut short, or has more than 65,535 bytes",
                refusal.number()
            )
        }
    };
}

// The report of a capture's packets, which are put end to end into out, with their ends. (cl and sv go apart, here and below, as flow_report takes
// them.)
fn report_in(
    capture: &[u8],
    out: &mut [u8],
    ends: &mut [usize],
    cl: SocketAddrV4,
    sv: SocketAddrV4,
) -> Result<Report, ListRefusal>
    requires { GatherAsks capture.now out.old ends.old }
{
    let packets = gather::gather(capture, out, ends)?;
    reporting::flow_report(out, &ends[0..packets], cl, sv)
}

// The report of a capture, or why there is none. A record has a header of 16 bytes.
fn report(
    rt: &(impl Print + Eprint + AllocGlobal),
    capture: &[u8],
    cl: SocketAddrV4,
    sv: SocketAddrV4,
) -> Result<(), AllocError>
    requires { length capture.now ≤ most_bytes }
{
    let mut out = vec![in rt.alloc(); 0u8; capture.len()]?;
    let mut ends = vec![in rt.alloc(); 0usize; capture.len() / 16 + 1]?;
    match report_in(capture, &mut out, &mut ends, cl, sv) {
        Ok(r) => {
            if let Err(e) = table::show(rt, r) {
                say_failed(rt, "standard output", e);
            }
        }
        Err(refused) => say_refused(rt, refused),
    }
    Ok(())
}

// Reads until the buffer is full or the input ends, and answers how many bytes were read. A read that fails is the input's end.
// (A while into a lent array: read_to_end asks for 512 bytes at first, and so cuts a longer message. In each program for itself: no contract can say
// what a stream gives.)
fn fill(from: &mut impl Read, buf: &mut [u8]) -> usize
    ensures { result ≤ length buf.new }
{
    let mut n = 0;
    while n < buf.len() {
        let more = from.read(&mut buf[n..]).unwrap_or(0);
        if more == 0 {
            break;
        }
        n += more;
    }
    n
}

// Reads a capture, and reports on it; a byte more than the longest has shows that there is more.
fn read_into(
    rt: &(impl Print + Eprint + Input + AllocGlobal),
    input: &mut [u8],
    cl: SocketAddrV4,
    sv: SocketAddrV4,
) -> Result<(), AllocError> {
    let n = fill(&mut rt.reader(), input);
    if MOST < n {
        let _ = rt.eprintln("flowreport: more than 2,097,152 bytes of input");
        return Ok(());
    }
    report(rt, &input[..n], cl, sv)
}

fn run(
    rt: &(impl Print + Eprint + Input + AllocGlobal),
    cl: SocketAddrV4,
    sv: SocketAddrV4,
) -> Result<(), AllocError> {
    let mut input = vec![in rt.alloc(); 0u8; MOST + 1]?;
    read_into(rt, &mut input, cl, sv)
}

// The word of this number at the start of buf, and how long it is: 0 where it is missing or longer than buf. (Not env::args, here and below: it wants
// memory for every word and UTF-8 in every word, the program's name too. In each program for itself: no contract can say which words it has.)
fn word(rt: &impl Env, i: usize, buf: &mut [u8]) -> usize
    ensures { result ≤ length buf.new }
{
    rt.arg(i, buf).unwrap_or(0)
}

// How many words there are, with the program's name.
fn word_count(rt: &impl Env) -> usize {
    for i in 0..usize::MAX {
        if let Err(FillError::NotPresent) = rt.arg(i, &mut [0u8; 1]) {
            return i;
        }
    }
    usize::MAX
}

// The two addresses that the words behind the program's name are, if they are.
fn addresses(rt: &impl Env) -> Option<(SocketAddrV4, SocketAddrV4)> {
    let mut client = [0u8; words::LONGEST];
    let mut server = [0u8; words::LONGEST];
    let a = word(rt, 1, &mut client);
    let b = word(rt, 2, &mut server);
    if word_count(rt) != 3 {
        return None;
    }
    let cl = words::read_address(&client[..a])?;
    let sv = words::read_address(&server[..b])?;
    Some((cl, sv))
}

fn main(rt: HostRuntime) {
    let Some((cl, sv)) = addresses(&rt) else {
        say_wanted(&rt);
        return;
    };
    if let Err(e) = run(&rt, cl, sv) {
        say_failed(&rt, "memory", e);
    }
}
