// Prints the plan by which so many bytes are cut for a link, or says whether a list of requests is a plan for them.
#![tactic(auto)]

mod lines;
mod words;

ghost use Rattle.std.specs.Prelude.{◌≡◌, ◌≤◌, ◌-◌, length};
ghost use Rattle.ezpkt.specs.Build.{start_at, end_at};

use ezpkt::ip4;
use lines::{Fault, Place, Reading};
use pieces::BlockRequest;
use pkt::refusal::Refusal;
use planner::{Job, Look};
use std::env::FillError;
use std::io::{Error, Read};
use std::rt::Env;
use words::Ask;

// Says on standard error what failed, and why. In each program for itself: no contract can say what a stream takes,
// and nothing public goes uncontracted.
fn say_failed(rt: &impl Eprint, what: &str, e: Error) {
    let _ = eprintln!(rt; "plan: {what}: {e}");
}

// The bytes that a piece of n bytes carries.
fn carried(r: BlockRequest, n: usize) -> usize
    ensures { result ≡ end_at r.off r.len n - start_at r.off n }
{
    ip4::fragment_size(r.off, r.len, n) - 20
}

// One line: the offset and the length in blocks, and the bytes.
fn print_request(rt: &impl Print, r: BlockRequest, n: usize) -> Result<(), Error> {
    let off = r.off;
    let len = r.len;
    let bytes = carried(r, n);
    println!(rt; "{off} {len} {bytes}")
}

fn print_requests(rt: &impl Print, job: Job) -> Result<(), Error> {
    for k in 0..job.count {
        print_request(rt, planner::nth(job, k), job.n)?;
    }
    Ok(())
}

fn print_refused(rt: &impl Print, refusal: Refusal) -> Result<(), Error> {
    let number = refusal.number();
    match refusal {
        Refusal::TooLong => println!(rt; "refused by {number}: more than 65,515 bytes"),
        Refusal::NoPlan => println!(rt;
            "refused by {number}: there is no plan for so many bytes and such a link"
        ),
        _ => println!(rt; "refused by {number}"),
    }
}

// The plan, or its refusal. Of the plan's lines alone a failed write is said.
fn list(rt: &(impl Print + Eprint), n: usize, m: usize) {
    match planner::decide(n, m, lines::MOST_LINES) {
        Ok(job) => {
            if let Err(e) = print_requests(rt, job) {
                say_failed(rt, "standard output", e);
            }
        }
        Err(refusal) => {
            let _ = print_refused(rt, refusal);
        }
    }
}

fn print_judged(rt: &impl Print, look: Look) -> Result<(), Error> {
    match planner::judge(look) {
        Ok(true) => println!(rt; "yes"),
        Ok(false) => println!(rt; "no"),
        Err(refusal) => print_refused(rt, refusal),
    }
}

// Says on standard error why the list cannot be read on.
fn say_fault(rt: &impl Eprint, fault: Fault) {
    let _ = match fault {
        Fault::Bad(lines) => {
            let line = lines.saturating_add(1);
            eprintln!(rt;
                "plan: line {line} is no request: a line is an offset, one space, a length and a newline, each number 0 to 65535 in decimal with no leading 0; text behind a second space is passed over"
            )
        }
        Fault::Many => eprintln!(rt; "plan: the list has more than 8,190 lines"),
    };
}

// The answer where the list ends here. That it could not be written is not said.
fn finish(rt: &(impl Print + Eprint), reading: Reading) {
    let place = reading.place;
    let look = reading.look;
    let _ = match place {
        Place::Start => print_judged(rt, look),
        Place::Whole(_, _) => print_judged(rt, look),
        _ => return say_fault(rt, Fault::Bad(reading.lines)),
    };
}

// Reads to the end of the list. A loop has to end, and nothing says that the input does: this one stops after more reads than any input takes.
fn check(rt: &(impl Print + Eprint + Input), n: usize, m: usize) {
    let mut from = rt.reader();
    let mut reading = lines::read_none(n, m);
    let mut buf = [0u8; 4096];
    for _ in 0..u64::MAX {
        let k = match from.read(&mut buf) {
            Ok(0) => return finish(rt, reading),
            Ok(k) => k,
            Err(e) => return say_failed(rt, "standard input", e),
        };
        reading = match lines::read_on(reading, &buf[..k]) {
            Ok(next) => next,
            Err(fault) => return say_fault(rt, fault),
        };
    }
    let _ = eprintln!(rt; "plan: the list did not end after 18,446,744,073,709,551,615 reads");
}

fn say_wanted(rt: &impl Eprint) {
    let _ = eprintln!(rt;
        "plan wants two words, BYTES LINK, as in: plan 3488 1500\nWith a third word, check, it reads a list of requests: plan 3488 1500 check < list\nA number is 0 to 18446744073709551615, in decimal and with no leading 0."
    );
}

// The word of this number at the start of buf, and how long it is: 0 where it is missing or longer than buf. (Not env::args, here and below: it wants
// memory for every word and UTF-8 in every word, the program's name too. In each program for itself: no contract can say which words it has.)
fn word(rt: &impl Env, i: usize, buf: &mut [u8]) -> usize
    ensures { result ≤ length buf.new }
{
    rt.arg(i, buf).unwrap_or(0)
}

// How many words there are, with the program's name.
fn word_count(rt: &impl Env) -> usize {
    for i in 0..usize::MAX {
        if let Err(FillError::NotPresent) = rt.arg(i, &mut [0u8; 1]) {
            return i;
        }
    }
    usize::MAX
}

fn main(rt: HostRuntime) {
    let mut n = [0u8; words::LONGEST];
    let mut m = [0u8; words::LONGEST];
    let mut third = [0u8; 5];
    let a = word(&rt, 1, &mut n);
    let b = word(&rt, 2, &mut m);
    let c = word(&rt, 3, &mut third);
    let count = word_count(&rt).saturating_sub(1);
    match words::read_words(count, &n[..a], &m[..b], &third[..c]) {
        Some(Ask::List(n, m)) => list(&rt, n, m),
        Some(Ask::Check(n, m)) => check(&rt, n, m),
        None => say_wanted(&rt),
    }
}
