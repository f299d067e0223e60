// Reads the file of calls and of what the Rust answered (oracle/FORMAT.md), makes each call through
// this library and compares: every number, every length, every byte of every packet, or its digest
// where the file has only that, every flow and every record after it, and that the bytes behind what
// was written stay (answer.rt and headroom.rt say which are looked at). A refusal is a difference, but for a
// datagram without checksum: it must be refused by 22, and no byte be written.
//
// Prints how many cases of each kind came out as in the Rust, how many were refused as they must be, the first
// that differs, if one does, then how many cases there were and how many differ. Case 1 is the first of the file.
#![tactic(auto)]

mod answer;
mod fields;
mod flows;
mod headers;
mod headroom;
mod icmp;
mod names;
mod payload;
mod pieces;
mod place;
mod state;
mod tcp;
mod udp;

ghost use Rattle.std.specs.Prelude.{◌≤◌};

use crate::names::name;
use crate::state::Now;
use ezpkt::part::{back, front};
use std::io::Error;

const STDIN_FILENO: i32 = 0;

// A case: its number in the file, and its kind.
#[derive(Clone, Copy, Drop)]
struct Case {
    number: u32,
    kind: u8,
}

// What came out: the cases so far, those that were refused as they must be, those that differ, and the first of
// them.
#[derive(Clone, Copy, Default, Drop)]
struct Tally {
    cases: u32,
    refused: u32,
    differ: u32,
    first: Option<Case>,
}

// Between two cases: what they are calls on, what came out, and where the next one begins.
#[derive(Clone, Copy, Drop)]
struct Run {
    now: Now,
    tally: Tally,
    at: usize,
}

// The case of a kind, with its body; buf holds the packet with headroom. A kind is a byte of the file
// (oracle/FORMAT.md), and no enum: its first digit is its family, and the file may have any; a table of closures
// would be read by the same number.
fn family(now: Now, kind: u8, b: &[u8], buf: &mut [u8]) -> Now {
    match kind / 16 {
        0 => state::told(now, headers::call(kind, b)),
        6 => headroom::call(now, kind, b, buf),
        _ => flows::call(now, kind, b),
    }
}

// The tally with this case, if it differs.
fn noted(t: Tally, case: Case, same: bool) -> Tally {
    if same {
        return t;
    }
    Tally {
        differ: t.differ.wrapping_add(1),
        first: t.first.or(Some(case)),
        ..t
    }
}

// The tally with one case more.
fn counted(t: Tally, kind: u8, retired: bool, same: bool) -> Tally {
    let number = t.cases.wrapping_add(1);
    let next = Tally {
        cases: number,
        refused: t.refused.wrapping_add(u32::from(retired && same)),
        ..t
    };
    noted(next, Case { number, kind }, same)
}

// The length of the body that follows a case's first two bytes.
fn body_size(b: &[u8]) -> usize
    ensures { result ≤ 255 }
{
    fields::byte(b, 1) as usize
}

// How many bytes the text at the front has, with the 0 that ends it.
fn text_size(file: &[u8]) -> usize {
    match file.iter().position(|b| *b == 0) {
        Some(i) => i + 1,
        None => file.len(),
    }
}

// Before the first case.
fn begun(file: &[u8]) -> Run {
    Run {
        now: state::start(),
        tally: Tally::default(),
        at: text_size(file),
    }
}

// The next case, unless it is the last, of kind 00. It is counted if it came out as in the Rust.
fn turn(run: Run, file: &[u8], buf: &mut [u8], counts: &mut [u32; 256]) -> Run {
    let b = back(file, run.at);
    let kind = fields::byte(b, 0);
    if kind == 0 {
        return run;
    }
    let size = body_size(b);
    let body = front(back(b, 2), size);
    let now = family(run.now, kind, body, buf);
    let retired = udp::is_retired(kind, body);
    let count = &mut counts[kind as usize];
    *count = count.wrapping_add(u32::from(now.same && !retired));
    Run {
        now,
        tally: counted(run.tally, kind, retired, now.same),
        at: run.at.wrapping_add(2 + size),
    }
}

// Whether the file ends right: with the number of its cases, nothing behind it, and the last packet at
// its largest end.
fn ends(b: &[u8], now: Now, cases: u32) -> bool {
    let right = fields::two(b, 0) == 4 && fields::four(b, 2) == cases;
    b.len() == 6 && right && now.packet.end == now.room
}

// The tally at the end of the file. A wrong end counts as a difference, as if it were one more case; so does
// a file that fills the buffer, since it may go on behind it.
fn closed(run: Run, file: &[u8]) -> Tally {
    let number = run.tally.cases.wrapping_add(1);
    let whole = file.len() < answer::LARGE;
    let right = whole && ends(back(file, run.at), run.now, run.tally.cases);
    noted(run.tally, Case { number, kind: 0 }, right)
}

// Every case of the file: no more than half of the bytes that LARGE has, since each has two at least.
fn all_cases(file: &[u8], buf: &mut [u8], counts: &mut [u32; 256]) -> Tally {
    let mut run = begun(file);
    for _ in 0..524320u32 {
        run = turn(run, file, buf, counts);
    }
    closed(run, file)
}

fn show_counts(rt: &impl Print, counts: &[u32; 256]) -> Result<(), Error> {
    for (kind, n) in (0..=255u8).zip(counts) {
        if *n > 0 {
            let what = name(kind);
            println!(rt; "{kind:02x} {what} {n}")?;
        }
    }
    Ok(())
}

fn show_tally(rt: &impl Print, t: Tally) -> Result<(), Error> {
    println!(rt; "{} datagrams without checksum refused by 22", t.refused)?;
    if let Some(Case { number, kind }) = t.first {
        let what = name(kind);
        println!(rt; "the first that differs: case {number}, kind {kind:02x} {what}")?;
    }
    println!(rt; "{} cases, {} differ", t.cases, t.differ)
}

// Reads the file, at most LARGE bytes, and shows what came out. A read that fails is the file's end.
fn compare(rt: &(impl Print + AllocGlobal)) -> Result<(), Error> {
    let mut file = vec![in rt.alloc(); 0u8; answer::LARGE]?;
    let mut buf = answer::marked::<{ answer::LARGE }>();
    let mut counts = [0u32; 256];
    let n = io::read_full(STDIN_FILENO, &mut file);
    let tally = all_cases(&file[..n], &mut buf, &mut counts);
    show_counts(rt, &counts)?;
    show_tally(rt, tally)
}

fn main(rt: HostRuntime) {
    let _ = compare(&rt); // what cannot be written is not shown
}
