// Plans and refusals of the planner, and what the check says of lists: a line for each request, with the bytes that its piece carries. Of a list of
// more than four only the first three and the last are written.
#![tactic(auto)]

use ezpkt::ip4;
use pieces::BlockRequest;
use pkt::refusal::Refusal;
use planner::{Job, Look};
use std::io::Error;

// One line: the offset and the length in blocks, and the bytes. As plan prints it, and so are a refusal and what the
// check says: a program has no library of its own.
fn print_request(rt: &impl Print, r: BlockRequest, n: usize) -> Result<(), Error> {
    let off = r.off;
    let len = r.len;
    let bytes = ip4::fragment_size(off, len, n) - 20;
    println!(rt; "{off} {len} {bytes}")
}

fn print_requests(rt: &impl Print, job: Job) -> Result<(), Error> {
    for k in 0..job.count {
        if k < 3 || k + 1 == job.count {
            print_request(rt, planner::nth(job, k), job.n)?;
        }
    }
    Ok(())
}

fn print_refused(rt: &impl Print, refusal: Refusal) -> Result<(), Error> {
    let number = refusal.number();
    println!(rt; "refused by {number}")
}

// The planner's list of n bytes for a link of m.
fn list(rt: &impl Print, n: usize, m: usize) -> Result<(), Error> {
    print!(rt; "{n} {m}: ")?;
    match planner::decide(n, m, 8190) {
        Ok(job) => {
            let count = job.count;
            println!(rt; "{count}")?;
            print_requests(rt, job)
        }
        Err(refusal) => print_refused(rt, refusal),
    }
}

fn print_judged(rt: &impl Print, look: Look) -> Result<(), Error> {
    match planner::judge(look) {
        Ok(true) => println!(rt; "yes"),
        Ok(false) => println!(rt; "no"),
        Err(refusal) => print_refused(rt, refusal),
    }
}

// What the check says of this list for 3,488 bytes and a link of 1,500.
fn check(rt: &impl Print, list: &[BlockRequest]) -> Result<(), Error> {
    let mut look = planner::look_none(3488, 1500);
    for r in list {
        let off = r.off;
        let len = r.len;
        print!(rt; "({off} {len}) ")?;
        look = planner::look_at(look, *r);
    }
    print_judged(rt, look)
}

fn request(off: u16, len: u16) -> BlockRequest {
    BlockRequest { off, len }
}

fn lists(rt: &impl Print) -> Result<(), Error> {
    list(rt, 0, 1500)?;
    list(rt, 0, 20)?;
    list(rt, 0, 19)?;
    list(rt, 7, 27)?;
    list(rt, 8, 27)?;
    list(rt, 8, 28)?;
    list(rt, 20, 32)?;
    list(rt, 3488, 1500)?;
    list(rt, 65515, 28)?;
    list(rt, 65515, 4294967296)?;
    list(rt, 65515, 0xffffffffffffffff)?;
    list(rt, 5, 0xffffffffffffffff)?;
    list(rt, 65516, 1500)?;
    list(rt, 65516, 0)
}

fn checks(rt: &impl Print) -> Result<(), Error> {
    let [a, b, c] = [request(0, 185), request(185, 185), request(370, 66)];
    check(rt, &[])?;
    check(rt, &[a, b, c])?;
    check(rt, &[a, b, request(370, 65535)])?;
    check(rt, &[b, a, c])?;
    check(rt, &[a, request(184, 185), request(369, 67)])?;
    check(rt, &[a, request(186, 184), c])?;
    check(rt, &[request(0, 186), request(186, 184), c])?;
    check(rt, &[request(5, 0), a, b, c])?;
    check(rt, &[a, b, request(5, 0), c])?;
    check(rt, &[a, b, c, request(5, 0)])?;
    check(rt, &[a, b, c, request(436, 0)])?;
    check(rt, &[request(437, 0), a, b, c])?;
    print_judged(rt, planner::look_none(65516, 1500))
}

// All of them.
fn each(rt: &impl Print) -> Result<(), Error> {
    lists(rt)?;
    checks(rt)
}

fn main(rt: HostRuntime) {
    let _ = each(&rt); // what cannot be written is not shown
}
