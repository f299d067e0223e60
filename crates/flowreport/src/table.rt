// A report as a table: a line for each number, the client's and the server's in columns of their own.
use reporting::Report;
use std::io::Error;

// Each number stands at the right of a column of twelve.
fn say_pair(rt: &impl Print, words: &str, cl: usize, sv: usize) -> Result<(), Error> {
    println!(rt; "{words:12}{cl:12}{sv:12}")
}

fn say_one(rt: &impl Print, words: &str, n: usize) -> Result<(), Error> {
    println!(rt; "{words:12}{n:12}")
}

// The whole table, or why it could not be written.
pub(crate) fn show(rt: &impl Print, r: Report) -> Result<(), Error> {
    let cl = r.cl;
    let sv = r.sv;
    rt.println("                  client      server")?;
    say_pair(rt, "segments", cl.segments, sv.segments)?;
    say_pair(rt, "bytes", cl.bytes, sv.bytes)?;
    say_pair(rt, "SYNs", cl.syns, sv.syns)?;
    say_pair(rt, "FINs", cl.fins, sv.fins)?;
    say_pair(rt, "expected", cl.expected, sv.expected)?;
    say_pair(rt, "early", cl.early, sv.early)?;
    say_pair(rt, "late", cl.late, sv.late)?;
    say_one(rt, "failed", r.failed)?;
    say_one(rt, "other flows", r.others)
}
