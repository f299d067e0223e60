// What is written of the answers.
use assembly::Outcome;
use pkt::refusal::Refusal;
use std::io;

pub(crate) fn show_refused(rt: &impl Print, refusal: Refusal) -> io::Result<()> {
    print!(rt; " refused {}", refusal.number())
}

// By a match, and no Display: the type is a library's, and each program has its own words for it.
pub(crate) fn show_stepped(rt: &impl Print, answer: Result<Outcome, Refusal>) -> io::Result<()> {
    match answer {
        Ok(Outcome::Waiting) => print!(rt; " waiting"),
        Ok(Outcome::Complete) => print!(rt; " complete"),
        Ok(Outcome::Spoilt) => print!(rt; " spoilt"),
        Err(refusal) => show_refused(rt, refusal),
    }
}

pub(crate) fn show_gone(rt: &impl Print, answer: Result<(), Refusal>) -> io::Result<()> {
    match answer {
        Ok(()) => print!(rt; " done"),
        Err(refusal) => show_refused(rt, refusal),
    }
}

pub(crate) fn yes(b: bool) -> &'static str {
    if b { "yes" } else { "no" }
}
