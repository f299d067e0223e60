// What the check answered, as a list of runs of numbers with one answer.
use inspect::check::Verdict;
use pkt::refusal::Refusal;
use std::io;

pub(crate) type Answer = Result<Verdict, Refusal>;

// The numbers from first to last have one answer.
#[derive(Clone, Copy, Drop)]
pub(crate) struct Run {
    pub first: u16,
    pub last: u16,
    pub answer: Answer,
}

fn show_answer(rt: &impl Print, answer: Answer) -> io::Result<()> {
    match answer {
        Ok(Verdict::Good) => print!(rt; " good"),
        Ok(Verdict::NoChecksum) => print!(rt; " good without checksum"),
        Err(refusal) => print!(rt; " refused {}", refusal.number()),
    }
}

// A run, its numbers in so many hexadecimal digits.
pub(crate) fn show_run(rt: &impl Print, run: Run, digits: usize) -> io::Result<()> {
    print!(rt; " {:0digits$x}", run.first)?;
    if run.last != run.first {
        print!(rt; " to {:0digits$x}", run.last)?;
    }
    show_answer(rt, run.answer)
}

// The run that a number belongs to: the one before it, or a new one behind that.
pub(crate) fn next(
    rt: &impl Print,
    run: Run,
    x: u16,
    answer: Answer,
    digits: usize,
) -> io::Result<Run> {
    if answer == run.answer {
        return Ok(Run { last: x, ..run });
    }
    show_run(rt, run, digits)?;
    print!(rt; ",")?;
    Ok(Run {
        first: x,
        last: x,
        answer,
    })
}
