// Exporting captures: the records of a classic capture go out as pcapng.
#![tactic(auto)]

ghost use Rattle.std.specs.Prelude.{◌≡◌, ◌+◌, ◌≤◌};
ghost use Rattle.pkt.specs.Answers.{most_bytes, list_says};
ghost use Rattle.pkt.specs.Written.{written};
ghost use Rattle.reading.specs.Ends.{records_answer};
ghost use Rattle.exporting.specs.Pcapng.{packet_blocks, exported};
ghost use Rattle.exporting.specs.Export.{room_for, export_answer, records_given, export_of, Exports};
ghost use Rattle.exporting.specs.Steps.{timely, with_record, with_step, ended_by, StepShort, WriteAsks};

use pkt::refusal::{ListRefusal, Refusal};
use reading::Spot;

mod blocks;

// The answer for so many bytes, and more behind them, in an output of room bytes.
fn fitting(before: usize, more: usize, room: usize) -> Result<usize, ListRefusal>
    ensures { list_says result ≡ room_for (before + more) room }
{
    if room < before {
        return Err(ListRefusal::Whole(Refusal::NoRoom));
    }
    if room - before < more {
        return Err(ListRefusal::Whole(Refusal::NoRoom));
    }
    Ok(before + more)
}

// The answer, unless the microseconds of the k-th record are above 999,999.
fn unless_late(
    k: usize,
    usec: u32,
    answer: Result<usize, ListRefusal>,
) -> Result<usize, ListRefusal>
    ensures { list_says result ≡ timely k usec (list_says answer) }
{
    if usec > 999999 {
        return Err(ListRefusal::At(Refusal::BadTime, k));
    }
    answer
}

// The answer for one record more, the k-th, of n bytes. A time is refused before room is, and the first time before others.
fn with_record(
    answer: Result<usize, ListRefusal>,
    k: usize,
    usec: u32,
    n: usize,
    room: usize,
) -> Result<usize, ListRefusal>
    requires { n ≤ most_bytes }
    ensures { list_says result ≡ with_record (list_says answer) k usec n room }
{
    match answer {
        Err(ListRefusal::At(_, _)) => answer, // the first late one stays
        Err(ListRefusal::Whole(_)) => unless_late(k, usec, answer),
        Ok(before) => unless_late(k, usec, fitting(before, blocks::size(n), room)),
    }
}

// The answer with the record that a step found.
fn with_step(
    answer: Result<usize, ListRefusal>,
    step: Result<Option<Spot>, ListRefusal>,
    room: usize,
) -> Result<usize, ListRefusal>
    requires { StepShort (list_says step) }
    ensures { list_says result ≡ with_step (list_says answer) (list_says step) room }
{
    match step {
        Ok(Some(spot)) => with_record(answer, spot.number, spot.usec, spot.len, room),
        _ => answer,
    }
}

// The answer where a step found no further record.
fn ended_by(
    step: Result<Option<Spot>, ListRefusal>,
    answer: Result<usize, ListRefusal>,
) -> Result<usize, ListRefusal>
    ensures { list_says result ≡ ended_by (list_says step) (list_says answer) }
{
    step?;
    answer
}

// What export answers for an output of room bytes, with nothing written. A while, here and below: records have different lengths, and a capture is read
// by steps, as the scope paper asks, and by no iterator.
fn answer(capture: &[u8], room: usize) -> Result<usize, ListRefusal>
    ensures { list_says result ≡ export_answer capture.now room }
{
    let mut at = reading::opening(capture);
    let mut count = 0;
    let mut so_far = fitting(0, blocks::HEAD, room);
    while reading::more_at(capture, at) {
        so_far = with_step(so_far, reading::step_at(capture, at, count), room);
        at = reading::past_at(capture, at);
        count += 1;
    }
    ended_by(reading::step_at(capture, at, count), so_far)
}

// A block for each record of a capture at the start of out, which has room for them.
fn put_packets(capture: &[u8], out: &mut [u8])
    requires { WriteAsks packet_blocks capture.now out.old }
    ensures { out.new ≡ written (packet_blocks (records_given (records_answer capture.now))) out.old }
{
    let mut read = reading::opening(capture);
    let mut at = 0;
    while reading::more_at(capture, read) {
        at += blocks::put_step(capture, reading::step_at(capture, read, 0), &mut out[at..]);
        read = reading::past_at(capture, read);
    }
}

// The capture as pcapng at the start of out, which has room for it.
fn write(capture: &[u8], out: &mut [u8])
    requires { WriteAsks exported capture.now out.old }
    ensures { out.new ≡ written (export_of capture.now) out.old }
{
    blocks::put_head(out);
    put_packets(capture, &mut out[blocks::HEAD..]);
}

// Writes a classic capture as pcapng at the start of out: one section, one interface, and a packet for each record. Or refuses, and leaves out as it was.
#[tactic(auto, using(crate::proofs::Writing::accepted))]
pub fn export(capture: &[u8], out: &mut [u8]) -> Result<usize, ListRefusal>
    ensures { Exports capture.now out.old result out.new }
{
    let size = answer(capture, out.len())?;
    write(capture, out);
    Ok(size)
}
