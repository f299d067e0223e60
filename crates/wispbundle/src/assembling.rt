// One datagram put together from its pieces.
ghost use Rattle.std.specs.Prelude.{◌≡◌};
ghost use Rattle.pkt.specs.Answers.{says};
ghost use Rattle.assembly.specs.View.{view};
ghost use Rattle.assembly.specs.Answers.{progress_says};
ghost use Rattle.assembly.specs.Calls.{capacity, map_bytes, progress_answer};
ghost use Rattle.wispbundle.specs.Answers.{rec_of, assembly_for, no_assembly, opened_for, outcome_for, taken_for, stood_for, progress_for};
ghost use Rattle.wispbundle.specs.Calls.{AssemblyOpens, AssemblyTakes};

use assembly::{Key, Outcome, Progress, Rec, Taken};
use pkt::refusal::Refusal;

// Outcomes as numbers, since no enum crosses to C.

// Bytes are still missing.
pub const WAITING: u8 = 1;
// All bytes are there.
pub const COMPLETE: u8 = 2;
// Two pieces contradict each other.
pub const SPOILT: u8 = 3;

// What is kept of an assembly beside its payload buffer and its map. Where known is false, total does not count: C has no Option.
#[repr(C)]
#[derive(Clone, Copy, Default, Drop)]
pub struct wb_assembly {
    pub key: Key,
    pub known: bool,
    pub total: usize,
    pub floor: usize,
    pub spoilt: bool,
}

#[repr(C)]
#[derive(Clone, Copy, Drop)]
pub struct wb_opened {
    pub status: u8,
    pub assembly: wb_assembly,
}

// The outcome is 1 (waiting), 2 (complete) or 3 (spoilt), and 0 on a refusal.
#[repr(C)]
#[derive(Clone, Copy, Drop)]
pub struct wb_taken {
    pub status: u8,
    pub outcome: u8,
    pub assembly: wb_assembly,
}

// The outcome is as in wb_taken. The length is that of a complete datagram, and else 0.
#[repr(C)]
#[derive(Clone, Copy, Drop)]
pub struct wb_progress {
    pub status: u8,
    pub outcome: u8,
    pub length: usize,
}

impl From<wb_assembly> for Rec {
    ghost from_gives = { λ given rec. rec ≡ rec_of given };

    fn from(given: wb_assembly) -> Self {
        Rec {
            key: given.key,
            total: given.known.then_some(given.total),
            floor: given.floor,
            spoilt: given.spoilt,
        }
    }
}

impl From<Rec> for wb_assembly {
    ghost from_gives = { λ rec told. told ≡ assembly_for rec };

    fn from(rec: Rec) -> Self {
        wb_assembly {
            key: rec.key,
            known: rec.total.is_some(),
            total: rec.total.unwrap_or(0),
            floor: rec.floor,
            spoilt: rec.spoilt,
        }
    }
}

impl From<Result<Rec, Refusal>> for wb_opened {
    ghost from_gives = { λ answer told. told ≡ opened_for (says answer) };

    fn from(answer: Result<Rec, Refusal>) -> Self {
        match answer {
            Ok(rec) => wb_opened {
                status: crate::ACCEPTED,
                assembly: rec.into(),
            },
            Err(refusal) => wb_opened {
                status: refusal.number(),
                assembly: wb_assembly::default(),
            },
        }
    }
}

// (No From: neither type is of this crate.)
fn outcome(answer: Outcome) -> u8
    ensures { result ≡ outcome_for answer }
{
    match answer {
        Outcome::Waiting => WAITING,
        Outcome::Complete => COMPLETE,
        Outcome::Spoilt => SPOILT,
    }
}

// (No From, here and where a flow is sent: a refusal hands back what came in, too.)
fn taken(before: wb_assembly, answer: Result<Taken, Refusal>) -> wb_taken
    ensures { result ≡ taken_for before (says answer) }
{
    match answer {
        Ok(taken) => wb_taken {
            status: crate::ACCEPTED,
            outcome: outcome(taken.answer),
            assembly: taken.rec.into(),
        },
        Err(refusal) => wb_taken {
            status: refusal.number(),
            outcome: 0,
            assembly: before,
        },
    }
}

fn stood(outcome: u8, length: usize) -> wb_progress
    ensures { result ≡ stood_for outcome length }
{
    wb_progress {
        status: crate::ACCEPTED,
        outcome,
        length,
    }
}

impl From<Result<Progress, Refusal>> for wb_progress {
    ghost from_gives = { λ answer told. told ≡ progress_for (progress_says answer) };

    fn from(answer: Result<Progress, Refusal>) -> Self {
        match answer {
            Ok(Progress::Waiting) => stood(WAITING, 0),
            Ok(Progress::Complete(length)) => stood(COMPLETE, length),
            Ok(Progress::Spoilt) => stood(SPOILT, 0),
            Err(refusal) => wb_progress {
                status: refusal.number(),
                outcome: 0,
                length: 0,
            },
        }
    }
}

pub fn wb_assembly_open(key: Key, payload: &mut [u8], map: &mut [u8]) -> wb_opened
    ensures { AssemblyOpens key payload.old map.old result payload.new map.new }
{
    assembly::open(key, payload, map).into()
}

pub fn wb_assembly_take(
    before: wb_assembly,
    packet: &[u8],
    payload: &mut [u8],
    map: &mut [u8],
) -> wb_taken
    ensures { AssemblyTakes before payload.old map.old packet.now result payload.new map.new }
{
    taken(before, assembly::take(before.into(), packet, payload, map))
}

pub fn wb_assembly_progress(before: wb_assembly, payload: &[u8], map: &[u8]) -> wb_progress
    ensures { result ≡ progress_for (progress_answer capacity map_bytes (view (rec_of before) payload.now map.now)) }
{
    assembly::progress(before.into(), payload, map).into()
}
