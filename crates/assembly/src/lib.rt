// One datagram in progress: its pieces are taken in any order, and the state they end in does not show which.
#![tactic(auto)]

pub mod any;
mod buffer;
pub mod carried;
mod compare;
mod map;
mod record;
mod step;

ghost use Rattle.std.specs.Prelude.{◌≡◌};
ghost use Rattle.assembly.specs.View.{view};
ghost use Rattle.assembly.specs.Answers.{progress_says};
ghost use Rattle.assembly.specs.Calls.{capacity, map_bytes, sized, usable, Opens, Takes, progress_answer};

use pkt::limit;
use pkt::refusal::Refusal;
pub use step::Progress;

// The sizes of the payload buffer and of the map.
const CAPACITY: usize = limit::IP_PAYLOAD;

const MAP_BYTES: usize = 1024;

// "identification, source, destination and protocol"
#[repr(C)]
#[derive(Clone, Copy, Default, PartialEq, Eq, Drop)]
pub struct Key {
    pub saddr: u32,
    pub daddr: u32,
    pub id: u16,
    pub protocol: u8,
}

// What is kept of an assembly beside its payload buffer and its map.
#[derive(Clone, Copy, Default, PartialEq, Eq, Drop)]
pub struct Rec {
    pub key: Key,
    pub total: Option<usize>,
    pub floor: usize,
    pub spoilt: bool,
}

// "Each accepted call answers waiting, complete or spoilt"
#[derive(Clone, Copy, PartialEq, Eq, Drop)]
pub enum Outcome {
    Waiting,
    Complete,
    Spoilt,
}

// What taking a piece answers: how the assembly stands, with its new record.
#[derive(Clone, Copy, Drop)]
pub struct Taken {
    pub answer: Outcome,
    pub rec: Rec,
}

// Whether buffers of these sizes are an assembly's.
fn is_sized(payload: usize, map: usize) -> bool
    ensures { result ≡ sized capacity map_bytes payload map }
{
    payload == CAPACITY && map == MAP_BYTES
}

// Opens an assembly for a key: all but the key becomes zero.
pub fn open(key: Key, payload: &mut [u8], map: &mut [u8]) -> Result<Rec, Refusal>
    ensures { Opens capacity map_bytes key payload.old map.old result payload.new map.new }
{
    if !is_sized(payload.len(), map.len()) {
        return Err(Refusal::BadAssembly);
    }
    Ok(step::wipe(payload, map, key, false))
}

// Whether the record and the buffers are an assembly's. As any's is_ready, but for the sizes: to hand that test in would be longer than both.
fn is_usable(rec: Rec, payload: &[u8], map: &[u8]) -> bool
    ensures { result ≡ usable capacity map_bytes (view rec payload.now map.now) }
{
    let total = rec.total;
    let floor = rec.floor;
    if is_sized(payload.len(), map.len()) {
        return record::fits(total, floor, CAPACITY);
    }
    false
}

// Takes the piece that a packet carries, or refuses it and leaves the buffers as they were. The data is looked at where it lies.
pub fn take(rec: Rec, packet: &[u8], payload: &mut [u8], map: &mut [u8]) -> Result<Taken, Refusal>
    ensures { Takes capacity map_bytes (view rec payload.old map.old) packet.now result
        payload.new map.new }
{
    if !is_usable(rec, payload, map) {
        return Err(Refusal::BadAssembly);
    }
    let key = rec.key;
    let h = carried::read(key, packet)?;
    let start = h.start;
    let end = h.end;
    any::put(rec, h, &packet[start..end], payload, map)
}

// How the assembly stands: a complete datagram is the first so many bytes of the payload buffer.
pub fn progress(rec: Rec, payload: &[u8], map: &[u8]) -> Result<Progress, Refusal>
    ensures { progress_says result ≡ progress_answer capacity map_bytes (view rec payload.now map.now) }
{
    if is_usable(rec, payload, map) {
        return any::progress(rec, payload, map);
    }
    Err(Refusal::BadAssembly)
}
