// Eight datagrams in progress: a table of slots by value, and a lent buffer each for their payloads and their maps.
#![tactic(auto)]

ghost use Rattle.std.specs.Prelude.{◌≡◌, true, ◌<◌, ◌≤◌, length, set, drop, replicate};
ghost use Rattle.pkt.specs.Answers.{refused, gives, mapped, and_then, says};
ghost use Rattle.pkt.specs.Refusal.{number_of};
ghost use Rattle.pkt.specs.Written.{zeros};
ghost use Rattle.assembly.specs.Assembly.{opened, step};
ghost use Rattle.assembly.specs.Carried.{key_of};
ghost use Rattle.assembly.specs.View.{record_of, view, piece};
ghost use Rattle.table.specs.Slots.{slots, slot_bytes, slot_map, part_of, with_part, state_at, free_slot, holds_key, key_from, free_from, slot_fits, all_fit, key_again, key_twice, table_fits, Sized};
ghost use Rattle.table.specs.Table.{placing, opened_at, place_for, stepped_by, piece_for, table_take, Tables, Discards, TakesOut};
ghost use Rattle.table.specs.Steps.{Stored, Lands, landing_of, PutAsks, Fitting, Occupied, length_in, MovedOut, OutOf};

use assembly::carried::Misfit;
use assembly::{Key, Outcome, Progress, Rec, Taken, any, carried};
use inspect::header;
use inspect::header::IpRead;
use pkt::copying::copy;
use pkt::refusal::Refusal;

const SLOT_BYTES: usize = 8192;

const SLOT_MAP: usize = 128;

// An assembly in progress, or none: then the record says nothing. No Option: by document 02 a free slot has no key, whatever its bytes, and the calls'
// promises say so (holds_key, slot_fits).
#[derive(Clone, Copy, Default, Drop)]
pub struct Slot {
    pub used: bool,
    pub rec: Rec,
}

// Where a piece went: a slot, and what the assembly there answered.
#[derive(Clone, Copy, Drop)]
struct Landing {
    slot: usize,
    taken: Taken,
}

// The table after a call, and the answer: after a piece how its assembly stands, after a datagram was taken out its length, and after an assembly was
// discarded nothing more.
#[derive(Clone, Copy, Drop)]
pub struct After<T> {
    pub table: [Slot; 8],
    pub answer: Result<T, Refusal>,
}

// The slot that a new table has eight times, and that an emptied one becomes.
fn free() -> Slot
    ensures { result ≡ free_slot }
{
    Slot::default()
}

// An empty table.
pub fn new() -> [Slot; 8]
    ensures { result ≡ replicate 8 free_slot }
{
    let slot = free();
    [slot; 8]
}

fn holds(s: Slot, key: Key) -> bool
    ensures { result ≡ holds_key key s }
{
    if s.used {
        let rec = s.rec;
        let held = rec.key;
        return carried::same_key(held, key);
    }
    false
}

// The lowest slot with the key, from a slot on.
fn key_from(t: [Slot; 8], from: usize, key: Key) -> Option<usize>
    ensures { result ≡ key_from from key (drop from t) }
{
    for i in from..8 {
        if holds(t[i], key) {
            return Some(i);
        }
    }
    None
}

// The lowest free slot.
fn free_one(t: [Slot; 8]) -> Option<usize>
    ensures { result ≡ free_from 0 t }
{
    for (i, s) in t.iter().enumerate() {
        if !s.used {
            return Some(i);
        }
    }
    None
}

fn slot_fits(s: Slot) -> bool
    ensures { result ≡ slot_fits s }
{
    if s.used {
        let rec = s.rec;
        return any::fits(rec, SLOT_BYTES);
    }
    true
}

fn all_fit(t: [Slot; 8]) -> bool
    ensures { result ≡ all_fit t }
{
    for s in t {
        if !slot_fits(s) {
            return false;
        }
    }
    true
}

// Whether slot s is occupied and a slot from `from` on has its key.
fn key_again(s: Slot, t: [Slot; 8], from: usize) -> bool
    ensures { result ≡ key_again s (drop from t) }
{
    if s.used {
        let rec = s.rec;
        let key = rec.key;
        return key_from(t, from, key).is_some();
    }
    false
}

// Whether one key is in two occupied slots.
fn key_twice(t: [Slot; 8]) -> bool
    ensures { result ≡ key_twice t }
{
    for (i, s) in t.iter().enumerate() {
        if key_again(*s, t, i + 1) {
            return true;
        }
    }
    false
}

// Whether buffers of these sizes and these slots are a table's.
fn is_usable(t: [Slot; 8], payloads: usize, maps: usize) -> bool
    ensures { result ≡ table_fits t payloads maps }
{
    if payloads != 8 * SLOT_BYTES {
        return false;
    }
    if maps != 8 * SLOT_MAP {
        return false;
    }
    if !all_fit(t) {
        return false;
    }
    !key_twice(t)
}

// Opens slot i for a key: its part of each buffer becomes zero. Here and below table, payloads and maps are three arrays by one index, and go apart: by
// T-03 the public calls lend the two buffers.
fn open_at(key: Key, i: usize, payloads: &mut [u8], maps: &mut [u8]) -> Rec
    requires { Sized i (length payloads.old) (length maps.old) }
    ensures { (result ≡ record_of (opened key slot_bytes slot_map)) × (payloads.new ≡ with_part slot_bytes i (zeros slot_bytes) payloads.old)
        × (maps.new ≡ with_part slot_map i (zeros slot_map) maps.old) }
{
    let at = SLOT_BYTES * i;
    let map = SLOT_MAP * i;
    any::open(
        key,
        &mut payloads[at..at + SLOT_BYTES],
        &mut maps[map..map + SLOT_MAP],
    )
}

fn update(t: [Slot; 8], i: usize, s: Slot) -> [Slot; 8]
    requires { i < 8 }
    ensures { result ≡ set t i s }
{
    let mut u = t;
    u[i] = s;
    u
}

fn refuse<T>(table: [Slot; 8], refusal: Refusal) -> After<T>
    ensures { (result.table ≡ table) × (says result.answer ≡ refused (number_of refusal)) }
{
    let answer = Err(refusal);
    After { table, answer }
}

// The slot with its new record, and the answer that goes with it.
fn stored(table: [Slot; 8], landing: Landing) -> After<Outcome>
    requires { landing.slot < 8 }
    ensures { Stored table landing result }
{
    let i = landing.slot;
    let taken = landing.taken;
    let rec = taken.rec;
    let slot = Slot { used: true, rec };
    let table = update(table, i, slot);
    let answer = Ok(taken.answer);
    After { table, answer }
}

// The step by a piece on slot i, which has this record.
fn put_at(
    i: usize,
    rec: Rec,
    h: IpRead,
    body: &[u8],
    payloads: &mut [u8],
    maps: &mut [u8],
) -> Result<Landing, Refusal>
    requires { PutAsks rec i h (length body.now) (length payloads.old) (length maps.old) }
    ensures { Lands (gives (placing i (step (view rec (part_of slot_bytes i payloads.old) (part_of slot_map i maps.old)) (piece h.off h.mf body.now))))
        payloads.old maps.old result payloads.new maps.new }
{
    let at = SLOT_BYTES * i;
    let map = SLOT_MAP * i;
    let taken = any::put(
        rec,
        h,
        body,
        &mut payloads[at..at + SLOT_BYTES],
        &mut maps[map..map + SLOT_MAP],
    )?;
    Ok(Landing { slot: i, taken })
}

// A piece whose key no slot has: the lowest free slot is opened for it.
fn put_new(
    table: [Slot; 8],
    h: IpRead,
    body: &[u8],
    payloads: &mut [u8],
    maps: &mut [u8],
) -> Result<Landing, Refusal>
    requires { Fitting table h (length body.now) (length payloads.old) (length maps.old) }
    ensures { Lands (mapped (stepped_by (piece h.off h.mf body.now)) (opened_at (key_of h) (free_from 0 table)))
        payloads.old maps.old result payloads.new maps.new }
{
    match free_one(table) {
        None => Err(Refusal::Full),
        Some(i) => {
            let key = carried::key_of(h);
            let rec = open_at(key, i, payloads, maps);
            put_at(i, rec, h, body, payloads, maps)
        }
    }
}

// A piece that fits a slot goes to the lowest slot with its key, or opens one.
fn place(
    table: [Slot; 8],
    h: IpRead,
    body: &[u8],
    payloads: &mut [u8],
    maps: &mut [u8],
) -> Result<Landing, Refusal>
    requires { Fitting table h (length body.now) (length payloads.old) (length maps.old) }
    ensures { Lands (mapped (stepped_by (piece h.off h.mf body.now)) (place_for table payloads.old maps.old (key_of h)))
        payloads.old maps.old result payloads.new maps.new }
{
    let key = carried::key_of(h);
    match key_from(table, 0, key) {
        None => put_new(table, h, body, payloads, maps),
        Some(i) => {
            let s = table[i];
            let rec = s.rec;
            put_at(i, rec, h, body, payloads, maps)
        }
    }
}

fn take_read(
    table: [Slot; 8],
    h: IpRead,
    body: &[u8],
    payloads: &mut [u8],
    maps: &mut [u8],
) -> Result<Landing, Refusal>
    requires { table_fits table (length payloads.old) (length maps.old) ≡ true }
    ensures { Lands (piece_for table payloads.old maps.old h body.now)
        payloads.old maps.old result payloads.new maps.new }
{
    match carried::fit(SLOT_BYTES, body.len(), h) {
        Err(Misfit::NotBlocks) => Err(Refusal::NotBlocks),
        Err(Misfit::TooFar) => Err(Refusal::TooFarForSlot),
        Ok(p) => place(table, p, body, payloads, maps),
    }
}

// Where the piece goes that a packet carries, for a table that is usable.
fn land(
    table: [Slot; 8],
    packet: &[u8],
    payloads: &mut [u8],
    maps: &mut [u8],
) -> Result<Landing, Refusal>
    requires { table_fits table (length payloads.old) (length maps.old) ≡ true }
    ensures { Lands (landing_of table payloads.old maps.old packet.now)
        payloads.old maps.old result payloads.new maps.new }
{
    let h = header::read(packet)?;
    let start = h.start;
    let end = h.end;
    take_read(table, h, &packet[start..end], payloads, maps)
}

// Takes the piece that a packet carries, or refuses it and leaves the table and the buffers as they were. The data is looked at where it lies.
pub fn take(table: [Slot; 8], packet: &[u8], payloads: &mut [u8], maps: &mut [u8]) -> After<Outcome>
    ensures { Tables (table_take table payloads.old maps.old packet.now)
        table payloads.old maps.old result payloads.new maps.new }
{
    if !is_usable(table, payloads.len(), maps.len()) {
        return refuse(table, Refusal::BadAssembly);
    }
    match land(table, packet, payloads, maps) {
        Err(refusal) => refuse(table, refusal),
        Ok(landing) => stored(table, landing),
    }
}

// Slot i is free, and its part of each buffer zero.
fn empty_at(table: [Slot; 8], i: usize, payloads: &mut [u8], maps: &mut [u8]) -> [Slot; 8]
    requires { Sized i (length payloads.old) (length maps.old) }
    ensures { (result ≡ set table i free_slot) × (payloads.new ≡ with_part slot_bytes i (zeros slot_bytes) payloads.old)
        × (maps.new ≡ with_part slot_map i (zeros slot_map) maps.old) }
{
    open_at(Key::default(), i, payloads, maps);
    let slot = free();
    update(table, i, slot)
}

// Discards the assembly of a key, whatever it holds, or refuses and leaves the table and the buffers as they were.
pub fn discard(table: [Slot; 8], key: Key, payloads: &mut [u8], maps: &mut [u8]) -> After<()>
    ensures { Discards table payloads.old maps.old key result payloads.new maps.new }
{
    if !is_usable(table, payloads.len(), maps.len()) {
        return refuse(table, Refusal::BadAssembly);
    }
    match key_from(table, 0, key) {
        None => refuse(table, Refusal::NoDatagram), // there is none to discard
        Some(i) => {
            let table = empty_at(table, i, payloads, maps);
            let answer = Ok(());
            After { table, answer }
        }
    }
}

// The length of the complete datagram in slot i, or a refusal's number.
fn length_at(table: [Slot; 8], i: usize, payloads: &[u8], maps: &[u8]) -> Result<usize, Refusal>
    requires { Occupied table i (length payloads.now) (length maps.now) }
    ensures { says result ≡ length_in (state_at table payloads.now maps.now i) }
{
    let s = table[i];
    let rec = s.rec;
    let at = SLOT_BYTES * i;
    let map = SLOT_MAP * i;
    let standing = any::progress(
        rec,
        &payloads[at..at + SLOT_BYTES],
        &maps[map..map + SLOT_MAP],
    )?;
    match standing {
        Progress::Complete(n) => Ok(n),
        Progress::Waiting => Err(Refusal::NoDatagram),
        Progress::Spoilt => Err(Refusal::NoDatagram),
    }
}

// The n bytes of the datagram in slot i go out, and the slot is emptied.
fn move_out(
    table: [Slot; 8],
    i: usize,
    n: usize,
    payloads: &mut [u8],
    maps: &mut [u8],
    out: &mut [u8],
) -> After<usize>
    requires { (Sized i (length payloads.old) (length maps.old)) × (n ≤ slot_bytes) × (n ≤ length out.old) }
    ensures { MovedOut table i n payloads.old maps.old out.old result payloads.new maps.new out.new }
{
    let at = SLOT_BYTES * i;
    copy(&payloads[at..at + n], out);
    let table = empty_at(table, i, payloads, maps);
    let answer = Ok(n);
    After { table, answer }
}

// Takes the complete datagram of a key out of its slot, or refuses and leaves the table and all buffers as they were.
pub fn take_out(
    table: [Slot; 8],
    key: Key,
    payloads: &mut [u8],
    maps: &mut [u8],
    out: &mut [u8],
) -> After<usize>
    ensures { TakesOut table payloads.old maps.old key out.old result payloads.new maps.new out.new }
{
    if !is_usable(table, payloads.len(), maps.len()) {
        return refuse(table, Refusal::BadAssembly);
    }
    match key_from(table, 0, key) {
        None => refuse(table, Refusal::NoDatagram),
        Some(i) => out_of(table, i, payloads, maps, out),
    }
}

fn out_of(
    table: [Slot; 8],
    i: usize,
    payloads: &mut [u8],
    maps: &mut [u8],
    out: &mut [u8],
) -> After<usize>
    requires { Occupied table i (length payloads.old) (length maps.old) }
    ensures { OutOf table i payloads.old maps.old out.old result payloads.new maps.new out.new }
{
    match length_at(table, i, payloads, maps) {
        Err(refusal) => refuse(table, refusal),
        Ok(n) => {
            if out.len() < n {
                return refuse(table, Refusal::NoRoom);
            }
            move_out(table, i, n, payloads, maps, out)
        }
    }
}
