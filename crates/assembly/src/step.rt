// Taking one piece: its offset in blocks, its MF bit and its data.
ghost use Rattle.std.specs.Prelude.{◌≡◌, true, List, ℕ, ◌+◌, ◌*◌, ◌/◌, ◌≤◌, length};
ghost use Rattle.assembly.specs.Assembly.{cleared, clashes, accept, step, held_to, outcome, total_fits};
ghost use Rattle.assembly.specs.View.{view, piece};
ghost use Rattle.assembly.specs.Answers.{reply, Moves, standing_of, stands};

use crate::{Key, Outcome, Rec, Taken, buffer, compare, map, record};

// How an assembly stands: a complete datagram with its length. Outcome is without the length, which take does not answer: both are public.
#[derive(Clone, Copy, PartialEq, Eq, Drop)]
pub enum Progress {
    Waiting,
    Complete(usize),
    Spoilt,
}

// A piece: its offset in blocks, its MF bit and its data where it lies.
#[derive(Clone, Copy, Drop)]
pub(crate) struct Piece<'a> {
    pub off: usize,
    pub mf: bool,
    pub body: &'a [u8],
}

// How many blocks n bytes from a block's first on lie in.
fn blocks(n: usize) -> usize
    ensures { result ≡ (n + 7) / 8 }
{
    n / 8 + (n % 8 + 7) / 8
}

// Zeroes all but the key.
pub(crate) fn wipe(payload: &mut [u8], map: &mut [u8], key: Key, spoilt: bool) -> Rec
    ensures { view result payload.new map.new ≡ cleared key (length payload.old) (length map.old) spoilt }
{
    buffer::clear(payload);
    buffer::clear(map);
    Rec {
        key,
        total: None,
        floor: 0,
        spoilt,
    }
}

// Whether the piece contradicts what is held. payload, map and rec go apart here and below: the buffers are lent, and a struct of them would be made
// and taken apart in each call. That the piece lies in the payload and the map has its blocks, any::put has tested.
fn contradicts(payload: &[u8], map: &[u8], rec: Rec, p: Piece<'_>) -> bool
    requires body_in_bounds { 8 * p.off + length p.body.now ≤ length payload.now }
    requires payload_len_bound { length payload.now ≤ 64 * length map.now }
    ensures { result ≡ clashes (view rec payload.now map.now) (piece p.entry.off p.entry.mf p.entry.body.now) }
{
    let total = rec.total;
    let floor = rec.floor;
    let off = p.off;
    let body = p.body;
    let end = 8 * off + body.len();
    if record::end_clash(total, floor, p.mf, end) {
        return true;
    }
    compare::differs(payload, map, off, body)
}

// Copies the data, marks its blocks, and moves the total or the floor.
fn merge(payload: &mut [u8], map: &mut [u8], rec: Rec, p: Piece<'_>) -> Rec
    requires body_in_bounds { 8 * p.off + length p.body.now ≤ length payload.old }
    requires payload_len_bound { length payload.old ≤ 64 * length map.old }
    ensures { view result payload.new map.new
        ≡ accept (view rec payload.old map.old) (piece p.entry.off p.entry.mf p.entry.body.now) }
{
    let off = p.off;
    let body = p.body;
    let end = 8 * off + body.len();
    buffer::copy_in(payload, 8 * off, body);
    map::mark_blocks(map, off, off + blocks(body.len()));
    let key = rec.key;
    let old_total = rec.total;
    let old_floor = rec.floor;
    let total = record::new_total(p.mf, old_total, end);
    let floor = record::new_floor(p.mf, old_floor, end);
    Rec {
        key,
        total,
        floor,
        spoilt: false,
    }
}

// Takes a piece: a spoilt record stays, a contradiction spoils, any other piece is merged.
pub(crate) fn put(payload: &mut [u8], map: &mut [u8], rec: Rec, p: Piece<'_>) -> Rec
    requires body_in_bounds { 8 * p.off + length p.body.now ≤ length payload.old }
    requires payload_len_bound { length payload.old ≤ 64 * length map.old }
    ensures { view result payload.new map.new
        ≡ step (view rec payload.old map.old) (piece p.entry.off p.entry.mf p.entry.body.now) }
{
    let spoilt = rec.spoilt;
    if spoilt {
        return rec;
    }
    if contradicts(payload, map, rec, p) {
        let key = rec.key;
        return wipe(payload, map, key, true);
    }
    merge(payload, map, rec, p)
}

// Whether every byte below the total is held. That the total fits is asked here and below, and is no invariant of Rec: a record comes from the caller,
// and 11 refuses one whose total does not fit.
fn held_to(map: &[u8], total: Option<usize>) -> bool
    requires { total_fits (64 * length map.now) total ≡ true }
    ensures { result ≡ held_to map.now total }
{
    match total {
        Some(t) => map::all_marked(map, blocks(t)),
        None => false,
    }
}

// The answer that a record has, with itself.
fn answered(map: &[u8], rec: Rec) -> Taken
    requires { total_fits (64 * length map.now) rec.total ≡ true }
    ensures { (d : List ℕ) → result ≡ reply (outcome (view rec d map.now)) rec }
{
    let spoilt = rec.spoilt;
    let total = rec.total;
    if spoilt {
        let answer = Outcome::Spoilt;
        return Taken { answer, rec };
    }
    if held_to(map, total) {
        let answer = Outcome::Complete;
        return Taken { answer, rec };
    }
    let answer = Outcome::Waiting;
    Taken { answer, rec }
}

// Takes a piece that fits, and answers.
pub(crate) fn take(payload: &mut [u8], map: &mut [u8], rec: Rec, p: Piece<'_>) -> Taken
    requires body_in_bounds { 8 * p.off + length p.body.now ≤ length payload.old }
    requires payload_len_bound { length payload.old ≤ 64 * length map.old }
    requires total_value { total_fits (length payload.old) rec.total ≡ true }
    ensures { Moves (view rec payload.old map.old) (piece p.entry.off p.entry.mf p.entry.body.now) (Ok result) payload.new map.new }
{
    let next = put(payload, map, rec, p);
    answered(map, next)
}

// How a record stands whose total fits its map and its payload buffer d.
pub(crate) fn standing(map: &[u8], rec: Rec) -> Progress
    requires { total_fits (64 * length map.now) rec.total ≡ true }
    ensures { (d : List ℕ) → total_fits (length d) rec.total ≡ true
        → stands result ≡ standing_of (view rec d map.now) }
{
    let spoilt = rec.spoilt;
    let total = rec.total;
    if spoilt {
        return Progress::Spoilt;
    }
    if held_to(map, total) {
        return Progress::Complete(total.unwrap_or(0));
    }
    Progress::Waiting
}
