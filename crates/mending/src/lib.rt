// Mending damaged captures: the checksums of packets that are otherwise whole are worked out anew, and each change is listed.
#![tactic(auto)]

ghost use Rattle.std.specs.Prelude.{◌≡◌, ◌+◌, ◌^◌, ◌<◌, ◌∷◌, [], set};
ghost use Rattle.pkt.specs.Answers.{list_says};
ghost use Rattle.reading.specs.Reading.{packet_at};
ghost use Rattle.mending.specs.Sums.{renewed, sums_in, sums_says};
ghost use Rattle.mending.specs.Mend.{listed, room_answer, Mends};
ghost use Rattle.mending.specs.Pass.{Put, SumsAsk, PutAsks, Passes};

use crate::sums::{SumField, Sums};
use pkt::copying::copy;
use pkt::refusal::{ListRefusal, Refusal};
use reading::Spot;

mod sums;

// The field of a change: the IPv4 header's checksum, or the transport's. A number and no enum, since the rows that are lent may hold any numbers
// before the call, and a refused call leaves them.
pub const IPV4: usize = 0;

pub const TRANSPORT: usize = 1;

// How many bytes and how many changes were written.
#[derive(Clone, Copy, Drop)]
pub struct Counts {
    pub bytes: usize,
    pub changed: usize,
}

// A value at a place of a list, where the list goes so far.
fn put_at<T: Copy>(value: T, at: usize, list: &mut [T])
    ensures { list.new ≡ set list.old at value }
{
    if at < list.len() {
        list[at] = value;
    }
}

// A number in the two bytes of out from a place on, as far as out goes.
#[tactic(auto, unfolding(crate::specs::Sums::renewed))]
fn put_number(x: u16, at: usize, out: &mut [u8])
    requires { at + 1 < 2 ^ 64 }
    ensures { out.new ≡ renewed at x out.old }
{
    let [high, low] = x.to_be_bytes();
    put_at(high, at, out);
    put_at(low, at + 1, out);
}

// out, rows and the count of changes go apart here and below: out and rows are lent again in each turn of pass, and a struct of them would be taken
// apart there.
// The which-th field f of record k, whose packet stands at a place: its number is put, and where that changes it, the change is listed behind
// the others. How many changes there are then.
#[tactic(auto, unfolding(crate::specs::Pass::SumsAsk))]
fn put_sum(
    k: usize,
    which: usize,
    start: usize,
    f: SumField,
    changes: usize,
    out: &mut [u8],
    rows: &mut [[usize; 4]],
) -> usize
    requires { SumsAsk (f ∷ []) start changes }
    ensures { Put (listed k which start (f ∷ [])) changes out.old rows.old result out.new rows.new }
{
    put_number(f.new, start + f.at, out);
    if f.old == f.new {
        return changes;
    }
    put_at([k, which, f.old as usize, f.new as usize], changes, rows);
    changes + 1
}

// The fields of record k, whose packet stands at a place, if it has any.
#[tactic(auto, unfolding(crate::specs::Pass::SumsAsk))]
fn put_sums(
    k: usize,
    start: usize,
    fields: Option<Sums>,
    changes: usize,
    out: &mut [u8],
    rows: &mut [[usize; 4]],
) -> usize
    requires { SumsAsk (sums_says fields) start changes }
    ensures { Put (listed k 0 start (sums_says fields)) changes out.old rows.old result out.new rows.new }
{
    let Some(sums) = fields else {
        return changes;
    };
    let then = put_sum(k, IPV4, start, sums.ip, changes, out, rows);
    match sums.part {
        None => then,
        Some(part) => put_sum(k, TRANSPORT, start, part, then, out, rows),
    }
}

// The fields of a record's packet.
fn put(capture: &[u8], spot: Spot, changes: usize, out: &mut [u8], rows: &mut [[usize; 4]]) -> usize
    requires { PutAsks capture.now spot changes }
    ensures { Put (listed spot.number 0 spot.start (sums_in (packet_at capture.now spot))) changes out.old rows.old result out.new rows.new }
{
    let start = spot.start;
    let end = start + spot.len;
    let fields = sums::sums_in(&capture[start..end]);
    put_sums(spot.number, start, fields, changes, out, rows)
}

// A pass through the capture: each number that is worked out anew is put at its place of out, which holds a copy of the capture, and each change
// into the list; what lies past the end of either is left out. How many changes there are. (A while over steps, as the scope paper has them: the reader
// is no iterator.)
fn pass(capture: &[u8], out: &mut [u8], rows: &mut [[usize; 4]]) -> Result<usize, ListRefusal>
    ensures { Passes capture.now out.old rows.old result out.new rows.new }
{
    let mut r = reading::open(capture);
    let mut changes: usize = 0;
    while let Some(spot) = reading::here(r)? {
        changes = put(capture, spot, changes, out, rows);
        r = reading::past(r);
    }
    Ok(changes)
}

// Whether there is room for size bytes and so many changes.
fn fitting(size: usize, changed: usize, room: usize, places: usize) -> Result<Counts, ListRefusal>
    ensures { list_says result ≡ room_answer size changed room places }
{
    if room < size {
        return Err(ListRefusal::Whole(Refusal::NoRoom));
    }
    if places < changed {
        return Err(ListRefusal::Whole(Refusal::NoRoom));
    }
    Ok(Counts {
        bytes: size,
        changed,
    })
}

// Mends a capture into out, and lists each change as a row of rows: the record's number from 0, IPV4 or TRANSPORT, the old number, the new one:
// numbers throughout, for the reason that IPV4 has.
// Or refuses, and leaves both as they were. The first pass counts, and puts nothing anywhere.
pub fn mend(capture: &[u8], out: &mut [u8], rows: &mut [[usize; 4]]) -> Result<Counts, ListRefusal>
    ensures { Mends capture.now out.old rows.old result out.new rows.new }
{
    let changed = pass(capture, &mut out[0..0], &mut rows[0..0])?;
    let counts = fitting(capture.len(), changed, out.len(), rows.len())?;
    copy(capture, out);
    let _ = pass(capture, out, rows); // as the first, which was not refused
    Ok(counts)
}
