// An assembly of any capacity: that of its payload buffer, for which its map has a bit for each block.
ghost use Rattle.std.specs.Prelude.{◌≡◌, ◌*◌, length, leb};
ghost use Rattle.assembly.specs.Assembly.{opened, record_fits};
ghost use Rattle.assembly.specs.View.{view};
ghost use Rattle.assembly.specs.Answers.{progress_says};
ghost use Rattle.assembly.specs.Calls.{ready, Puts, any_progress};

use crate::step::Piece;
use crate::{Key, Progress, Rec, Taken, carried, record, step};
use inspect::header::IpRead;
use pkt::refusal::Refusal;

// Whether a map of `map` bytes has a bit for each block of a payload buffer of `payload`.
fn has_bits(payload: usize, map: usize) -> bool
    ensures { result ≡ leb payload (64 * map) }
{
    payload / 64 + (payload % 64 + 63) / 64 <= map
}

// Whether the record and the buffers fit each other.
fn is_ready(rec: Rec, payload: &[u8], map: &[u8]) -> bool
    ensures { result ≡ ready (view rec payload.now map.now) }
{
    let total = rec.total;
    let floor = rec.floor;
    if has_bits(payload.len(), map.len()) {
        return record::fits(total, floor, payload.len());
    }
    false
}

// Whether pieces within a payload buffer of so many bytes can lead to this record.
pub fn fits(rec: Rec, capacity: usize) -> bool
    ensures { result ≡ record_fits capacity rec.total rec.floor }
{
    let total = rec.total;
    let floor = rec.floor;
    record::fits(total, floor, capacity)
}

// Opens an assembly with these buffers for a key: all but the key becomes zero.
pub fn open(key: Key, payload: &mut [u8], map: &mut [u8]) -> Rec
    ensures { view result payload.new map.new ≡ opened key (length payload.old) (length map.old) }
{
    step::wipe(payload, map, key, false)
}

// Takes the piece with this header and this data, or refuses it and leaves the buffers as they were.
pub fn put(
    rec: Rec,
    h: IpRead,
    body: &[u8],
    payload: &mut [u8],
    map: &mut [u8],
) -> Result<Taken, Refusal>
    ensures { Puts (view rec payload.old map.old) h body.now result payload.new map.new }
{
    if !is_ready(rec, payload, map) {
        return Err(Refusal::BadAssembly);
    }
    let p = carried::fit(payload.len(), body.len(), h)?;
    let piece = Piece {
        off: p.off as usize,
        mf: p.mf,
        body,
    };
    Ok(step::take(payload, map, rec, piece))
}

// How the assembly stands: a complete datagram is the first so many bytes of the payload buffer.
pub fn progress(rec: Rec, payload: &[u8], map: &[u8]) -> Result<Progress, Refusal>
    ensures { progress_says result ≡ any_progress (view rec payload.now map.now) }
{
    if is_ready(rec, payload, map) {
        return Ok(step::standing(map, rec));
    }
    Err(Refusal::BadAssembly)
}
