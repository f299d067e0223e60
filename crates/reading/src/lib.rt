// Captures read through a reader that holds the lent capture and its place, or on a slice and a place. The work is done on a slice and numbers;
// what is done with a reader takes it apart. Both are the scope paper's forms, and the slice, the place and the count go apart so.
#![tactic(auto)]

ghost use Rattle.std.specs.Prelude.{◌≡◌, ◌+◌, ◌≤◌, false, length, drop};
ghost use Rattle.pcap.specs.Read.{number, is_broken, record_size};
ghost use Rattle.pkt.specs.Answers.{list_says};
ghost use Rattle.reading.specs.Reading.{open_at, step_at, more_at, past_at, count_past, moved};

use pkt::limit;
use pkt::refusal::{ListRefusal, Refusal};

// A lent capture, a place in it, and how many records lie before that place.
#[derive(Clone, Copy, Drop)]
pub struct Reader<'a> {
    capture: &'a [u8],
    at: usize,
    count: usize,
}

// A record: its number from 0, its time, where its packet stands and how long it is, and how long it was on the wire.
#[derive(Clone, Copy, Drop)]
pub struct Spot {
    pub number: usize,
    pub sec: u32,
    pub usec: u32,
    pub start: usize,
    pub len: usize,
    pub original: u32,
}

// The place of the first record, or 0 where the capture does not start with document 01's file header. A number, and no Option: at a place before the
// records each step refuses, so a reader of such a capture is one as any other.
#[tactic(auto, using(crate::proofs::Starts::starts_as))]
pub fn opening(s: &[u8]) -> usize
    ensures { result ≡ open_at s.now }
{
    let h = pcap::header();
    if s.starts_with(&h) { 24 } else { 0 }
}

// The number in four bytes, the first the lowest.
#[tactic(auto, using(crate::proofs::Numbers::number_four))]
fn le32(s: &[u8], at: usize) -> u32
    requires { at + 4 ≤ length s.now }
    ensures { result ≡ number 4 at s.now }
{
    u32::from_le_bytes([s[at], s[at + 1], s[at + 2], s[at + 3]])
}

// Whether the record at a place is cut short, its header or its bytes, or is above 65,535 bytes.
#[tactic(auto, using(crate::proofs::Numbers::number_behind), unfolding(pcap::specs::Read::is_broken, pcap::specs::Read::record_size))]
fn is_broken(s: &[u8], at: usize) -> bool
    ensures { result ≡ is_broken (drop at s.now) }
{
    let left = s.len().saturating_sub(at);
    if left < 16 {
        return true;
    }
    let len = le32(s, at + 8) as usize;
    if limit::BYTES < len {
        return true;
    }
    left < 16 + len
}

// The bytes of the record at a place, its header among them.
#[tactic(auto, using(crate::proofs::Broken::header_there, crate::proofs::Numbers::number_behind), unfolding(pcap::specs::Read::record_size))]
fn size(s: &[u8], at: usize) -> usize
    requires { is_broken (drop at s.now) ≡ false }
    ensures { result ≡ record_size (drop at s.now) }
{
    16 + le32(s, at + 8) as usize
}

// What stands at a place behind count records: a record, or None at the end.
#[tactic(auto, using(crate::proofs::Broken::header_there, crate::proofs::Numbers::number_behind), unfolding(pcap::specs::Read::record_at))]
pub fn step_at(s: &[u8], at: usize, count: usize) -> Result<Option<Spot>, ListRefusal>
    ensures { list_says result ≡ step_at s.now at count }
{
    if at < 24 {
        return Err(ListRefusal::Whole(Refusal::NotCapture));
    }
    if s.len() <= at {
        return Ok(None);
    }
    if is_broken(s, at) {
        return Err(ListRefusal::At(Refusal::Broken, count));
    }
    Ok(Some(Spot {
        number: count,
        sec: le32(s, at),
        usec: le32(s, at + 4),
        start: at + 16,
        len: le32(s, at + 8) as usize,
        original: le32(s, at + 12),
    }))
}

// Whether a whole record stands at a place.
pub fn more_at(s: &[u8], at: usize) -> bool
    ensures { result ≡ more_at s.now at }
{
    if at < 24 {
        return false;
    }
    !is_broken(s, at)
}

// The place behind the record at a place, or the place itself where none stands.
#[tactic(auto, using(crate::proofs::Broken::bytes_there))]
pub fn past_at(s: &[u8], at: usize) -> usize
    ensures { result ≡ past_at s.now at }
{
    if more_at(s, at) {
        return at + size(s, at);
    }
    at
}

// How many records lie before that place.
fn count_past(s: &[u8], at: usize, count: usize) -> usize
    ensures { result ≡ count_past s.now at count }
{
    if more_at(s, at) {
        return count.wrapping_add(1);
    }
    count
}

// A reader at the first record; where the capture does not start with document 01's file header, one whose steps all answer 23.
pub fn open<'a>(capture: &'a [u8]) -> Reader<'a>
    ensures { (result.capture ≡ capture.entry) × (result.at ≡ open_at capture.now) × (result.count ≡ 0) }
{
    let at = opening(capture);
    Reader {
        capture,
        at,
        count: 0,
    }
}

// What stands at the reader's place: a record, or None at the end.
pub fn here<'a>(r: Reader<'a>) -> Result<Option<Spot>, ListRefusal>
    ensures { list_says result ≡ step_at r.entry.capture.now r.entry.at r.entry.count }
{
    step_at(r.capture, r.at, r.count)
}

// Whether a whole record stands at the reader's place.
pub fn more<'a>(r: Reader<'a>) -> bool
    ensures { result ≡ more_at r.entry.capture.now r.entry.at }
{
    more_at(r.capture, r.at)
}

// The reader behind the record at its place, or where it was if none stands there.
pub fn past<'a>(r: Reader<'a>) -> Reader<'a>
    ensures { result ≡ moved r.entry }
{
    let at = past_at(r.capture, r.at);
    let count = count_past(r.capture, r.at, r.count);
    Reader {
        capture: r.capture,
        at,
        count,
    }
}
