// A whole list of pieces of one payload at once.
#![tactic(auto)]

ghost use Rattle.std.specs.Prelude.{◌≡◌, length};
ghost use Rattle.pkt.specs.Answers.{list_says};
ghost use Rattle.pkt.specs.Written.{written};
ghost use Rattle.ezpkt.specs.Build.{is_bad_offset};
ghost use Rattle.pieces.specs.Fragments.{packets_of, ends_from, fragments_answer, Fragmented};
ghost use Rattle.pieces.specs.Survey.{bad_in, left_of, first_after, left_after, Fits, PutAsks, Put};

use ezpkt::ip4;
use ezpkt::ip4::Template;
use pkt::limit;
use pkt::refusal::{ListRefusal, Refusal};

// A piece to cut: len blocks of 8 bytes from block off.
#[repr(C)]
#[derive(Clone, Copy, Drop)]
pub struct BlockRequest {
    pub off: u16,
    pub len: u16,
}

fn is_bad(r: BlockRequest) -> bool
    ensures { result ≡ is_bad_offset r.off }
{
    r.off > limit::OFFSET
}

// What is found in a list before it is cut: the index of the first request whose offset is too large, where there is one, and what the packets leave
// of the room, where there is room for them.
#[derive(Clone, Copy, Drop)]
struct Found {
    pub bad: Option<usize>,
    pub left: Option<usize>,
}

// The index of the first bad request, where r is looked at, at index i, behind those before.
#[tactic(auto, unfolding(crate::specs::Survey::first_after))]
fn first_after(bad: Option<usize>, i: usize, r: BlockRequest) -> Option<usize>
    ensures { result ≡ first_after bad i r }
{
    if bad.is_none() && is_bad(r) {
        return Some(i);
    }
    bad
}

// What a packet of so many bytes leaves, where there was room before and is room for it.
#[tactic(auto, unfolding(crate::specs::Survey::left_after))]
fn left_after(left: Option<usize>, size: usize) -> Option<usize>
    ensures { result ≡ left_after left size }
{
    left?.checked_sub(size)
}

// What is found in the list for a payload of n bytes and an output of so much room: it is looked through once.
fn survey(list: &[BlockRequest], n: usize, room: usize) -> Found
    ensures { (result.bad ≡ bad_in list.now) × (result.left ≡ left_of n room list.now) }
{
    let mut bad = None;
    let mut left = Some(room);
    for (i, r) in list.iter().enumerate() {
        bad = first_after(bad, i, *r);
        left = left_after(left, ip4::fragment_size(r.off, r.len, n));
    }
    Found { bad, left }
}

// The answer for a payload of n bytes, an output of so much room, and so many places for ends.
fn answer(list: &[BlockRequest], n: usize, room: usize, places: usize) -> Result<usize, ListRefusal>
    ensures { list_says result ≡ fragments_answer list.now n room places }
{
    if n > limit::IP_PAYLOAD {
        return Err(ListRefusal::Whole(Refusal::TooLong));
    }
    let found = survey(list, n, room);
    if let Some(i) = found.bad {
        return Err(ListRefusal::At(Refusal::BadOffset, i));
    }
    let left = found.left.ok_or(Refusal::NoRoom)?;
    if places < list.len() {
        return Err(ListRefusal::Whole(Refusal::NoRoom));
    }
    Ok(room - left)
}

// template, payload, out and ends go apart, as fragments takes them: document 02 lends the ends in a list of their own.

// One packet more behind the first at bytes of out, and its end at index i: that end.
fn put(
    template: Template,
    payload: &[u8],
    r: BlockRequest,
    i: usize,
    at: usize,
    out: &mut [u8],
    ends: &mut [usize],
) -> usize
    requires { PutAsks r i at (length payload.now) (length out.old) (length ends.old) }
    ensures { Put template r i at payload.now out.old ends.old result out.new ends.new }
{
    let size = ip4::fragment(template, payload, r.off, r.len, &mut out[at..]).unwrap_or(0);
    let end = at + size;
    ends[i] = end;
    end
}

// The packets of the list, end to end at the start of out, and their ends at the start of ends.
fn put_all(
    template: Template,
    payload: &[u8],
    list: &[BlockRequest],
    out: &mut [u8],
    ends: &mut [usize],
)
    requires { Fits list.now (length payload.now) (length out.old) (length ends.old) }
    ensures { (out.new ≡ written (packets_of template list.now payload.now) out.old) × (ends.new ≡ written (ends_from (length payload.now) 0 list.now) ends.old) }
{
    let mut at = 0;
    for (i, r) in list.iter().enumerate() {
        at = put(template, payload, *r, i, at, &mut *out, &mut *ends);
    }
}

// Cuts the pieces of the list from the payload, end to end into out, and puts the end of each into ends; or refuses and leaves both as they were.
#[tactic(auto, using(crate::proofs::Turns::gives_fits, crate::proofs::Turns::all_put, crate::proofs::Turns::none_put))]
pub fn fragments(
    template: Template,
    payload: &[u8],
    list: &[BlockRequest],
    out: &mut [u8],
    ends: &mut [usize],
) -> Result<usize, ListRefusal>
    ensures { Fragmented template list.now payload.now out.old ends.old result out.new ends.new }
{
    let size = answer(list, payload.len(), out.len(), ends.len())?;
    put_all(template, payload, list, out, ends);
    Ok(size)
}
