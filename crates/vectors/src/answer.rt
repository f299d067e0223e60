// What the calls of a case have written, beside what the Rust wrote.
//
// A call is lent as many bytes as the Rust wrote and MARGIN more, and all of them are MARK before the
// call. After it, every written byte is compared and every one of the MARGIN bytes behind is still MARK.
ghost use Rattle.std.specs.Prelude.{◌≡◌, ◌≤◌, length};

use crate::place::Form;
use crate::state::Now;
use crate::{fields, place};
use ezpkt::part::{back, front};
use pkt::refusal::Refusal;

const MARGIN: usize = 64;

pub(crate) const MARK: u8 = 0xa5;

// The digest of nothing.
pub(crate) const EMPTY: u32 = 2166136261;

// How much of all bytes is lent to a call that should write n, or to a packet whose largest end is n. The
// file has none above 1,048,576.
pub(crate) fn lent(n: usize, all: usize) -> usize
    ensures { result ≤ all }
{
    (n.min(1048576) + MARGIN).min(all)
}

// Room for the file, and for the largest packet with its margin.
pub(crate) const LARGE: usize = 1048640;

// Room for what a flow's call writes: an acknowledgment and a packet, with the margin.
pub(crate) const ROOM: usize = 65664;

// So many bytes, each of them MARK.
pub(crate) fn marked<const N: usize>() -> [u8; N]
    requires { N ≤ 1048640 }
    ensures { N ≡ length result }
{
    [MARK; N]
}

// The digest h, carried on over these bytes.
pub(crate) fn digest(h: u32, bytes: &[u8]) -> u32 {
    let mut sum = h;
    for b in bytes {
        sum = (sum ^ u32::from(*b)).wrapping_mul(16777619);
    }
    sum
}

// Whether every byte is MARK.
pub(crate) fn untouched(bytes: &[u8]) -> bool {
    bytes.iter().all(|b| *b == MARK)
}

// Whether MARGIN bytes follow the first n, none of them touched.
fn margin_stays(out: &[u8], n: usize) -> bool {
    let behind = back(out, n);
    behind.len() == MARGIN && untouched(behind)
}

// Before the first call of a case.
pub(crate) fn begun(now: Now) -> Now {
    Now {
        count: 0,
        bytes: 0,
        digest: EMPTY,
        kept: true,
        refused: true,
        ..now
    }
}

// With what the last call wrote at the front of out.
pub(crate) fn with(now: Now, out: &[u8]) -> Now {
    let n = now.end;
    let retired = now.refusal == Some(Refusal::NoChecksum);
    Now {
        bytes: now.bytes.wrapping_add((n % 4294967296) as u32),
        digest: digest(now.digest, front(out, n)),
        kept: now.kept && now.count > 0 && margin_stays(out, n),
        refused: now.refused && retired && untouched(out),
        ..now
    }
}

// Whether the file has the n bytes of a call, and not only the digest of all that the case wrote.
fn is_shown(kind: u8, n: usize) -> bool {
    n <= 128 && place::form_of(kind) != Form::Many
}

// How many bytes of the case tell what was written.
pub(crate) fn span(kind: u8, n: usize) -> usize
    ensures { result ≤ 132 }
{
    if is_shown(kind, n) {
        return 4 + n.min(128);
    }
    8
}

// Whether e begins with the bytes that were written, or with their digest.
fn holds(kind: u8, e: &[u8], now: Now, out: &[u8]) -> bool {
    let n = now.end;
    if is_shown(kind, n) {
        return front(e, n) == front(out, n);
    }
    fields::four(e, 0) == now.digest
}

// Whether the answer e tells what was written; out is what the last call was lent.
pub(crate) fn tells(kind: u8, e: &[u8], now: Now, out: &[u8]) -> bool {
    now.kept && fields::four(e, 0) == now.bytes && holds(kind, back(e, 4), now, out)
}
