// Kinds 10 to 53: calls that write packets, and the other calls of the flows.
ghost use Rattle.std.specs.Prelude.{◌≤◌};

use crate::place::Form;
use crate::state::Now;
use crate::{answer, fields, icmp, payload, pieces, place, state, tcp, udp};
use ezpkt::part::back;

// How often the call of a kind is made. The file has no more than 100,000 calls in a case.
fn times(kind: u8, a: &[u8]) -> u32
    ensures { result ≤ 100000 }
{
    if place::form_of(kind) != Form::Many {
        return 1;
    }
    if kind / 16 != 3 {
        return 65536;
    }
    let n = fields::four(a, 0);
    if n > 100000 { 0 } else { n }
}

// How many bytes each call of the case writes, as the answer in a tells: behind the lengths, if it has
// them.
fn each(kind: u8, a: &[u8]) -> usize {
    let e = back(a, place::skip(kind));
    if place::form_of(kind) == Form::UpToThree {
        return fields::size(e, 1 + 4 * (fields::byte(e, 0) as usize));
    }
    fields::size(e, 0)
        .checked_div(times(kind, a) as usize)
        .unwrap_or(0)
}

// The call of a kind; kind and b go apart in each family, since most of its functions need the one or the other.
// What it wrote stays none, where it was refused or the case has what no call has.
fn sent(now: Now, kind: u8, b: &[u8], bytes: &[u8], frag_off: u16, out: &mut [u8]) -> Now {
    match kind / 16 {
        1 => pieces::sent(now, kind, b, bytes, out),
        2 => udp::sent(now, kind, b, bytes, frag_off, out),
        3 => icmp::sent(now, kind, bytes, out),
        _ => tcp::sent(now, kind, b, bytes, frag_off, out),
    }
}

fn again(now: Now, kind: u8, b: &[u8], bytes: &[u8], frag_off: u16, out: &mut [u8]) -> Now {
    out.fill(answer::MARK);
    let next = Now {
        count: 0,
        refusal: None,
        ..now
    };
    answer::with(sent(next, kind, b, bytes, frag_off, out), out)
}

// The two bytes before the answer of a case of one call are frag_off, where the kind has it.
fn first_frag_off(kind: u8, a: &[u8]) -> u16 {
    if place::form_of(kind) == Form::Many {
        return 0;
    }
    fields::two(a, place::skip(kind).wrapping_sub(2))
}

// Every call of the case, each with the next number for frag_off.
fn every(now: Now, kind: u8, b: &[u8], bytes: &[u8], out: &mut [u8]) -> Now {
    let a = payload::behind(kind, b);
    let n = times(kind, a);
    let mut frag_off = first_frag_off(kind, a);
    let mut next = answer::begun(now);
    for _ in 0..n {
        next = again(next, kind, b, bytes, frag_off, out);
        frag_off = frag_off.wrapping_add(1);
    }
    next
}

// How many bytes tell how many packets there are, and the length of each.
fn counts_size(kind: u8, count: u8) -> usize
    ensures { result ≤ 1021 }
{
    if place::form_of(kind) == Form::UpToThree {
        return 1 + 4 * (count as usize);
    }
    0
}

// Whether the packets end where the lengths that e begins with say.
fn are_ends(e: &[u8], now: Now) -> bool {
    let first = fields::size(e, 0);
    let second = first + fields::size(e, 4);
    let third = second + fields::size(e, 8);
    let two = now.count < 2 || now.second == second;
    let three = now.count < 3 || now.end == third;
    now.first == first && two && three
}

// Whether as many packets were written as the answer e tells, each of its length; where the call is made
// many times, whether the last one wrote any.
fn are_counts(kind: u8, e: &[u8], now: Now) -> bool {
    match place::form_of(kind) {
        Form::One => now.count == 1,
        Form::UpToThree => now.count == fields::byte(e, 0) && are_ends(back(e, 1), now),
        Form::Many | Form::Nothing => now.count > 0,
    }
}

// Whether the flows, open before and after, are as the end of a, from a place on, tells. There is nothing for pieces and datagrams.
fn has_state(kind: u8, a: &[u8], at: usize, before: Now, now: Now) -> bool {
    let e = back(a, at);
    match kind / 16 {
        1 | 2 => a.len() == at,
        3 => before
            .icmp
            .zip(now.icmp)
            .is_some_and(|(x, y)| icmp::has_state(e, x, y)),
        _ => before
            .tcp
            .zip(now.tcp)
            .is_some_and(|(x, y)| tcp::has_state(e, x, y)),
    }
}

// After the calls: whether they wrote what the Rust wrote.
fn compared(before: Now, now: Now, kind: u8, b: &[u8], out: &[u8]) -> Now {
    let a = payload::behind(kind, b);
    let skip = place::skip(kind);
    let at = skip + counts_size(kind, now.count);
    let end = at + answer::span(kind, now.end);
    let counts = are_counts(kind, back(a, skip), now);
    let bytes = answer::tells(kind, back(a, at), now, out);
    let same = counts && bytes && has_state(kind, a, end, before, now);
    state::told(now, same)
}

// A datagram without checksum is refused, and what the Rust wrote does not count.
fn written(now: Now, kind: u8, b: &[u8], bytes: &[u8], out: &mut [u8]) -> Now {
    let next = every(now, kind, b, bytes, out);
    if udp::is_retired(kind, b) {
        return state::told(next, next.refused);
    }
    compared(now, next, kind, b, out)
}

// A case that writes packets, with its payload.
fn sending(now: Now, kind: u8, b: &[u8], bytes: &[u8]) -> Now {
    let mut out = answer::marked::<{ answer::ROOM }>();
    let end = answer::lent(each(kind, payload::behind(kind, b)), out.len());
    written(now, kind, b, bytes, &mut out[0..end])
}

// A case that writes packets. (Not inlined: in call its 64 KiB would be zeroed for the other cases too.)
#[inline(never)]
fn packets(now: Now, kind: u8, b: &[u8]) -> Now {
    let mut data = io::large_buffer();
    let n = payload::make(kind, b, &mut data);
    sending(now, kind, b, &data[0..n])
}

// The case on the flows.
pub(crate) fn call(now: Now, kind: u8, b: &[u8]) -> Now {
    if place::form_of(kind) != Form::Nothing {
        return packets(now, kind, b);
    }
    if kind == 0x30 {
        return icmp::opened(now, b);
    }
    tcp::unsent(now, kind, b)
}
