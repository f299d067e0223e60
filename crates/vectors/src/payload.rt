// The payload that a case describes.
ghost use Rattle.std.specs.Prelude.{◌≤◌, length};

use crate::{fields, place};
use ezpkt::part::{back, front};
use pkt::copying::copy;

// Whether the description is one that the file may have.
fn is_right(b: &[u8]) -> bool {
    let form = fields::two(b, 0);
    let n = fields::size(b, 2);
    if n == 0 {
        return form == 0;
    }
    form < 0x200 && n <= 65535 || form == 0x200 && n <= 64
}

// How many bytes of the body describe it: all, where the description is wrong.
fn span(b: &[u8]) -> usize {
    if !is_right(b) {
        return b.len();
    }
    if fields::byte(b, 0) == 2 {
        return 6 + fields::size(b, 2);
    }
    6
}

// The description in a body and what follows it.
fn described(kind: u8, b: &[u8]) -> &[u8] {
    back(b, place::before_payload(kind))
}

// What follows the payload in a body, or all of it where the kind has none. Behind a wrong description
// nothing is left, and no case comes out so.
pub(crate) fn behind(kind: u8, b: &[u8]) -> &[u8] {
    if place::has_payload(kind) {
        let p = described(kind, b);
        return back(p, span(p));
    }
    b
}

// Byte i of form 0.
fn patterned(s: u8, i: usize) -> u8 {
    ((s as usize + 7 * (i % 256) + i / 251 % 256) % 256) as u8
}

fn put_pattern(s: u8, out: &mut [u8]) {
    for (i, b) in out.iter_mut().enumerate() {
        *b = patterned(s, i);
    }
}

fn put(b: &[u8], out: &mut [u8]) {
    let form = fields::byte(b, 0);
    let s = fields::byte(b, 1);
    if form == 0 {
        put_pattern(s, out);
    } else if form == 1 {
        out.fill(s);
    } else {
        copy(front(back(b, 6), out.len()), out);
    }
}

// Writes the payload of a body at the start of data, as far as it has room, and answers how many bytes that
// are: none, where the kind has no payload. It goes into a lent buffer, and no Vec: the families have no runtime to
// allocate by.
pub(crate) fn make(kind: u8, b: &[u8], data: &mut [u8]) -> usize
    ensures { result ≤ length «data».new }
{
    if !place::has_payload(kind) {
        return 0;
    }
    let p = described(kind, b);
    let n = fields::size(p, 2).min(data.len());
    put(p, &mut data[0..n]);
    n
}
