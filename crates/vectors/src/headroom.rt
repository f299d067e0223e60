// Kinds 60 to 6f: packets with headroom.
//
// The buffer that is lent is as long as the largest end that the packet reaches, and MARGIN more. All
// of it is MARK before the packet is made. After every case all bytes before the end are compared, by
// their digest, and every byte from the end on is still MARK.
use crate::place::Form;
use crate::state::Now;
use crate::{answer, fields, payload, place, state};
use ezpkt::part::{back, front};
use packet::{Grown, Packet, PktSlice};
use pkt::copying::copy;
use pkt::refusal::Refusal;

// Whether the packet has this headroom, and this end.
fn has_places(p: Packet, headroom: usize, end: usize, buf: &[u8]) -> bool {
    headroom <= end && p.headroom(buf) == Ok(headroom) && p.len(buf) == Ok(end - headroom)
}

// Whether the digest is that of what stands before the end, and what stands behind it is untouched.
fn has_bytes(digest: u32, end: usize, buf: &[u8]) -> bool {
    let got = answer::digest(answer::EMPTY, front(buf, end));
    got == digest && answer::untouched(back(buf, end))
}

// Whether e is the record of the packet: headroom, end and digest.
fn has_record(e: &[u8], p: Packet, buf: &[u8]) -> bool {
    let end = fields::size(e, 4);
    let places = has_places(p, fields::size(e, 0), end, buf);
    e.len() == 12 && places && has_bytes(fields::four(e, 8), end, buf)
}

// What was answered is the same, and e is the record of the packet.
fn recorded(now: Now, e: &[u8], buf: &[u8]) -> Now {
    state::told(now, now.same && has_record(e, now.packet, buf))
}

// The packet afterwards, and whether what was answered is the same.
fn stepped(now: Now, p: Packet, same: bool) -> Now {
    Now {
        packet: p,
        same: now.same && same,
        ..now
    }
}

fn made(now: Now, got: Result<Packet, Refusal>) -> Now {
    match got {
        Ok(p) => stepped(now, p, true),
        Err(_) => state::told(now, false),
    }
}

// The part of which e tells the offset and the length.
fn part(e: &[u8]) -> PktSlice {
    PktSlice {
        off: fields::size(e, 0),
        len: fields::size(e, 4),
    }
}

// Whether the part of n bytes is the one that e tells: its offset, and its length unless e is only an offset
// and the record, 16 bytes.
fn is_part(s: PktSlice, n: usize, e: &[u8]) -> bool {
    let len = e.len() == 16 || fields::size(e, 4) == n;
    s.off == fields::size(e, 0) && s.len == n && len
}

// The packet with n more bytes.
fn longer(now: Now, got: Result<Grown, Refusal>, n: usize, e: &[u8]) -> Now {
    match got {
        Ok(grown) => stepped(now, grown.whole, is_part(grown.added, n, e)),
        Err(_) => state::told(now, false),
    }
}

// Kind 6c: eight bytes, of which the first four are 0.
fn is_time(p: Packet, b: &[u8], buf: &[u8]) -> bool {
    fields::four(b, 0) == 0 && p.bit_time(buf) == Ok(fields::size(b, 4))
}

// Kind 6f.
fn is_whole(p: Packet, b: &[u8], buf: &[u8]) -> bool {
    match p.as_slice(buf) {
        Ok(s) => is_part(s, fields::size(b, 4), b),
        Err(_) => false,
    }
}

// Kind 60.
fn opened(now: Now, b: &[u8], buf: &mut [u8]) -> Now {
    buf.fill(answer::MARK);
    made(now, Packet::new(fields::size(b, 0), buf))
}

// Kinds 67, 6c and 6f.
fn unwritten(now: Now, kind: u8, b: &[u8], buf: &[u8]) -> Now {
    let p = now.packet;
    match kind {
        0x67 => made(now, p.return_headroom(part(b), buf)),
        0x6c => state::told(now, is_time(p, b, buf)),
        _ => state::told(now, is_whole(p, b, buf)),
    }
}

// Kinds 61, 64 and 65: so many bytes that are not given.
fn sized(kind: u8, p: Packet, n: usize, buf: &mut [u8]) -> Result<Grown, Refusal> {
    match kind {
        0x61 => p.push_hdr(n, buf),
        0x64 => p.push_slice(n, buf),
        _ => p.lower_headroom(n, buf),
    }
}

fn with_size(now: Now, kind: u8, b: &[u8], buf: &mut [u8]) -> Now {
    let p = now.packet;
    let n = fields::size(b, 0);
    longer(now, sized(kind, p, n, buf), n, back(b, 4))
}

// Kinds 62, 63 and 66: bytes that are given.
fn given(kind: u8, p: Packet, bytes: &[u8], buf: &mut [u8]) -> Result<Grown, Refusal> {
    match kind {
        0x62 => p.push(bytes, buf),
        0x63 => p.push_bytes(bytes, buf),
        _ => p.lower_headroom_for(bytes, buf),
    }
}

// The caller writes a part of its buffer. Several programs do so: no library needs it, and it would be public there.
fn put(bytes: &[u8], off: usize, buf: &mut [u8]) {
    if off <= buf.len() && bytes.len() <= buf.len() - off {
        copy(bytes, &mut buf[off..]);
    }
}

// Kind 6e. The part is within the packet.
fn written(now: Now, b: &[u8], bytes: &[u8], buf: &mut [u8]) -> Now {
    let off = fields::size(b, 0);
    let end = off + bytes.len().min(65536);
    put(bytes, off, buf);
    state::told(now, now.packet.headroom <= off && end <= now.packet.end)
}

// The bytes that are given are added, or written into the packet.
fn with_bytes(now: Now, kind: u8, b: &[u8], bytes: &[u8], buf: &mut [u8]) -> Now {
    let p = now.packet;
    if kind == 0x6e {
        return written(now, b, bytes, buf);
    }
    longer(
        now,
        given(kind, p, bytes, buf),
        bytes.len(),
        payload::behind(kind, b),
    )
}

fn with_payload(now: Now, kind: u8, b: &[u8], buf: &mut [u8]) -> Now {
    let mut data = io::large_buffer();
    let n = payload::make(kind, b, &mut data);
    with_bytes(now, kind, b, &data[0..n], buf)
}

// Kinds that copy nothing out; the record is not yet compared.
fn without_copy(now: Now, kind: u8, b: &[u8], buf: &mut [u8]) -> Now {
    match kind {
        0x60 => opened(now, b, buf),
        0x61 | 0x64 | 0x65 => with_size(now, kind, b, buf),
        0x67 | 0x6c | 0x6f => unwritten(now, kind, b, buf),
        _ => with_payload(now, kind, b, buf),
    }
}

// Kinds 68, 69, 6a, 6b and 6d: bytes that are copied out. The part counts where the kind has one.
fn copied(kind: u8, p: Packet, b: &[u8], buf: &[u8], out: &mut [u8]) -> Result<usize, Refusal> {
    match kind {
        0x68 => p.to_vec(buf, out),
        0x6b => p.hex_dump(buf, out),
        _ => p.to_vec_from(part(b), buf, out),
    }
}

// Whether the length of a dump, where there is one, is as it was told beforehand.
fn is_foretold(kind: u8, p: Packet, n: usize, buf: &[u8]) -> bool {
    kind != 0x6b || p.hex_dump_len(buf) == Ok(n)
}

// Whether what was copied is what the answer e tells.
fn compared(
    now: Now,
    kind: u8,
    got: Result<usize, Refusal>,
    e: &[u8],
    buf: &[u8],
    out: &[u8],
) -> Now {
    let p = now.packet;
    match got {
        Ok(n) => {
            let next = answer::with(state::wrote(answer::begun(now), n), out);
            let same = answer::tells(kind, e, next, out) && is_foretold(kind, p, n, buf);
            recorded(state::told(next, same), back(e, answer::span(kind, n)), buf)
        }
        Err(_) => state::told(now, false),
    }
}

fn copying(now: Now, kind: u8, b: &[u8], e: &[u8], buf: &[u8], out: &mut [u8]) -> Now {
    let p = now.packet;
    let got = copied(kind, p, b, buf, out);
    compared(now, kind, got, e, buf, out)
}

// Kinds that copy bytes out.
fn read(now: Now, kind: u8, b: &[u8], e: &[u8], buf: &[u8]) -> Now {
    let mut out = answer::marked::<{ answer::LARGE }>();
    let end = answer::lent(fields::size(e, 0), out.len());
    copying(now, kind, b, e, buf, &mut out[0..end])
}

// The case in the bytes that are lent to the packet.
fn within(now: Now, kind: u8, b: &[u8], buf: &mut [u8]) -> Now {
    let e = back(payload::behind(kind, b), place::skip(kind));
    if place::form_of(kind) == Form::One {
        return read(now, kind, b, e, buf);
    }
    recorded(without_copy(now, kind, b, buf), e, buf)
}

// The largest end of the packet: that of a new one is in the case, and not above 1,048,576. The one before
// has reached its own.
fn room_of(now: Now, kind: u8, b: &[u8]) -> Now {
    if kind != 0x60 {
        return state::told(now, true);
    }
    let room = fields::size(b, 4);
    Now {
        room,
        same: now.packet.end == now.room && room <= 1048576,
        ..now
    }
}

// The case on the packet that is there.
pub(crate) fn call(before: Now, kind: u8, b: &[u8], buf: &mut [u8]) -> Now {
    let now = room_of(before, kind, b);
    let end = answer::lent(now.room, buf.len());
    within(now, kind, b, &mut buf[0..end])
}
