// Kinds 10 to 12: pieces of an IPv4 payload.
use crate::state::Now;
use crate::{fields, payload, state};
use ezpkt::ip4;
use ezpkt::ip4::Template;
use pkt::refusal::Refusal;

fn template(b: &[u8]) -> Template {
    let flags = fields::byte(b, 3);
    Template {
        tos: fields::byte(b, 0),
        id: fields::two(b, 1),
        df: flags & 1 != 0,
        evil: flags & 2 != 0,
        ttl: fields::byte(b, 4),
        protocol: fields::byte(b, 5),
        saddr: fields::four(b, 6),
        daddr: fields::four(b, 10),
    }
}

// The call of a kind; a holds the numbers that go with it.
fn built(kind: u8, t: Template, bytes: &[u8], a: &[u8], out: &mut [u8]) -> Result<usize, Refusal> {
    let off = fields::two(a, 0);
    match kind {
        0x10 => ip4::fragment(t, bytes, off, fields::two(a, 2), out),
        0x11 => ip4::tail(t, bytes, off, out),
        _ => ip4::datagram(t, bytes, out),
    }
}

// The call of the case; only two flags have a meaning.
pub(crate) fn sent(now: Now, kind: u8, b: &[u8], bytes: &[u8], out: &mut [u8]) -> Now {
    if fields::byte(b, 3) > 3 {
        return now;
    }
    let a = payload::behind(kind, b);
    state::built(now, built(kind, template(b), bytes, a, out))
}
