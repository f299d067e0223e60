// The inside of the checksum, as RFC 1071 says it: a 16-bit running sum, the carry put back after each addition. No other crate reaches it.
ghost use Rattle.std.specs.Prelude.{◌≡◌, ◌+◌, ◌-◌, ◌*◌, ◌≤◌, length};
ghost use Rattle.pkt.specs.Rfc1071 as rfc;
ghost use Rattle.pkt.specs.Sums.{total, canon, four_words};

// RFC 1071, 1, (1): adjacent octets are paired to form 16-bit integers. (By a sum, and the loops below by an index and not inlined: docs/DESIGN-PASS.md
// has the times of the other forms.)
fn word(hi: u8, lo: u8) -> u16
    ensures { result ≡ hi * 256 + lo }
{
    (hi as u16) * 256 + lo as u16
}

// RFC 1071, 1: the one's complement addition of two of them. A sum that is below one of its parts has overflowed, and the carry is added at the bottom.
pub(crate) fn plus(a: u16, b: u16) -> u16
    ensures { result ≡ rfc.plus a b }
{
    let sum = a.wrapping_add(b);
    if sum < a {
        return sum + 1;
    }
    sum
}

// RFC 1071, 2, (A): the order of additions is free, so that the first four words are added among themselves.
fn four(p: &[u8]) -> u16
    requires { 8 ≤ length p.now }
    ensures { result ≡ canon (four_words p.now) }
{
    let first = plus(word(p[0], p[1]), word(p[2], p[3]));
    let second = plus(word(p[4], p[5]), word(p[6], p[7]));
    plus(first, second)
}

// The sum of the words of buf, one after the other. An odd last octet is the high one of a word.
fn singly(buf: &[u8]) -> u16
    ensures { canon result ≡ canon (total buf.now) }
{
    let n = buf.len();
    let mut sum: u16 = 0;
    let mut i = 0;
    while i + 1 < n {
        sum = plus(sum, word(buf[i], buf[i + 1]));
        i += 2;
    }
    if i < n {
        sum = plus(sum, word(buf[i], 0));
    }
    sum
}

// The sum of the words of buf: four in a turn, and what is left one by one.
#[inline(never)]
pub(crate) fn ip_csum_partial(buf: &[u8]) -> u16
    ensures { canon result ≡ canon (total buf.now) }
{
    let n = buf.len();
    let mut sum: u16 = 0;
    let mut i = 0;
    while i + 7 < n {
        sum = plus(sum, four(&buf[i..]));
        i += 8;
    }
    plus(sum, singly(&buf[i..]))
}

// RFC 1071, 1, (2): the one's complement of the sum. There is nothing left to fold.
pub(crate) fn ip_csum_fold(running: u16) -> u16
    ensures { result ≡ 65535 - canon running }
{
    65535 - running
}

// The checksum of a header and the payload behind it, from the sum of what stands before them.
pub(crate) fn finished(before: u16, header: &[u8], payload: &[u8]) -> u16
    ensures { result ≡ 65535 - canon (before + total header.now + total payload.now) }
{
    let sum = plus(
        plus(before, ip_csum_partial(header)),
        ip_csum_partial(payload),
    );
    ip_csum_fold(sum)
}
