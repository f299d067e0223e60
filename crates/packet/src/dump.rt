// The parts of the hex dump, each written at the start of a lent output whose other bytes stay.
ghost use Rattle.std.specs.Prelude.{◌≡◌, ◌∷◌, map, min, ◌+◌, ◌*◌, ◌/◌, ◌≤◌, ◌<◌, length, take, drop};
ghost use Rattle.pkt.specs.Written.{written};
ghost use Rattle.packet.specs.Headroom.{placed};
ghost use Rattle.packet.specs.Dump.{digit_of, numeral, digits_of, space, hexes, shown_of, left, right, line, lines, dump_bytes};

use crate::put::fill;
use pkt::copying::copy;

// Digits are written by hand, and not by Display: they go into a lent buffer at places that are known.

// The digit of a number below 16.
fn digit(d: usize) -> u8
    requires { d < 16 }
    ensures { result ≡ digit_of d }
{
    if d < 10 {
        b'0' + d as u8
    } else {
        b'a' + (d - 10) as u8
    }
}

// x in k digits to a base of at most 16, written from the last to the first.
fn put_number(base: usize, k: usize, x: usize, out: &mut [u8])
    requires { (0 < base) × (base ≤ 16) × (k ≤ length out.old) }
    ensures { out.new ≡ written (numeral base k x) out.old }
{
    let mut rest = x;
    for i in (0..k).rev() {
        out[i] = digit(rest % base);
        rest /= base;
    }
}

// How many decimal digits x has. A while: it divides until one digit is left, and counts no index.
fn digits(x: usize) -> usize
    requires { x ≤ 1048576 }
    ensures { (result ≡ digits_of x) × (result ≤ 1 + x) }
{
    let mut n = 1;
    let mut rest = x;
    while rest >= 10 {
        rest /= 10;
        n += 1;
    }
    n
}

// A byte of a line: a space and two hex digits.
fn put_hex(b: u8, out: &mut [u8])
    requires { 3 ≤ length out.old }
    ensures { out.new ≡ written (space ∷ numeral 16 2 b) out.old }
{
    fill(out, 1, b' ');
    put_number(16, 2, b as usize, &mut out[1..]);
}

// The bytes of a line.
fn put_hexes(l: &[u8], out: &mut [u8])
    requires { 3 * length l.now ≤ length out.old }
    ensures { out.new ≡ written (hexes l.now) out.old }
{
    for (i, b) in l.iter().enumerate() {
        let at = 3 * i;
        put_hex(*b, &mut out[at..]);
    }
}

// The character that stands for a byte.
fn shown(b: u8) -> u8
    ensures { result ≡ shown_of b }
{
    if b < 0x21 {
        return b'.';
    }
    if b > 0x7e {
        return b'.';
    }
    b
}

// The characters of a line.
fn put_chars(l: &[u8], out: &mut [u8])
    requires { length l.now ≤ length out.old }
    ensures { out.new ≡ written (map shown_of l.now) out.old }
{
    for (i, b) in l.iter().enumerate() {
        out[i] = shown(*b);
    }
}

// The first 55 characters of a line: the position, a bar, the bytes and blanks for the missing ones.
fn put_left(pos: usize, l: &[u8], out: &mut [u8])
    requires { (length l.now ≤ 16) × (55 ≤ length out.old) }
    ensures { out.new ≡ written (left pos l.now) out.old }
{
    let n = l.len();
    put_number(16, 5, pos, out);
    copy(b" |", &mut out[5..]);
    put_hexes(l, &mut out[7..]);
    let at = 7 + 3 * n;
    fill(&mut out[at..], 3 * (16 - n), b' ');
}

// The rest of a line: a space, the characters and a newline.
fn put_right(l: &[u8], out: &mut [u8])
    requires { 2 + length l.now ≤ length out.old }
    ensures { out.new ≡ written (right l.now) out.old }
{
    let at = 1 + l.len();
    fill(out, 1, b' ');
    put_chars(l, &mut out[1..]);
    fill(&mut out[at..], 1, b'\n');
}

// A line of up to 16 bytes.
fn put_line(pos: usize, l: &[u8], out: &mut [u8])
    requires { (length l.now ≤ 16) × (57 + length l.now ≤ length out.old) }
    ensures { out.new ≡ written (line pos l.now) out.old }
{
    put_left(pos, l, out);
    put_right(l, &mut out[55..]);
}

// Line i of the bytes l, behind the full lines before it.
fn put_nth(i: usize, pos: usize, l: &[u8], out: &mut [u8])
    requires { (16 * i < length l.now) × (pos + length l.now ≤ 1048576) × (57 * (i + 1) + min (16 * (i + 1)) (length l.now) ≤ length out.old) }
    ensures { out.new ≡ placed (73 * i) (line (pos + 16 * i) (take 16 (drop (16 * i) l.now))) out.old }
{
    let from = 16 * i;
    let to = (from + 16).min(l.len());
    let at = 73 * i;
    put_line(pos + from, &l[from..to], &mut out[at..]);
}

// The lines of the bytes l, the first of which stands at the place pos of the buffer.
fn put_lines(pos: usize, l: &[u8], out: &mut [u8])
    requires { (pos + length l.now ≤ 1048576) × (57 * ((length l.now + 15) / 16) + length l.now ≤ length out.old) }
    ensures { out.new ≡ written (lines ((length l.now + 15) / 16) pos l.now) out.old }
{
    let count = (l.len() + 15) / 16;
    for i in 0..count {
        put_nth(i, pos, l, out);
    }
}

// How long the dump of n bytes is.
pub(crate) fn size(n: usize) -> usize
    requires { n ≤ 1048576 }
    ensures { result ≡ digits_of n + 14 + 57 * ((n + 15) / 16) + n }
{
    digits(n) + 14 + 57 * ((n + 15) / 16) + n
}

// The dump of the bytes l, the first of which stands at the place pos of the buffer. (pos and l go apart here and above: a struct of both would be
// taken apart in each of the five.)
pub(crate) fn put_dump(pos: usize, l: &[u8], out: &mut [u8])
    requires { (pos + length l.now ≤ 1048576) × (digits_of (length l.now) + 14 + 57 * ((length l.now + 15) / 16) + length l.now ≤ length out.old) }
    ensures { out.new ≡ written (dump_bytes pos l.now) out.old }
{
    let n = l.len();
    let k = digits(n);
    put_number(10, k, n, out);
    copy(b" byte packet:\n", &mut out[k..]);
    let at = k + 14;
    put_lines(pos, l, &mut out[at..]);
}
