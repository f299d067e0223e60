// Numbers and addresses as a program's words: what they stand for, or that they are wrong.
#![tactic(auto)]

ghost use Rattle.std.specs.Prelude.{◌≡◌, ◌+◌, ◌*◌, ◌≤◌, length};
ghost use Rattle.words.specs.Words.{is_plain, number_in, before, behind, parts_in, address_in};
ghost use Rattle.words.specs.Steps.{digits_in, place_of};

use ezpkt::{SocketAddrV4, part};

// The bytes of the longest good word, 255.255.255.255:65535.
pub const LONGEST: usize = 21;

// Digits, up to a number. (No parse, here and below: it takes +5 and 05, which are wrong here.)
fn digits(w: &[u8], most: u16) -> Option<u16>
    ensures { result ≡ digits_in most 0 w.now }
{
    let mut value: u32 = 0;
    for c in w {
        if !c.is_ascii_digit() {
            return None;
        }
        value = 10 * value + u32::from(*c - b'0');
        if value > u32::from(most) {
            return None;
        }
    }
    Some(value as u16)
}

// Whether there is a byte, and no 0 before another.
fn is_plain(w: &[u8]) -> bool
    ensures { result ≡ is_plain w.now }
{
    let n = w.len();
    if n < 2 {
        return n == 1;
    }
    w[0] != b'0'
}

// A number from least to most, in decimal. It has no 0 before another digit: other programs read 010 as the octal number 8, and a number has one
// text so, of at most five digits.
pub fn read_number(w: &[u8], least: u16, most: u16) -> Option<u16>
    ensures { result ≡ number_in least most w.now }
{
    if !is_plain(w) {
        return None;
    }
    let n = digits(w, most)?;
    if n < least {
        return None;
    }
    Some(n)
}

// Where the first s is, or the length where there is none.
fn find(w: &[u8], s: u8) -> usize
    ensures place { result ≡ place_of s w.now }
    ensures within { result ≤ length w.now }
{
    w.iter().position(|c| *c == s).unwrap_or(w.len())
}

fn text_before(w: &[u8], s: u8) -> &[u8]
    ensures { result.now ≡ before s w.now }
{
    part::front(w, find(w, s))
}

fn text_behind(w: &[u8], s: u8) -> &[u8]
    ensures { result.now ≡ behind s w.now }
{
    part::back(w, find(w, s) + 1)
}

fn ip_of(a: u16, b: u16, c: u16, d: u16) -> u32
    requires { (a ≤ 255) × (b ≤ 255) × (c ≤ 255) × (d ≤ 255) }
    ensures { result ≡ ((a * 256 + b) * 256 + c) * 256 + d }
{
    u32::from_be_bytes([a as u8, b as u8, c as u8, d as u8])
}

// An address of these parts.
fn read_parts(a: &[u8], b: &[u8], c: &[u8], d: &[u8], port: &[u8]) -> Option<SocketAddrV4>
    ensures { result ≡ parts_in a.now b.now c.now d.now port.now }
{
    let a = read_number(a, 0, 255)?;
    let b = read_number(b, 0, 255)?;
    let c = read_number(c, 0, 255)?;
    let d = read_number(d, 0, 255)?;
    let port = read_number(port, 0, 65535)?;
    let ip = ip_of(a, b, c, d);
    Some(SocketAddrV4 { ip, port })
}

// An address and a port, as 10.0.0.1:5000.
pub fn read_address(w: &[u8]) -> Option<SocketAddrV4>
    ensures { result ≡ address_in w.now }
{
    let w2 = text_behind(w, b'.');
    let w3 = text_behind(w2, b'.');
    let w4 = text_behind(w3, b'.');
    read_parts(
        text_before(w, b'.'),
        text_before(w2, b'.'),
        text_before(w3, b'.'),
        text_before(w4, b':'),
        text_behind(w4, b':'),
    )
}
