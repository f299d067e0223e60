// The fields of a case. A byte that is not there reads as 0.
ghost use Rattle.std.specs.Prelude.{◌≤◌};

use ezpkt::part::back;

pub(crate) fn byte(b: &[u8], i: usize) -> u8 {
    b.get(i).copied().unwrap_or(0)
}

// The number of two bytes at place i.
pub(crate) fn two(b: &[u8], i: usize) -> u16 {
    let r = back(b, i);
    u16::from_be_bytes([byte(r, 0), byte(r, 1)])
}

// The number of four bytes at place i.
pub(crate) fn four(b: &[u8], i: usize) -> u32 {
    let r = back(b, i);
    u32::from_be_bytes([byte(r, 0), byte(r, 1), byte(r, 2), byte(r, 3)])
}

// The number of four bytes at place i, as a size.
pub(crate) fn size(b: &[u8], i: usize) -> usize
    ensures { result ≤ 4294967295 }
{
    four(b, i) as usize
}
