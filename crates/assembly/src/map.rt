// The map: block k is bit k mod 8 of byte k / 8, lowest bit first.
ghost use Rattle.std.specs.Prelude.{◌≡◌, true, ◌-◌, ◌*◌, ◌%◌, ◌^◌, ◌<◌, ◌≤◌, eqb, length};
ghost use Rattle.assembly.specs.Map.{block_bit, mark, marked};

use crate::buffer;

// The bit of block k within its byte.
fn mask(k: usize) -> u8
    ensures { result ≡ 2 ^ (k % 8) }
{
    1u8 << (k % 8) as u32
}

// Whether block k is marked.
pub(crate) fn is_marked(map: &[u8], k: usize) -> bool
    requires { k < 8 * length map.now }
    ensures { result ≡ eqb (block_bit map.now k) 1 }
{
    let b = k / 8;
    (map[b] >> (k % 8) as u32) % 2 == 1
}

// Marks the blocks from `from` up to, not including, `to`, one by one. Two places here, below and in fill: a Range would say no more than they do.
fn mark_each(map: &mut [u8], from: usize, to: usize)
    requires from_le_to { from ≤ to }
    requires to_bound { to ≤ 8 * length map.old }
    ensures { map.new ≡ mark map.old from (to - from) }
{
    for k in from..to {
        map[k / 8] |= mask(k);
    }
}

// Marks the blocks from `from` up to, not including, `to`: eight that fill a byte of the map as that byte.
pub(crate) fn mark_blocks(map: &mut [u8], from: usize, to: usize)
    requires from_le_to { from ≤ to }
    requires to_bound { to < 2 ^ 63 }
    requires to_bound_2 { to ≤ 8 * length map.old }
    ensures { map.new ≡ mark map.old from (to - from) }
{
    let first = (from + 7) / 8;
    let end = to / 8;
    if end <= first {
        mark_each(map, from, to);
        return;
    }
    mark_each(map, from, 8 * first);
    buffer::fill(map, first, end, 255);
    mark_each(map, 8 * end, to);
}

// Whether the blocks of the first n bytes of the map are marked.
fn bytes_full(map: &[u8], n: usize) -> bool
    requires { n ≤ length map.now }
    ensures { result ≡ marked map.now (8 * n) }
{
    for i in 0..n {
        if map[i] != 255 {
            return false;
        }
    }
    true
}

// Whether the first n blocks are marked, where the first `from` are.
fn rest_marked(map: &[u8], from: usize, n: usize) -> bool
    requires from_le_n { from ≤ n }
    requires n_bound { n ≤ 8 * length map.now }
    requires from_value { marked map.now from ≡ true }
    ensures { result ≡ marked map.now n }
{
    for k in from..n {
        if !is_marked(map, k) {
            return false;
        }
    }
    true
}

// Whether the first n blocks are marked.
pub(crate) fn all_marked(map: &[u8], n: usize) -> bool
    requires { n ≤ 8 * length map.now }
    ensures { result ≡ marked map.now n }
{
    let whole = n / 8;
    if !bytes_full(map, whole) {
        return false;
    }
    rest_marked(map, 8 * whole, n)
}
