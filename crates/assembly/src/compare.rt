// The data of a piece against what is held, block by block.
ghost use Rattle.std.specs.Prelude.{◌≡◌, ◌+◌, ◌*◌, ◌≤◌, ◌<◌, length, take, drop};
ghost use Rattle.assembly.specs.Assembly.{byte_clash};
ghost use Rattle.assembly.specs.Search.{onward, unlike};

use crate::map;

// Whether one of the (up to) eight bytes of body from place `from` differs from the byte at its place.
fn block_differs(payload: &[u8], at: usize, body: &[u8], from: usize) -> bool
    requires from_in_bounds { from < length body.now }
    requires body_in_bounds { at + length body.now ≤ length payload.now }
    ensures { result ≡ unlike payload.now (at + from) (take 8 (drop from body.now)) }
{
    let to = (from + 8).min(body.len());
    for j in from..to {
        if payload[at + j] != body[j] {
            return true;
        }
    }
    false
}

// How many bytes of the body the search goes on from block k: to the next byte of the map where this one is 0, else a block.
fn stride(map: &[u8], k: usize) -> usize
    requires { k < 8 * length map.now }
    ensures { result ≡ onward map.now k }
{
    let b = k / 8;
    if map[b] == 0 {
        return 8 * (8 - k % 8);
    }
    8
}

// Whether body, at block off, differs from what is held in a marked block. A block that is not marked is passed over whole,
// and so are the blocks of a byte of the map in which none is marked. A `while`, since no range has steps of different lengths.
pub(crate) fn differs(payload: &[u8], map: &[u8], off: usize, body: &[u8]) -> bool
    requires body_in_bounds { 8 * off + length body.now ≤ length payload.now }
    requires payload_len_bound { length payload.now ≤ 64 * length map.now }
    ensures { result ≡ byte_clash payload.now map.now (8 * off) body.now }
{
    let mut i: usize = 0;
    while i < body.len() {
        let k = off + i / 8;
        if map::is_marked(map, k) {
            if block_differs(payload, 8 * off, body, i) {
                return true;
            }
        }
        i += stride(map, k);
    }
    false
}
