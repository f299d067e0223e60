// The blocks of a pcapng file, little-endian.
ghost use Rattle.std.specs.Prelude.{◌≡◌, ◌++◌, ◌+◌, ◌≤◌, length};
ghost use Rattle.pkt.specs.Answers.{most_bytes, list_says};
ghost use Rattle.pkt.specs.Written.{written};
ghost use Rattle.exporting.specs.Pcapng.{padding, section_block, interface_block, packet_block};
ghost use Rattle.exporting.specs.Steps.{block_size, packet_head, packet_tail, record_with, step_block, StepAsks};

use pkt::copying::copy;
use pkt::refusal::ListRefusal;
use reading::Spot;

// The bytes of the two blocks before the packets.
pub(crate) const HEAD: usize = 48;

// The section header block, and behind it the interface description block.
#[tactic(auto, unfolding(crate::specs::Pcapng::section_block, crate::specs::Pcapng::interface_block, crate::specs::Pcapng::block))]
fn head() -> [u8; 48]
    ensures { result ≡ section_block ++ interface_block }
{
    [
        0x0a, // a section header block
        0x0d, 0x0d, 0x0a, 28, // its size
        0, 0, 0, 0x4d, // the byte-order magic
        0x3c, 0x2b, 0x1a, 1, // version 1.0
        0, 0, 0, 0xff, // the section length, unknown
        0xff, 0xff, 0xff, 0xff, 0xff, 0xff, 0xff, 28, // its size again
        0, 0, 0, 1, // an interface description block
        0, 0, 0, 20, // its size
        0, 0, 0, 101, // the link type
        0, 0, 0, 0xff, // the snap length
        0xff, 0, 0, 20, // its size again
        0, 0, 0,
    ]
}

// .. at the start of out.
#[tactic(auto, using(pkt::proofs::Written::copy_written))]
pub(crate) fn put_head(out: &mut [u8])
    requires { 48 ≤ length out.old }
    ensures { out.new ≡ written (section_block ++ interface_block) out.old }
{
    let h = head();
    copy(&h, out);
}

// The zeros behind n bytes, up to a multiple of four.
#[tactic(auto, unfolding(crate::specs::Pcapng::padding))]
fn zeros(n: usize) -> usize
    ensures { result ≡ padding n }
{
    (4 - n % 4) % 4
}

// The bytes of a block with a packet of n bytes. (The bound is asked here and below, and is no invariant of Spot, whose fields are public.)
#[tactic(auto, unfolding(crate::specs::Pcapng::padding, crate::specs::Steps::block_size))]
pub(crate) fn size(n: usize) -> usize
    requires { n ≤ most_bytes }
    ensures { result ≡ block_size n }
{
    32 + n + zeros(n)
}

// A block's bytes before the packet: its type, its size, the interface, the time in two words, the high one first, and both lengths.
fn packet_head(sec: u32, usec: u32, n: u32, original: u32, size: u32) -> [u8; 28]
    ensures { result ≡ packet_head sec usec n original size }
{
    let micros = sec as u64 * 1000000 + usec as u64;
    let high = (micros / 4294967296) as u32;
    let low = (micros % 4294967296) as u32;
    let [s0, s1, s2, s3] = size.to_le_bytes();
    let [h0, h1, h2, h3] = high.to_le_bytes();
    let [l0, l1, l2, l3] = low.to_le_bytes();
    let [n0, n1, n2, n3] = n.to_le_bytes();
    let [o0, o1, o2, o3] = original.to_le_bytes();
    [
        6, // an enhanced packet block
        0, 0, 0, s0, s1, s2, s3, 0, 0, 0, 0, h0, h1, h2, h3, l0, l1, l2, l3, n0, n1, n2, n3, o0,
        o1, o2, o3,
    ]
}

// Three zeros, and a block's size again.
#[tactic(auto, using(crate::proofs::Laying::tail_bytes))]
fn packet_tail(size: u32) -> [u8; 7]
    ensures { result ≡ packet_tail size }
{
    let [s0, s1, s2, s3] = size.to_le_bytes();
    [0, 0, 0, s0, s1, s2, s3]
}

// The block of a packet at the start of out, and how many bytes it has.
#[tactic(auto, unfolding(crate::specs::Steps::block_size, crate::specs::Pcapng::padding))]
fn put(sec: u32, usec: u32, original: u32, packet: &[u8], out: &mut [u8]) -> usize
    requires { (length packet.now ≤ most_bytes) × (block_size (length packet.now) ≤ length out.old) }
    ensures { (result ≡ block_size (length packet.now))
        × (out.new ≡ written (packet_block (record_with sec usec original packet.now)) out.old) }
{
    let n = packet.len();
    let size = size(n);
    let head = packet_head(sec, usec, n as u32, original, size as u32);
    let tail = packet_tail(size as u32);
    copy(&head, out);
    copy(packet, &mut out[28..]);
    copy(&tail[3 - zeros(n)..], &mut out[28 + n..]);
    size
}

// The block of the record that a step found, and how many bytes it has.
#[tactic(auto, unfolding(pkt::specs::Written::written))]
pub(crate) fn put_step(
    capture: &[u8],
    step: Result<Option<Spot>, ListRefusal>,
    out: &mut [u8],
) -> usize
    requires { StepAsks capture.now (list_says step) (length out.old) }
    ensures { (result ≡ length (step_block capture.now (list_says step)))
        × (out.new ≡ written (step_block capture.now (list_says step)) out.old) }
{
    match step {
        Ok(Some(spot)) => {
            let start = spot.start;
            let end = start + spot.len;
            put(
                spot.sec,
                spot.usec,
                spot.original,
                &capture[start..end],
                out,
            )
        }
        _ => 0,
    }
}
