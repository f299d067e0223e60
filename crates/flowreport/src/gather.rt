// The packets of a capture, one behind the other.
ghost use Rattle.std.specs.Prelude.{◌+◌, ◌≤◌, ◌≡◌, ◌++◌, length, take, drop, IfOk};
ghost use Rattle.pkt.specs.Written.{written};
ghost use Rattle.flowreport.specs.Gather.{GatherAsks, Gathers};

use pkt::copying::copy;
use pkt::refusal::ListRefusal;

// A packet behind the first n bytes of out. How many bytes there are then.
fn put(packet: &[u8], n: usize, out: &mut [u8]) -> usize
    requires { n + length packet.now ≤ length out.old }
    ensures { (result ≡ n + length packet.now)
        × (out.new ≡ take n out.old ++ written packet.now (drop n out.old)) }
{
    copy(packet, &mut out[n..]);
    n + packet.len()
}

// The packets of a capture at the start of out, and where each ends at the start of ends. How many there are, or the refusal of the first step that
// finds no further record. (A while over steps: records have different lengths, and the reader is no iterator.)
pub(crate) fn gather(
    capture: &[u8],
    out: &mut [u8],
    ends: &mut [usize],
) -> Result<usize, ListRefusal>
    requires { GatherAsks capture.now out.old ends.old }
    ensures gathered { Gathers capture.now result out.new ends.new }
    ensures within { IfOk result (λ k. k ≤ length ends.new) }
{
    let mut at = reading::opening(capture);
    let mut packets = 0;
    let mut n = 0;
    while let Some(spot) = reading::step_at(capture, at, packets)? {
        let start = spot.start;
        at = start + spot.len;
        n = put(&capture[start..at], n, out);
        ends[packets] = n;
        packets += 1;
    }
    Ok(packets)
}
