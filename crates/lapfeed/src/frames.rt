// One frame: its time, and its records.
ghost use Rattle.std.specs.Prelude.{◌≡◌, ◌<◌, ◌≤◌, length};
ghost use Rattle.pcap.specs.Answers.{most_micros};
ghost use Rattle.lapfeed.specs.Frames.{second_of, micro_of, most_frames, Ready, Put};

use feed::{Feed, Written};

// As many frames as have a second of 32 bits: 240 for each.
pub const MOST_FRAMES: u64 = 1030792151040;
// The bytes of the records of 65,507 bytes of telemetry on a link of 28 bytes: 8,190 pieces with 36 before each, and the datagram.
pub const MOST_RECORDS: usize = 360355;

// The second of frame i: there are 240 frames in each, from second 0 on.
fn second(i: u64) -> u32
    requires { i < most_frames }
    ensures { result ≡ second_of i }
{
    (i / 240) as u32
}

// The microsecond of frame i, rounded down.
fn micro(i: u64) -> u32
    ensures { (result ≡ micro_of i) × (result ≤ most_micros) }
{
    (i % 240 * 1000000 / 240) as u32
}

// The records of frame i at the start of out.
pub(crate) fn put(feed: Feed, i: u64, bytes: &[u8], scratch: &mut [u8], out: &mut [u8]) -> Written
    requires { Ready feed i (length bytes.now) (length scratch.old) (length out.old) }
    ensures { Put feed i bytes.now out.old result out.new }
{
    let nothing = Written {
        feed,
        bytes: 0,
        pieces: 0,
    };
    feed::frame(feed, bytes, second(i), micro(i), scratch, out).unwrap_or(nothing)
}
