// A refused frame for each bound, one step beyond it, and for each two neighbours in the order of refusals.
ghost use Rattle.std.specs.Prelude.{◌≤◌};

use feed::Feed;

// The number that a frame is refused with, or 0, with so many bytes of scratch and of output. Numbers, and 0 for none,
// since these nine are the last frame's bytes.
fn refused<const S: usize, const O: usize>(feed: Feed, bytes: &[u8], usec: u32) -> u8
    requires scratch { S ≤ 65535 }
    requires output { O ≤ 65551 }
{
    let mut scratch = [0u8; S];
    let mut out = [0u8; O];
    match feed::frame(feed, bytes, 7, usec, &mut scratch, &mut out) {
        Ok(_) => 0,
        Err(refusal) => refusal.number(),
    }
}

// .. over another link, with room for any frame over a link of 65,535.
fn over(feed: Feed, link: u32, bytes: &[u8], usec: u32) -> u8 {
    refused::<65535, 65551>(Feed { link, ..feed }, bytes, usec)
}

// All of them: `long` has 65,508 bytes, and `bytes` has 12, which the feed's link takes in one piece: they take 40
// bytes of scratch and 56 of output.
#[inline(never)]
pub(crate) fn each(feed: Feed, long: &[u8], bytes: &[u8]) -> [u8; 9] {
    [
        over(feed, 65535, long, 0),
        over(feed, 27, bytes, 0),
        over(feed, 65536, bytes, 0),
        over(feed, 1500, bytes, 1000000),
        refused::<39, 56>(feed, bytes, 0),
        refused::<40, 55>(feed, bytes, 0),
        over(feed, 27, long, 0),
        over(feed, 27, bytes, 1000000),
        refused::<39, 56>(feed, bytes, 1000000),
    ]
}
