// The program's words: what they stand for, or that they are wrong.
ghost use Rattle.std.specs.Prelude.{◌≡◌, Some};
ghost use Rattle.lapfeed.specs.Words.{words_in, marked_in, asked_for};

use ezpkt::Marks;
use feed::Feed;

// What the words ask for: a feed before its first frame, and the bytes of a frame.
#[derive(Clone, Copy, Drop)]
pub struct Setup {
    pub feed: Feed,
    pub size: usize,
}

// The first four words.
fn read_words(car: &[u8], core: &[u8], link: &[u8], size: &[u8]) -> Option<Setup>
    ensures { result ≡ words_in car.now core.now link.now size.now }
{
    let from = words::read_address(car)?;
    let to = words::read_address(core)?;
    let link = words::read_number(link, 28, 65535)?;
    let size = words::read_number(size, 1, 65507)?;
    let feed = feed::new(from, to, link as u32);
    Some(Setup {
        feed,
        size: size as usize,
    })
}

// What the first four ask for, with the marks that two more words are.
fn read_marks(setup: Setup, tos: &[u8], ttl: &[u8]) -> Option<Setup>
    ensures { result ≡ marked_in (Some setup) tos.now ttl.now }
{
    let tos = words::read_number(tos, 0, 255)?;
    let ttl = words::read_number(ttl, 0, 255)?;
    let marks = Marks {
        tos: tos as u8,
        ttl: ttl as u8,
    };
    let unmarked = setup.feed;
    Some(Setup {
        feed: feed::marked(unmarked, marks),
        size: setup.size,
    })
}

// All words, of which there are so many with the program's name: the first four, or these and both marks.
pub fn read_all(
    count: usize,
    car: &[u8],
    core: &[u8],
    link: &[u8],
    size: &[u8],
    tos: &[u8],
    ttl: &[u8],
) -> Option<Setup>
    ensures { result ≡ asked_for count car.now core.now link.now size.now tos.now ttl.now }
{
    let four = read_words(car, core, link, size);
    if count == 5 {
        return four;
    }
    if count == 7 {
        return read_marks(four?, tos, ttl);
    }
    None
}
