// A list of requests as text, read a byte at a time: each line is an offset, a space and a length, and what follows a second space is passed over.
ghost use Rattle.std.specs.Prelude.{◌≡◌};
ghost use Rattle.plan.specs.Lines.{short, in_off, in_len, in_rest, place_after, read_none, line_read, byte_read, read_in};

use crate::words;
use pieces::BlockRequest;
use planner::Look;

// The most lines of a list.
pub const MOST_LINES: usize = 8190;

// Where a line stands, with the numbers that were read of it. Whole: it has just ended. Two numbers, and no
// BlockRequest, until the line is whole: what is read of a length is not yet one, and the promises say them apart.
#[derive(Clone, Copy, Drop)]
pub enum Place {
    Start,
    Off(u16),
    Gap(u16),
    Len(u16, u16),
    Rest(u16, u16),
    Whole(u16, u16),
}

// What is known of the requests on so many whole lines, and where the line behind them stands.
#[derive(Clone, Copy, Drop)]
pub struct Reading {
    pub look: Look,
    pub lines: usize,
    pub place: Place,
}

// Why a list cannot be read on: the line behind so many is no request, or it is one too many.
#[derive(Clone, Copy, Drop)]
pub enum Fault {
    Bad(usize),
    Many,
}

// A number of 16 bits.
fn short(number: Option<u64>) -> Option<u16>
    ensures { result ≡ short number }
{
    u16::try_from(number?).ok()
}

fn in_off(off: u16, c: u8) -> Option<Place>
    ensures { result ≡ in_off off c }
{
    if c == b' ' {
        return Some(Place::Gap(off));
    }
    let off = short(words::more_digit(off as u64, c))?;
    Some(Place::Off(off))
}

fn in_len(off: u16, len: u16, c: u8) -> Option<Place>
    ensures { result ≡ in_len off len c }
{
    if c == b' ' {
        return Some(Place::Rest(off, len));
    }
    if c == b'\n' {
        return Some(Place::Whole(off, len));
    }
    let len = short(words::more_digit(len as u64, c))?;
    Some(Place::Len(off, len))
}

fn in_rest(off: u16, len: u16, c: u8) -> Place
    ensures { result ≡ in_rest off len c }
{
    if c == b'\n' {
        return Place::Whole(off, len);
    }
    Place::Rest(off, len)
}

// One byte more of a line; nothing where the line is no request.
fn place_after(place: Place, c: u8) -> Option<Place>
    ensures { result ≡ place_after place c }
{
    match place {
        Place::Start => Some(Place::Off(short(words::first_digit(c))?)),
        Place::Off(off) => in_off(off, c),
        Place::Gap(off) => Some(Place::Len(off, short(words::first_digit(c))?)),
        Place::Len(off, len) => in_len(off, len, c),
        Place::Rest(off, len) => Some(in_rest(off, len, c)),
        Place::Whole(_, _) => Some(Place::Off(short(words::first_digit(c))?)),
    }
}

// Before the first byte of a list for n bytes and a link of m.
pub fn read_none(n: usize, m: usize) -> Reading
    ensures { result ≡ read_none n m }
{
    Reading {
        look: planner::look_none(n, m),
        lines: 0,
        place: Place::Start,
    }
}

// One whole line more.
fn read_line(reading: Reading, off: u16, len: u16) -> Result<Reading, Fault>
    ensures { result ≡ line_read reading off len }
{
    let look = reading.look;
    let lines = reading.lines;
    if lines >= MOST_LINES {
        return Err(Fault::Many);
    }
    Ok(Reading {
        look: planner::look_at(look, BlockRequest { off, len }),
        lines: lines + 1,
        place: Place::Whole(off, len),
    })
}

// One byte more.
fn read_byte(reading: Reading, c: u8) -> Result<Reading, Fault>
    ensures { result ≡ byte_read reading c }
{
    let lines = reading.lines;
    let place = place_after(reading.place, c).ok_or(Fault::Bad(lines))?;
    match place {
        Place::Whole(off, len) => read_line(reading, off, len),
        _ => Ok(Reading { place, ..reading }),
    }
}

// All of these bytes more.
pub fn read_on(reading: Reading, text: &[u8]) -> Result<Reading, Fault>
    ensures { result ≡ read_in reading text.now }
{
    let mut reading = reading;
    for c in text {
        reading = read_byte(reading, *c)?;
    }
    Ok(reading)
}
