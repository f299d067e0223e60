// The piece that a packet carries, or the number that refuses it.
ghost use Rattle.std.specs.Prelude.{◌≡◌, ℕ, ◌+◌, ltb};
ghost use Rattle.pkt.specs.Answers.{says};
ghost use Rattle.assembly.specs.Answers.{fit_says, refusal_of};
ghost use Rattle.assembly.specs.Carried.{key_of, same_key, broken, fit_answer, keyed_answer, head_answer};

use crate::Key;
use inspect::header;
use inspect::header::IpRead;
use pkt::refusal::Refusal;

// Why a piece has no place in a payload: more pieces follow it and it has no whole number of blocks, or it ends above.
#[derive(Clone, Copy, PartialEq, Eq, Drop)]
pub enum Misfit {
    NotBlocks,
    TooFar,
}

impl From<Misfit> for Refusal {
    ghost from_gives = { λ misfit e. e ≡ refusal_of misfit };

    fn from(misfit: Misfit) -> Refusal {
        match misfit {
            Misfit::NotBlocks => Refusal::NotBlocks,
            Misfit::TooFar => Refusal::TooFar,
        }
    }
}

// The key that a packet with this header has. No From<IpRead>: it is public, with a promise and a row of its own.
pub fn key_of(h: IpRead) -> Key
    ensures { result ≡ key_of h }
{
    Key {
        saddr: h.saddr,
        daddr: h.daddr,
        id: h.id,
        protocol: h.protocol,
    }
}

pub fn same_key(a: Key, b: Key) -> bool
    ensures { result ≡ same_key a b }
{
    a == b
}

// Whether more pieces follow n bytes that are no whole number of blocks.
fn is_broken(mf: bool, n: usize) -> bool
    ensures { result ≡ broken mf n }
{
    mf && n % 8 != 0
}

// Whether n bytes from `start` on end above `cap`.
fn ends_above(cap: usize, start: usize, n: usize) -> bool
    ensures { result ≡ ltb cap (start + n) }
{
    if cap < n {
        return true;
    }
    cap - n < start
}

// Whether a piece of n bytes with this header has a place in a payload of `cap` bytes.
pub fn fit(cap: usize, n: usize, h: IpRead) -> Result<IpRead, Misfit>
    ensures { (far : ℕ) → fit_says far result ≡ fit_answer cap far n h }
{
    if is_broken(h.mf, n) {
        return Err(Misfit::NotBlocks);
    }
    if ends_above(cap, 8 * h.off as usize, n) {
        return Err(Misfit::TooFar);
    }
    Ok(h)
}

// The header, if its key is the assembly's.
fn keyed(key: Key, h: IpRead) -> Result<IpRead, Refusal>
    ensures { says result ≡ keyed_answer key h }
{
    if same_key(key_of(h), key) {
        return Ok(h);
    }
    Err(Refusal::WrongKey)
}

// The header of a packet that has the assembly's key.
#[tactic(auto, unfolding(crate::specs::Carried::head_answer))]
pub(crate) fn read(key: Key, packet: &[u8]) -> Result<IpRead, Refusal>
    ensures { says result ≡ head_answer key packet.now }
{
    let h = header::read(packet)?;
    keyed(key, h)
}
