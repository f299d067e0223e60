// Packets with headroom: a record by value over a buffer that the caller lends.
#![tactic(auto)]

mod dump;
mod put;

ghost use Rattle.std.specs.Prelude.{◌≡◌, ◌+◌, ◌≤◌, true, length, eqb};
ghost use Rattle.pkt.specs.Answers.{gives, says};
ghost use Rattle.packet.specs.Headroom.{valid, len_of, within, leads, bytes_at, whole_of};
ghost use Rattle.packet.specs.Dump.{dump_of};
ghost use Rattle.packet.specs.Answers.{if_valid, bit_time_of, push_answer, lower_answer, return_answer, MadeNew, Appended, Prepended, CopiedOut, WholeCopied, PartCopied, Dumped};
ghost use Rattle.pkt.specs.Written.{zeros};

use crate::put::{fill, place, place_zeros};
use pkt::copying::copy;
use pkt::refusal::Refusal;

// No packet ends behind this place.
const MOST_END: usize = 1048576;

// A packet: the bytes of the buffer from the headroom up to, not including, the end. A lent buffer and places in it, as the scope paper has it, and no
// Vec or slice: it crosses to C.
#[repr(C)]
#[derive(Clone, Copy, Drop)]
pub struct Packet {
    pub headroom: usize,
    pub end: usize,
}

// A part of the buffer: where it starts, and how long it is.
#[derive(Clone, Copy, Drop)]
pub struct PktSlice {
    pub off: usize,
    pub len: usize,
}

// A record after a part was added, and that part.
#[derive(Clone, Copy, Drop)]
pub struct Grown {
    pub whole: Packet,
    pub added: PktSlice,
}

// Whether the record stands in a buffer of n bytes.
#[tactic(auto, unfolding(crate::specs::Headroom::valid))]
fn is_valid(p: Packet, n: usize) -> bool
    ensures { result ≡ valid p n }
{
    if p.headroom > p.end {
        return false;
    }
    if p.end > n {
        return false;
    }
    p.end <= MOST_END
}

// Whether a part is within the packet.
#[tactic(auto, unfolding(crate::specs::Headroom::within))]
fn is_within(p: Packet, s: PktSlice) -> bool
    ensures { result ≡ within p s }
{
    if s.off < p.headroom {
        return false;
    }
    if s.off > p.end {
        return false;
    }
    s.len <= p.end - s.off
}

// Whether a part starts where the packet does, and is no longer.
#[tactic(auto, unfolding(crate::specs::Headroom::leads))]
fn does_lead(p: Packet, s: PktSlice) -> bool
    requires { p.headroom ≤ p.end }
    ensures { result ≡ leads p s }
{
    if s.off != p.headroom {
        return false;
    }
    s.len <= p.end - p.headroom
}

// The whole packet as a part: it starts behind the headroom.
fn whole_of(p: Packet) -> PktSlice
    requires { p.headroom ≤ p.end }
    ensures { result ≡ whole_of p }
{
    PktSlice {
        off: p.headroom,
        len: p.end - p.headroom,
    }
}

// What appending k bytes in a buffer of n bytes is answered, with nothing written.
#[tactic(auto, using(crate::proofs::Headroom::valid_true))]
fn push_answer(p: Packet, k: usize, n: usize) -> Result<Grown, Refusal>
    ensures { says result ≡ push_answer p k n }
{
    if !is_valid(p, n) {
        return Err(Refusal::BadPart);
    }
    if k > MOST_END - p.end {
        return Err(Refusal::BadPart);
    }
    let end = p.end + k;
    if n < end {
        return Err(Refusal::NoRoom);
    }
    let whole = Packet {
        headroom: p.headroom,
        end,
    };
    let added = PktSlice { off: p.end, len: k };
    Ok(Grown { whole, added })
}

// What prepending k bytes is answered, with nothing written.
#[tactic(auto, using(crate::proofs::Headroom::valid_true))]
fn lower_answer(p: Packet, k: usize, n: usize) -> Result<Grown, Refusal>
    ensures { says result ≡ lower_answer p k n }
{
    if !is_valid(p, n) {
        return Err(Refusal::BadPart);
    }
    if k > p.headroom {
        return Err(Refusal::BadPart);
    }
    let headroom = p.headroom - k;
    let whole = Packet {
        headroom,
        end: p.end,
    };
    let added = PktSlice {
        off: headroom,
        len: k,
    };
    Ok(Grown { whole, added })
}

impl Packet {
    // A packet of no byte behind a headroom whose bytes are zero.
    pub fn new(headroom: usize, buf: &mut [u8]) -> Result<Packet, Refusal>
        ensures { MadeNew headroom buf.old result buf.new }
    {
        if headroom > MOST_END {
            return Err(Refusal::BadPart);
        }
        if buf.len() < headroom {
            return Err(Refusal::NoRoom);
        }
        fill(buf, headroom, 0);
        Ok(Packet {
            headroom,
            end: headroom,
        })
    }

    // How many bytes stand before the packet. (This call and those below that need the packet's places ask is_valid themselves: their proofs have the
    // bounds from the test.)
    pub fn headroom(self, buf: &[u8]) -> Result<usize, Refusal>
        ensures { says result ≡ if_valid self (length buf.now) (gives self.headroom) }
    {
        if is_valid(self, buf.len()) {
            Ok(self.headroom)
        } else {
            Err(Refusal::BadPart)
        }
    }

    // How many bytes the packet has.
    #[tactic(auto, using(crate::proofs::Headroom::valid_true))]
    pub fn len(self, buf: &[u8]) -> Result<usize, Refusal>
        ensures { says result ≡ if_valid self (length buf.now) (gives (len_of self)) }
    {
        if is_valid(self, buf.len()) {
            Ok(self.end - self.headroom)
        } else {
            Err(Refusal::BadPart)
        }
    }

    // Whether the packet has no byte.
    #[tactic(auto, using(crate::proofs::Headroom::valid_true))]
    pub fn is_empty(self, buf: &[u8]) -> Result<bool, Refusal>
        ensures { says result ≡ if_valid self (length buf.now) (gives (eqb (len_of self) 0)) }
    {
        Ok(self.len(buf)? == 0)
    }

    // How many bits the packet takes on the wire, 24 bytes around it counted in.
    #[tactic(auto, using(crate::proofs::Headroom::valid_true))]
    pub fn bit_time(self, buf: &[u8]) -> Result<usize, Refusal>
        ensures { says result ≡ if_valid self (length buf.now) (gives (bit_time_of self)) }
    {
        Ok((self.len(buf)? + 24) * 8)
    }

    // The whole packet as a part.
    #[tactic(auto, using(crate::proofs::Headroom::valid_true))]
    pub fn as_slice(self, buf: &[u8]) -> Result<PktSlice, Refusal>
        ensures { says result ≡ if_valid self (length buf.now) (gives (whole_of self)) }
    {
        if is_valid(self, buf.len()) {
            Ok(whole_of(self))
        } else {
            Err(Refusal::BadPart)
        }
    }

    // len zero bytes appended.
    #[tactic(auto, using(crate::proofs::Headroom::valid_true))]
    pub fn push_slice(self, len: usize, buf: &mut [u8]) -> Result<Grown, Refusal>
        ensures { Appended self len (zeros len) buf.old result buf.new }
    {
        let grown = push_answer(self, len, buf.len())?;
        place_zeros(buf, self.end, len);
        Ok(grown)
    }

    // The given bytes appended.
    #[tactic(auto, using(crate::proofs::Headroom::valid_true))]
    pub fn push_bytes(self, bytes: &[u8], buf: &mut [u8]) -> Result<Grown, Refusal>
        ensures { Appended self (length bytes.now) bytes.now buf.old result buf.new }
    {
        let grown = push_answer(self, bytes.len(), buf.len())?;
        place(buf, self.end, bytes);
        Ok(grown)
    }

    // Room for a header of len bytes appended, all zero.
    pub fn push_hdr(self, len: usize, buf: &mut [u8]) -> Result<Grown, Refusal>
        ensures { Appended self len (zeros len) buf.old result buf.new }
    {
        self.push_slice(len, buf)
    }

    // A header's bytes appended.
    pub fn push(self, hdr: &[u8], buf: &mut [u8]) -> Result<Grown, Refusal>
        ensures { Appended self (length hdr.now) hdr.now buf.old result buf.new }
    {
        self.push_bytes(hdr, buf)
    }

    // len bytes of the headroom, as they are, made the packet's first.
    pub fn lower_headroom(self, len: usize, buf: &[u8]) -> Result<Grown, Refusal>
        ensures { says result ≡ lower_answer self len (length buf.now) }
    {
        lower_answer(self, len, buf.len())
    }

    // A header's bytes prepended from the headroom.
    #[tactic(auto, using(crate::proofs::Headroom::valid_true, crate::proofs::Answers::lower_fits))]
    pub fn lower_headroom_for(self, hdr: &[u8], buf: &mut [u8]) -> Result<Grown, Refusal>
        ensures { Prepended self hdr.now buf.old result buf.new }
    {
        let n = hdr.len();
        let grown = lower_answer(self, n, buf.len())?;
        place(buf, self.headroom - n, hdr);
        Ok(grown)
    }

    // The packet's first part made headroom again.
    #[tactic(auto, using(crate::proofs::Headroom::valid_true, crate::proofs::Headroom::leads_true))]
    pub fn return_headroom(self, hdr: PktSlice, buf: &[u8]) -> Result<Packet, Refusal>
        ensures { says result ≡ return_answer self hdr (length buf.now) }
    {
        if !is_valid(self, buf.len()) {
            return Err(Refusal::BadPart);
        }
        if !does_lead(self, hdr) {
            return Err(Refusal::BadPart);
        }
        let p = Packet {
            headroom: self.headroom + hdr.len,
            end: self.end,
        };
        Ok(p)
    }

    // The packet's bytes, and never the headroom's, at the start of out.
    #[tactic(auto, using(crate::proofs::Headroom::valid_true))]
    pub fn to_vec(self, buf: &[u8], out: &mut [u8]) -> Result<usize, Refusal>
        ensures { WholeCopied self buf.now out.old result out.new }
    {
        if !is_valid(self, buf.len()) {
            return Err(Refusal::BadPart);
        }
        copy_part(whole_of(self), buf, out)
    }

    // The bytes of a part of the packet at the start of out.
    #[tactic(auto, using(crate::proofs::Headroom::valid_true, crate::proofs::Headroom::within_true))]
    pub fn to_vec_from(self, ps: PktSlice, buf: &[u8], out: &mut [u8]) -> Result<usize, Refusal>
        ensures { PartCopied self ps buf.now out.old result out.new }
    {
        if !is_valid(self, buf.len()) {
            return Err(Refusal::BadPart);
        }
        if !is_within(self, ps) {
            return Err(Refusal::BadPart);
        }
        copy_part(ps, buf, out)
    }

    // How long the hex dump of the packet is.
    #[tactic(auto, using(crate::proofs::Headroom::valid_true, crate::proofs::HexDump::packet_dump_length))]
    pub fn hex_dump_len(self, buf: &[u8]) -> Result<usize, Refusal>
        ensures { says result ≡ if_valid self (length buf.now) (gives (length (dump_of self buf.now))) }
    {
        Ok(dump::size(self.len(buf)?))
    }

    // The hex dump of the packet at the start of out.
    pub fn hex_dump(self, buf: &[u8], out: &mut [u8]) -> Result<usize, Refusal>
        ensures { Dumped self buf.now out.old result out.new }
    {
        if !is_valid(self, buf.len()) {
            return Err(Refusal::BadPart);
        }
        let from = self.headroom;
        let to = self.end;
        let size = dump::size(to - from);
        if out.len() < size {
            return Err(Refusal::NoRoom);
        }
        dump::put_dump(from, &buf[from..to], out);
        Ok(size)
    }
}

// The bytes of a part of buf at the start of out, where they have room.
#[tactic(auto, using(pkt::proofs::Written::copy_written))]
fn copy_part(s: PktSlice, buf: &[u8], out: &mut [u8]) -> Result<usize, Refusal>
    requires { s.off + s.len ≤ length buf.now }
    ensures { CopiedOut true s.len (bytes_at s buf.now) out.old result out.new }
{
    let from = s.off;
    let to = s.off + s.len;
    if out.len() < s.len {
        return Err(Refusal::NoRoom);
    }
    copy(&buf[from..to], out);
    Ok(s.len)
}
