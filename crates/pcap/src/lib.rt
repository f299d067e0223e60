// Captures by the published classic pcap layout: little-endian, version 2.4, snap length 65,535, link type 101, microseconds.
#![tactic(auto)]

ghost use Rattle.std.specs.Prelude.{◌≡◌, ◌+◌, ◌≤◌, length};
ghost use Rattle.pcap.specs.Pcap.{file_header, record_header, record_bytes};
ghost use Rattle.pkt.specs.Answers.{most_bytes, says};
ghost use Rattle.pkt.specs.Written.{written};
ghost use Rattle.pcap.specs.Answers.{record_answer, HeaderWritten, RecordWritten};

use pkt::copying::copy;
use pkt::limit;
use pkt::refusal::Refusal;

// The file header: magic number, version 2.4, two reserved words, snap length, link type.
#[tactic(auto, unfolding(crate::specs::Pcap::file_header))]
pub fn header() -> [u8; 24]
    ensures { result ≡ file_header }
{
    [
        0xd4, 0xc3, 0xb2, 0xa1, 2, 0, 4, 0, 0, 0, 0, 0, 0, 0, 0, 0, 0xff, 0xff, 0, 0, 101, 0, 0, 0,
    ]
}

// The file header at the start of out.
pub fn write_header(out: &mut [u8]) -> Result<usize, Refusal>
    ensures { HeaderWritten out.old result out.new }
{
    if out.len() < 24 {
        return Err(Refusal::NoRoom);
    }
    let h = header();
    copy(&h, out);
    Ok(24)
}

// The header of a record, of a packet of n bytes that is captured whole. (sec and usec go apart: the public calls and those of C take them so.)
#[tactic(auto, using(crate::proofs::Pcap::header_is))]
pub fn record_header(sec: u32, usec: u32, n: u32) -> [u8; 16]
    ensures { result ≡ record_header sec usec n }
{
    let [s0, s1, s2, s3] = sec.to_le_bytes();
    let [u0, u1, u2, u3] = usec.to_le_bytes();
    let [n0, n1, n2, n3] = n.to_le_bytes();
    [
        s0, s1, s2, s3, u0, u1, u2, u3, n0, n1, n2, n3, n0, n1, n2, n3,
    ]
}

// What write_record answers for a packet of n bytes and an output of room bytes, with nothing written.
pub fn record_answer(n: usize, usec: u32, room: usize) -> Result<usize, Refusal>
    ensures { says result ≡ record_answer n usec room }
{
    if n > limit::BYTES {
        return Err(Refusal::TooLong);
    }
    if usec > 999999 {
        return Err(Refusal::BadTime);
    }
    if room < 16 + n {
        return Err(Refusal::NoRoom);
    }
    Ok(16 + n)
}

// A record of packet at the start of out, which has room for it.
fn put_record(sec: u32, usec: u32, packet: &[u8], out: &mut [u8])
    requires { (length packet.now ≤ most_bytes) × (16 + length packet.now ≤ length out.old) }
    ensures { out.new ≡ written (record_bytes sec usec packet.now) out.old }
{
    let h = record_header(sec, usec, packet.len() as u32);
    copy(&h, out);
    copy(packet, &mut out[16..]);
}

// A record of packet, taken at sec and usec, at the start of out.
pub fn write_record(sec: u32, usec: u32, packet: &[u8], out: &mut [u8]) -> Result<usize, Refusal>
    ensures { RecordWritten sec usec packet.now out.old result out.new }
{
    let size = record_answer(packet.len(), usec, out.len())?;
    put_record(sec, usec, packet, out);
    Ok(size)
}
