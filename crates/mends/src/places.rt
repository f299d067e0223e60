// What captures are made of.
use pkt::copying::copy;
use std::alloc::AllocError;

// The UDP datagram 10.0.0.1:1 to 10.0.0.2:2 with the payload eb d4, which sums to 0000; both its checksums are wrong.
pub(crate) fn datagram() -> [u8; 30] {
    *b"\x45\x00\x00\x1e\x00\x00\x00\x00\x40\x11\xde\xad\x0a\x00\x00\x01\x0a\x00\x00\x02\x00\x01\x00\x02\x00\x0a\x12\x34\xeb\xd4"
}

// A record at a place of a capture, where there is room for it.
pub(crate) fn put_record(sec: u32, usec: u32, packet: &[u8], at: usize, capture: &mut [u8]) {
    if let Some(rest) = capture.get_mut(at..) {
        let _ = pcap::write_record(sec, usec, packet, rest);
    }
}

// A capture of one packet.
pub(crate) fn captured(rt: &impl AllocGlobal, packet: &[u8]) -> Result<Vec<u8>, AllocError> {
    let mut c = vec![in rt.alloc(); 0u8; 40 + packet.len()]?;
    let _ = pcap::write_header(&mut c);
    put_record(0, 0, packet, 24, &mut c);
    Ok(c)
}

// Bytes at a place, where there is room for them. (Several programs have this and put_record: no library needs them, and there they would be public.)
pub(crate) fn put_bytes(bytes: &[u8], at: usize, out: &mut [u8]) {
    if let Some(rest) = out.get_mut(at..) {
        if bytes.len() <= rest.len() {
            copy(bytes, rest);
        }
    }
}

// A packet with other bytes at a place.
pub(crate) fn changed<const N: usize>(mut packet: [u8; N], at: usize, bytes: &[u8]) -> [u8; N] {
    put_bytes(bytes, at, &mut packet);
    packet
}
