// What captures are made of.
use pkt::copying::copy;

// Bytes at a place, where there is room for them. (Several programs have this and the next: no library needs them, and there they would be public.)
pub(crate) fn put_bytes(bytes: &[u8], at: usize, out: &mut [u8]) {
    if let Some(rest) = out.get_mut(at..) {
        if bytes.len() <= rest.len() {
            copy(bytes, rest);
        }
    }
}

// A record at a place of a capture, where there is room for it.
fn put_record(sec: u32, usec: u32, packet: &[u8], at: usize, capture: &mut [u8]) {
    if let Some(rest) = capture.get_mut(at..) {
        let _ = pcap::write_record(sec, usec, packet, rest);
    }
}

// A capture with other bytes at a place.
pub(crate) fn changed<const N: usize>(mut capture: [u8; N], at: usize, bytes: &[u8]) -> [u8; N] {
    put_bytes(bytes, at, &mut capture);
    capture
}

// A capture of three records, which begin at 24, 43 and 64. As pcapng it has 160 bytes.
pub(crate) fn three() -> [u8; 84] {
    let mut c = [0u8; 84];
    let _ = pcap::write_header(&mut c);
    put_record(1, 2, b"lap", 24, &mut c);
    put_record(1, 500000, b"laps!", 43, &mut c);
    put_record(2, 0, b"rain", 64, &mut c);
    c
}

// A capture of one record with a packet of at most 5 bytes; behind a shorter one stand zeros. (Of one size, and cut: no packet here is longer.)
pub(crate) fn one(packet: &[u8]) -> [u8; 45] {
    let mut c = [0u8; 45];
    let _ = pcap::write_header(&mut c);
    put_record(1700000000, 123456, packet, 24, &mut c);
    c
}
