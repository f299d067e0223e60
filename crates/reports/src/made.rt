// What lists of packets are made of.
use ezpkt::build::{Request, TcpSegment};
use ezpkt::{Marks, SocketAddrV4, build};
use pkt::copying::copy;
use tcp4::TcpFlow;

// The ends of the flow that is reported.
pub const CLIENT: SocketAddrV4 = SocketAddrV4 {
    ip: 0x0a000001,
    port: 40000,
};

pub const SERVER: SocketAddrV4 = SocketAddrV4 {
    ip: 0x0a000002,
    port: 80,
};

// That flow, with its next numbers.
pub(crate) fn flow_at(cl_seq: u32, sv_seq: u32) -> TcpFlow {
    TcpFlow::new(CLIENT, SERVER, cl_seq, sv_seq)
}

// A segment of the client.
fn segment(seq: u32, flags: u8) -> Request {
    Request::Tcp(TcpSegment {
        saddr: 0x0a000001,
        daddr: 0x0a000002,
        sport: 40000,
        dport: 80,
        seq,
        ack: 0,
        flags,
        frag_off: 0,
        marks: Marks::default(),
    })
}

// .. with a payload, at a place where there is room for it.
pub(crate) fn put_segment(seq: u32, flags: u8, payload: &[u8], at: usize, out: &mut [u8]) {
    if let Some(rest) = out.get_mut(at..) {
        let _ = build::build(segment(seq, flags), payload, rest);
    }
}

// Bytes at a place, where there is room for them. (As in mends: no library needs it, and there it would be public.)
pub(crate) fn put_bytes(bytes: &[u8], at: usize, out: &mut [u8]) {
    if let Some(rest) = out.get_mut(at..) {
        if bytes.len() <= rest.len() {
            copy(bytes, rest);
        }
    }
}
