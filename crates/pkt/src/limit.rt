// The most that numbers 1 and 2 let through.

// The payload of a TCP segment: 65,535 less two headers of 20 bytes.
pub const TCP_PAYLOAD: usize = 65495;
// The payload of a UDP datagram or of an ICMP echo: 65,535 less headers of 20 and 8 bytes.
pub const UDP_PAYLOAD: usize = 65507;
// The payload of an IPv4 packet: 65,535 less its header of 20 bytes.
pub const IP_PAYLOAD: usize = 65515;
// The bytes of a packet, of a sum or of a capture record.
pub const BYTES: usize = 65535;
// The offset of a piece, in blocks.
pub const OFFSET: u16 = 8191;
