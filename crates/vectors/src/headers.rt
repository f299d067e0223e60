// Kinds 01 to 05: the checksum and the headers.
use crate::{fields, payload};
use ezpkt::part::back;
use pkt::ipv4;
use pkt::ipv4::{icmp_echo_hdr, icmp_hdr, ip_hdr, tcp_hdr, udp_hdr};

fn csum(b: &[u8]) -> bool {
    let a = payload::behind(0x01, b);
    let mut data = io::large_buffer();
    let n = payload::make(0x01, b, &mut data);
    a.len() == 2 && ipv4::ip_csum(&data[0..n]) == Ok(fields::two(a, 0))
}

fn ip(b: &[u8]) -> bool {
    let h = ip_hdr {
        tos: fields::byte(b, 0),
        tot_len: fields::two(b, 1),
        id: fields::two(b, 3),
        frag_off: fields::two(b, 5),
        ttl: fields::byte(b, 7),
        protocol: fields::byte(b, 8),
        saddr: fields::four(b, 9),
        daddr: fields::four(b, 13),
    };
    let got = h.to_bytes();
    back(b, 17) == got.as_slice()
}

fn tcp(b: &[u8]) -> bool {
    let h = tcp_hdr {
        sport: fields::two(b, 0),
        dport: fields::two(b, 2),
        seq: fields::four(b, 4),
        ack: fields::four(b, 8),
        flags: fields::byte(b, 12),
    };
    let got = h.to_bytes(fields::two(b, 13));
    back(b, 15) == got.as_slice()
}

fn udp(b: &[u8]) -> bool {
    let h = udp_hdr {
        sport: fields::two(b, 0),
        dport: fields::two(b, 2),
        len: fields::two(b, 4),
    };
    let got = h.to_bytes(fields::two(b, 6));
    back(b, 8) == got.as_slice()
}

fn icmp(b: &[u8]) -> bool {
    let h = icmp_hdr {
        typ: fields::byte(b, 0),
        code: fields::byte(b, 1),
    };
    let echo = icmp_echo_hdr {
        id: fields::two(b, 4),
        seq: fields::two(b, 6),
    };
    let got = h.to_bytes(echo, fields::two(b, 2));
    back(b, 8) == got.as_slice()
}

// Whether the case comes out as in the Rust.
pub(crate) fn call(kind: u8, b: &[u8]) -> bool {
    match kind {
        0x01 => csum(b),
        0x02 => ip(b),
        0x03 => tcp(b),
        0x04 => udp(b),
        0x05 => icmp(b),
        _ => false,
    }
}
