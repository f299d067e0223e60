// Packets from requests, and from flows that keep their numbers.
#![tactic(auto)]

pub mod build;
pub mod icmp4;
pub mod ip4;
pub mod part;
pub mod udp4;
mod write;

ghost use Rattle.std.specs.Prelude.{◌≡◌};
ghost use Rattle.ezpkt.specs.Build.{unmarked};

use pkt::ipv4::ip_hdr;

// An address and a port.
#[repr(C)]
#[derive(Clone, Copy, PartialEq, Eq, Drop)]
pub struct SocketAddrV4 {
    pub ip: u32,
    pub port: u16,
}

// What the packets of a flow are marked with: the type of service, and the time to live.
#[repr(C)]
#[derive(Clone, Copy, Drop)]
pub struct Marks {
    pub tos: u8,
    pub ttl: u8,
}

impl Default for Marks {
    ghost is_default = { λ m. m ≡ unmarked };

    // Those of a new flow: a type of service of 0, and a time to live of 64.
    fn default() -> Self {
        let ip = ip_hdr::default();
        Self {
            tos: ip.tos,
            ttl: ip.ttl,
        }
    }
}
