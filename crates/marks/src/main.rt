// Every call of the three flows, made with a type of service of 16 and a time to live of 1, and again with those of a new flow: of each packet its
// length, the bytes 1, 8, 10 and 11 of both, and whether all other bytes are alike.
#![tactic(auto)]

mod icmp;
mod shown;
mod tcp;
mod udp;

use ezpkt::{Marks, SocketAddrV4};
use std::io;

const MARKS: Marks = Marks { tos: 16, ttl: 1 };

const CLIENT: SocketAddrV4 = SocketAddrV4 {
    ip: 0x0a000001,
    port: 40000,
};

const SERVER: SocketAddrV4 = SocketAddrV4 {
    ip: 0x0a000002,
    port: 80,
};

// All of them.
fn each(rt: &impl Print) -> io::Result<()> {
    tcp::calls(rt, CLIENT, SERVER, MARKS)?;
    udp::calls(rt, CLIENT, SERVER, MARKS)?;
    icmp::calls(rt, CLIENT.ip, SERVER.ip, MARKS)
}

fn main(rt: HostRuntime) {
    let _ = each(&rt); // what cannot be written is not shown
}
