// Document 01's worked examples, and document 02's of UDP without checksum, run: each line is an example and what the
// library answers.
#![tactic(auto)]

use ezpkt::build::{Request, TcpSegment, UdpDatagram};
use ezpkt::ip4::Template;
use ezpkt::{Marks, SocketAddrV4, build, ip4};
use pkt::ipv4;
use pkt::ipv4::{ip_hdr, tcp_hdr, udp_hdr};
use pkt::refusal::Refusal;
use std::io;
use tcp4::{Sent, Seq, TcpFlow};

const CLIENT: u32 = 0x0a000001;

const SERVER: u32 = 0x0a000002;

fn show_refused(rt: &impl Print, refusal: Refusal) -> io::Result<()> {
    println!(rt; " refused {}", refusal.number())
}

fn show_sum(rt: &impl Print, what: &str, sum: Result<u16, Refusal>) -> io::Result<()> {
    print!(rt; "{what}:")?;
    match sum {
        Ok(csum) => println!(rt; " {csum:04x}"),
        Err(refusal) => show_refused(rt, refusal),
    }
}

fn show_bytes(rt: &impl Print, bytes: &[u8]) -> io::Result<()> {
    for byte in bytes {
        print!(rt; " {byte:02x}")?;
    }
    println!(rt; "")
}

fn checksums(rt: &impl Print) -> io::Result<()> {
    let long = [0u8; 65536];
    show_sum(rt, "checksum of nothing", ipv4::ip_csum(b""))?;
    show_sum(rt, "checksum of 01", ipv4::ip_csum(b"\x01"))?;
    show_sum(rt, "checksum of ff ff", ipv4::ip_csum(b"\xff\xff"))?;
    show_sum(rt, "checksum of 65,536 bytes", ipv4::ip_csum(&long))?;
    show_sum(
        rt,
        "checksum of 65,535 bytes",
        ipv4::ip_csum(&long[0..65535]),
    )
}

fn syn(rt: &impl Print) -> io::Result<()> {
    let ip = ip_hdr {
        tot_len: 40,
        protocol: ipv4::proto::TCP,
        saddr: CLIENT,
        daddr: SERVER,
        ..ip_hdr::default()
    };
    let tcp = tcp_hdr {
        seq: 1000,
        flags: ipv4::TCP_SYN,
        ..tcp_hdr::new(40000, 80)
    };
    print!(rt; "SYN, IPv4 header:")?;
    show_bytes(rt, &ip.to_bytes())?;
    show_sum(
        rt,
        "SYN, TCP checksum",
        ipv4::tcp_csum(CLIENT, SERVER, tcp, b""),
    )
}

fn udp_ones(rt: &impl Print) -> io::Result<()> {
    let udp = udp_hdr {
        sport: 1,
        dport: 2,
        len: 10,
    };
    let sum = ipv4::udp_csum(CLIENT, SERVER, udp, b"\xeb\xd4");
    show_sum(rt, "UDP with payload eb d4, checksum", sum)
}

fn show_built(rt: &impl Print, built: Result<usize, Refusal>) -> io::Result<()> {
    match built {
        Ok(size) => println!(rt; " {size}"),
        Err(refusal) => show_refused(rt, refusal),
    }
}

fn show_flow(rt: &impl Print, flow: TcpFlow) -> io::Result<()> {
    print!(rt; ", then {} {}", flow.cl_seq, flow.sv_seq)
}

fn show_sent(rt: &impl Print, sent: Result<Sent, Refusal>) -> io::Result<()> {
    let flow = match sent {
        Ok(Sent::One(flow, a)) => {
            print!(rt; " {a}")?;
            flow
        }
        Ok(Sent::Two(flow, a, b)) => {
            print!(rt; " {a} {b}")?;
            flow
        }
        Ok(Sent::Three(flow, a, b, c)) => {
            print!(rt; " {a} {b} {c}")?;
            flow
        }
        Err(refusal) => return show_refused(rt, refusal),
    };
    show_flow(rt, flow)?;
    println!(rt; "")
}

fn flow_at(cl_seq: u32, sv_seq: u32) -> TcpFlow {
    let cl = SocketAddrV4 {
        ip: CLIENT,
        port: 40000,
    };
    let sv = SocketAddrV4 {
        ip: SERVER,
        port: 80,
    };
    TcpFlow::new(cl, sv, cl_seq, sv_seq)
}

fn syn_request() -> Request {
    Request::Tcp(TcpSegment {
        saddr: CLIENT,
        daddr: SERVER,
        sport: 40000,
        dport: 80,
        seq: 1000,
        ack: 0,
        flags: ipv4::TCP_SYN,
        frag_off: 0,
        marks: Marks::default(),
    })
}

fn data_segment(rt: &impl Print, payload: &[u8]) -> io::Result<()> {
    let mut out = [0u8; 65536];
    show_sent(rt, flow_at(0, 0).client_data_segment(payload, &mut out))
}

fn tcp_limits(rt: &impl Print) -> io::Result<()> {
    let payload = [0u8; 65496];
    print!(rt; "TCP payload of 65,495 bytes:")?;
    data_segment(rt, &payload[0..65495])?;
    print!(rt; "TCP payload of 65,496 bytes:")?;
    data_segment(rt, &payload)?;
    let mut short = [0u8; 39];
    print!(rt; "SYN into 39 bytes:")?;
    show_built(rt, build::build(syn_request(), b"", &mut short))?;
    let mut enough = [0u8; 40];
    print!(rt; "SYN into 40 bytes:")?;
    show_built(rt, build::build(syn_request(), b"", &mut enough))
}

fn udp_request(csum: bool) -> Request {
    Request::Udp(UdpDatagram {
        saddr: CLIENT,
        daddr: SERVER,
        sport: 1,
        dport: 2,
        frag_off: 0,
        csum,
        marks: Marks::default(),
    })
}

// What is true of all three, and whether a checksum is asked for.
fn udp_limits(rt: &impl Print, words: &str, csum: bool) -> io::Result<()> {
    let payload = [0u8; 65508];
    let mut out = [0u8; 30];
    let request = udp_request(csum);
    print!(rt; "{words}, 2 bytes:")?;
    show_built(rt, build::build(request, b"\xeb\xd4", &mut out))?;
    print!(rt; "{words}, 65,508 bytes:")?;
    show_built(rt, build::build(request, &payload, &mut out))?;
    print!(rt; "{words}, 2 bytes into 29:")?;
    show_built(rt, build::build(request, b"\xeb\xd4", &mut out[0..29]))
}

fn opened(rt: &impl Print) -> io::Result<()> {
    let mut out = [0u8; 120];
    print!(rt; "open at 1000 and 5000:")?;
    show_sent(rt, flow_at(1000, 5000).open(&mut out))?;
    println!(rt; "its sequence and acknowledgment numbers:")?;
    show_bytes(rt, &out[24..32])?;
    show_bytes(rt, &out[64..72])?;
    show_bytes(rt, &out[104..112])
}

fn message(rt: &impl Print, send_ack: bool) -> io::Result<()> {
    let mut out = [0u8; 83];
    show_sent(
        rt,
        flow_at(4294967294, 0).client_message(b"lap!", send_ack, 0, &mut out),
    )
}

fn state(rt: &impl Print) -> io::Result<()> {
    let pushed = flow_at(7, 8).push_state(Seq::Is(9), Seq::Nothing);
    print!(rt; "state pushed, and popped:")?;
    show_flow(rt, pushed.flow)?;
    show_flow(rt, pushed.flow.pop_state(pushed.cl, pushed.sv))?;
    println!(rt; "")
}

fn flows(rt: &impl Print) -> io::Result<()> {
    opened(rt)?;
    print!(rt; "4 bytes sent at 4,294,967,294:")?;
    message(rt, false)?;
    print!(rt; "the same with an acknowledgment, into 83 bytes:")?;
    message(rt, true)?;
    state(rt)
}

fn piece(rt: &impl Print, off: u16, len: u16) -> io::Result<()> {
    let template = Template {
        tos: 0,
        id: 0,
        df: false,
        evil: false,
        ttl: 64,
        protocol: 17,
        saddr: CLIENT,
        daddr: SERVER,
    };
    let mut out = [0u8; 40];
    print!(rt; "piece of 20 bytes:")?;
    show_built(
        rt,
        ip4::fragment(template, b"01234567890123456789", off, len, &mut out),
    )?;
    print!(rt; "field:")?;
    show_bytes(rt, &out[6..8])
}

// All of them.
fn each(rt: &impl Print) -> io::Result<()> {
    checksums(rt)?;
    syn(rt)?;
    udp_ones(rt)?;
    tcp_limits(rt)?;
    udp_limits(rt, "UDP with checksum", true)?;
    udp_limits(rt, "UDP without checksum", false)?;
    flows(rt)?;
    piece(rt, 0, 1)?;
    piece(rt, 2, 1)?;
    piece(rt, 2, 0)?;
    piece(rt, 3, 1)?;
    piece(rt, 8192, 1)
}

fn main(rt: HostRuntime) {
    let _ = each(&rt); // what cannot be written is not shown
}
