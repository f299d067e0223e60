// Segments and sequence state of a TCP flow.
#![tactic(auto)]

ghost use Rattle.std.specs.Prelude.{◌≡◌, ◌+◌, ◌≤◌, true, [], ◌∷◌, length, take, drop};
ghost use Rattle.pkt.specs.Answers.{most_tcp};
ghost use Rattle.pkt.specs.Rfc9293.{RST, PSH, ACK};
ghost use Rattle.tcp4.specs.Tcp4.{new_tcp_flow, tcp_marked, consumed, ack_of, seg_of, segment_of, advance, other, emit, exchange, opening, closing, message_of, SendsOne, Sends, set_to, old_of, pushed, popped, headed};
ghost use Rattle.tcp4.specs.declared.Side.TheVariants.{Client, Server};

use ezpkt::build::{Request, TcpSegment};
use ezpkt::{Marks, SocketAddrV4, build, part};
use pkt::refusal::Refusal;
use pkt::{ipv4, limit};

const SYN_ACK: u8 = ipv4::TCP_SYN + ipv4::TCP_ACK;

const FIN_ACK: u8 = ipv4::TCP_FIN + ipv4::TCP_ACK;

const PSH_ACK: u8 = ipv4::TCP_PSH + ipv4::TCP_ACK;

#[derive(Clone, Copy, Drop)]
pub enum Side {
    Client,
    Server,
}

// The two ends, the next sequence number of each, and what every packet is marked with.
#[repr(C)]
#[derive(Clone, Copy, Drop)]
pub struct TcpFlow {
    pub cl: SocketAddrV4,
    pub sv: SocketAddrV4,
    pub cl_seq: u32,
    pub sv_seq: u32,
    pub marks: Marks,
}

// The flow after one, two or three packets, and where each packet ends. Cases, and no list of ends: how many packets a call sends is told by its case.
#[derive(Clone, Copy, Drop)]
pub enum Sent {
    One(TcpFlow, usize),
    Two(TcpFlow, usize, usize),
    Three(TcpFlow, usize, usize, usize),
}

// A sequence number for one side, or nothing for it. An enum, as the scope paper has it, and no Option.
#[derive(Clone, Copy, Drop)]
pub enum Seq {
    Is(u32),
    Nothing,
}

// The flow with other numbers, and the old number of each side that was set.
#[derive(Clone, Copy, Drop)]
pub struct PushedState {
    pub flow: TcpFlow,
    pub cl: Seq,
    pub sv: Seq,
}

// The flow after a header, and the header.
#[repr(C)]
#[derive(Clone, Copy, Drop)]
pub struct Header {
    pub flow: TcpFlow,
    pub bytes: [u8; 20],
}

fn other_side(side: Side) -> Side
    ensures { result ≡ other side }
{
    match side {
        Side::Client => Side::Server,
        Side::Server => Side::Client,
    }
}

// What a segment with these flags and n payload bytes consumes: SYN and FIN count one each.
fn seq_consumed(flags: u8, n: u32) -> u32
    requires { n ≤ most_tcp }
    ensures { result ≡ consumed flags n }
{
    n + (flags / ipv4::TCP_SYN % 2) as u32 + (flags / ipv4::TCP_FIN % 2) as u32
}

// The acknowledgment number: 0 where the flags have no ACK.
fn acked(flags: u8, number: u32) -> u32
    ensures { result ≡ ack_of flags number }
{
    if flags / ipv4::TCP_ACK % 2 == 1 {
        number
    } else {
        0
    }
}

fn seg(
    marks: Marks,
    src: SocketAddrV4,
    dst: SocketAddrV4,
    snd_nxt: u32,
    rcv_nxt: u32,
    flags: u8,
    frag_off: u16,
) -> TcpSegment
    ensures { result ≡ seg_of marks src dst snd_nxt rcv_nxt flags frag_off }
{
    TcpSegment {
        saddr: src.ip,
        daddr: dst.ip,
        sport: src.port,
        dport: dst.port,
        seq: snd_nxt,
        ack: acked(flags, rcv_nxt),
        flags,
        frag_off,
        marks,
    }
}

fn chosen(seq: Seq, now: u32) -> u32
    ensures { result ≡ set_to seq now }
{
    match seq {
        Seq::Is(number) => number,
        Seq::Nothing => now,
    }
}

fn old(seq: Seq, now: u32) -> Seq
    ensures { result ≡ old_of seq now }
{
    match seq {
        Seq::Is(_) => Seq::Is(now),
        Seq::Nothing => Seq::Nothing,
    }
}

impl TcpFlow {
    // A flow between two ends, with the sequence number that each starts from.
    pub fn new(cl: SocketAddrV4, sv: SocketAddrV4, cl_seq: u32, sv_seq: u32) -> Self
        ensures { result ≡ new_tcp_flow cl sv cl_seq sv_seq }
    {
        Self {
            cl,
            sv,
            cl_seq,
            sv_seq,
            marks: Marks::default(),
        }
    }

    // The flow with other marks on every packet from now on.
    pub fn marked(self, marks: Marks) -> Self
        ensures { result ≡ tcp_marked self marks }
    {
        Self { marks, ..self }
    }

    // The segment that a side sends next, with these flags.
    fn segment(self, side: Side, flags: u8, frag_off: u16) -> TcpSegment
        ensures { result ≡ segment_of self side flags frag_off }
    {
        let cl = self.cl;
        let sv = self.sv;
        let marks = self.marks;
        match side {
            Side::Client => seg(marks, cl, sv, self.cl_seq, self.sv_seq, flags, frag_off),
            Side::Server => seg(marks, sv, cl, self.sv_seq, self.cl_seq, flags, frag_off),
        }
    }

    // A side's number moved on, modulo 2^32.
    fn update(self, side: Side, bytes: u32) -> Self
        ensures { result ≡ advance side bytes self }
    {
        match side {
            Side::Client => Self {
                cl_seq: self.cl_seq.wrapping_add(bytes),
                ..self
            },
            Side::Server => Self {
                sv_seq: self.sv_seq.wrapping_add(bytes),
                ..self
            },
        }
    }

    // Writes one packet, and moves its side's number on. (side, flags and frag_off go apart: a struct would be made once and read once.)
    fn tx(self, side: Side, flags: u8, frag_off: u16, payload: &[u8], out: &mut [u8]) -> Self
        requires { (length payload.now ≤ most_tcp) × (40 + length payload.now ≤ length out.old) }
        ensures { SendsOne self (emit side flags frag_off payload.now) out.old result out.new }
    {
        let segment = self.segment(side, flags, frag_off);
        let _ = build::build(Request::Tcp(segment), payload, out); // it fits, and is not refused
        self.update(side, seq_consumed(flags, payload.len() as u32))
    }

    // One packet.
    fn one(
        self,
        side: Side,
        flags: u8,
        frag_off: u16,
        payload: &[u8],
        out: &mut [u8],
    ) -> Result<Sent, Refusal>
        ensures { Sends self (emit side flags frag_off payload.now ∷ []) out.old result out.new }
    {
        let n = payload.len();
        if n > limit::TCP_PAYLOAD {
            return Err(Refusal::TooLong);
        }
        let end = 40 + n;
        if out.len() < end {
            return Err(Refusal::NoRoom);
        }
        let flow = self.tx(side, flags, frag_off, payload, out);
        Ok(Sent::One(flow, end))
    }

    // A message, and the other side's acknowledgment of it.
    fn two(self, side: Side, frag_off: u16, payload: &[u8], out: &mut [u8]) -> Result<Sent, Refusal>
        ensures { Sends self (message_of side true frag_off payload.now) out.old result out.new }
    {
        let n = payload.len();
        if n > limit::TCP_PAYLOAD {
            return Err(Refusal::TooLong);
        }
        let end = 40 + n;
        if out.len() < end + 40 {
            return Err(Refusal::NoRoom);
        }
        let sent = self.tx(side, PSH_ACK, frag_off, payload, out);
        let flow = sent.tx(other_side(side), ipv4::TCP_ACK, 0, b"", &mut out[end..]);
        Ok(Sent::Two(flow, end, end + 40))
    }

    // Three packets with no payload, from one side, the other and the first again, the last an acknowledgment.
    fn three(self, side: Side, first: u8, second: u8, out: &mut [u8]) -> Result<Sent, Refusal>
        ensures { Sends self (exchange side first second) out.old result out.new }
    {
        if out.len() < 120 {
            return Err(Refusal::NoRoom);
        }
        let one = self.tx(side, first, 0, b"", out);
        let two = one.tx(other_side(side), second, 0, b"", &mut out[40..]);
        let flow = two.tx(side, ipv4::TCP_ACK, 0, b"", &mut out[80..]);
        Ok(Sent::Three(flow, 40, 80, 120))
    }

    fn message(
        self,
        side: Side,
        bytes: &[u8],
        send_ack: bool,
        frag_off: u16,
        out: &mut [u8],
    ) -> Result<Sent, Refusal>
        ensures { Sends self (message_of side send_ack frag_off bytes.now) out.old result out.new }
    {
        if send_ack {
            return self.two(side, frag_off, bytes, out);
        }
        self.one(side, PSH_ACK, frag_off, bytes, out)
    }

    // A header alone, with PSH, ACK and a given checksum, as if dlen bytes followed it.
    fn hdr(self, side: Side, dlen: u32, csum: u16) -> Header
        ensures { result ≡ headed self side dlen csum }
    {
        let h = self.segment(side, PSH_ACK, 0).hdr();
        Header {
            flow: self.update(side, dlen),
            bytes: h.to_bytes(csum),
        }
    }

    // The flow with the numbers that are given, and the old number of each side that was set.
    pub fn push_state(self, cl_seq: Seq, sv_seq: Seq) -> PushedState
        ensures { result ≡ pushed self cl_seq sv_seq }
    {
        PushedState {
            flow: self.pop_state(cl_seq, sv_seq),
            cl: old(cl_seq, self.cl_seq),
            sv: old(sv_seq, self.sv_seq),
        }
    }

    // The flow with the numbers that are given; a side that is given nothing keeps its own.
    pub fn pop_state(self, cl_seq: Seq, sv_seq: Seq) -> Self
        ensures { result ≡ popped self cl_seq sv_seq }
    {
        Self {
            cl_seq: chosen(cl_seq, self.cl_seq),
            sv_seq: chosen(sv_seq, self.sv_seq),
            ..self
        }
    }

    // The client's number moved on by bytes that are not sent.
    pub fn client_hole(self, bytes: u32) -> Self
        ensures { result ≡ advance Client bytes self }
    {
        self.update(Side::Client, bytes)
    }

    // The server's number moved on by bytes that are not sent.
    pub fn server_hole(self, bytes: u32) -> Self
        ensures { result ≡ advance Server bytes self }
    {
        self.update(Side::Server, bytes)
    }

    // One segment with bytes from the client, with PSH and ACK.
    pub fn client_data_segment(self, bytes: &[u8], out: &mut [u8]) -> Result<Sent, Refusal>
        ensures { Sends self (emit Client (PSH + ACK) 0 bytes.now ∷ []) out.old result out.new }
    {
        self.one(Side::Client, PSH_ACK, 0, bytes, out)
    }

    // One segment with bytes from the server, with PSH and ACK.
    pub fn server_data_segment(self, bytes: &[u8], out: &mut [u8]) -> Result<Sent, Refusal>
        ensures { Sends self (emit Server (PSH + ACK) 0 bytes.now ∷ []) out.old result out.new }
    {
        self.one(Side::Server, PSH_ACK, 0, bytes, out)
    }

    // The client's acknowledgment. Its number stays.
    pub fn client_ack(self, out: &mut [u8]) -> Result<Sent, Refusal>
        ensures { Sends self (emit Client ACK 0 [] ∷ []) out.old result out.new }
    {
        self.one(Side::Client, ipv4::TCP_ACK, 0, b"", out)
    }

    // The server's acknowledgment. Its number stays.
    pub fn server_ack(self, out: &mut [u8]) -> Result<Sent, Refusal>
        ensures { Sends self (emit Server ACK 0 [] ∷ []) out.old result out.new }
    {
        self.one(Side::Server, ipv4::TCP_ACK, 0, b"", out)
    }

    // The TCP header of a segment with dlen bytes from the client and this checksum, and the client's number moved on by dlen.
    pub fn client_hdr(self, dlen: u32, csum: u16) -> Header
        ensures { result ≡ headed self Client dlen csum }
    {
        self.hdr(Side::Client, dlen, csum)
    }

    // The TCP header of a segment with dlen bytes from the server and this checksum, and the server's number moved on by dlen.
    pub fn server_hdr(self, dlen: u32, csum: u16) -> Header
        ensures { result ≡ headed self Server dlen csum }
    {
        self.hdr(Side::Server, dlen, csum)
    }

    // SYN from the client, SYN and ACK from the server, ACK from the client.
    pub fn open(self, out: &mut [u8]) -> Result<Sent, Refusal>
        ensures { Sends self opening out.old result out.new }
    {
        self.three(Side::Client, ipv4::TCP_SYN, SYN_ACK, out)
    }

    // FIN and ACK from the client, FIN and ACK from the server, ACK from the client.
    pub fn client_close(self, out: &mut [u8]) -> Result<Sent, Refusal>
        ensures { Sends self (closing Client) out.old result out.new }
    {
        self.three(Side::Client, FIN_ACK, FIN_ACK, out)
    }

    // FIN and ACK from the server, FIN and ACK from the client, ACK from the server.
    pub fn server_close(self, out: &mut [u8]) -> Result<Sent, Refusal>
        ensures { Sends self (closing Server) out.old result out.new }
    {
        self.three(Side::Server, FIN_ACK, FIN_ACK, out)
    }

    // The client's reset: RST alone, acknowledgment number 0. Its number stays.
    pub fn client_reset(self, out: &mut [u8]) -> Result<Sent, Refusal>
        ensures { Sends self (emit Client RST 0 [] ∷ []) out.old result out.new }
    {
        self.one(Side::Client, ipv4::TCP_RST, 0, b"", out)
    }

    // The server's reset: RST alone, acknowledgment number 0. Its number stays.
    pub fn server_reset(self, out: &mut [u8]) -> Result<Sent, Refusal>
        ensures { Sends self (emit Server RST 0 [] ∷ []) out.old result out.new }
    {
        self.one(Side::Server, ipv4::TCP_RST, 0, b"", out)
    }

    // A message from the client, with its whole flags and offset field, and the server's acknowledgment if it is asked for.
    pub fn client_message(
        self,
        bytes: &[u8],
        send_ack: bool,
        frag_off: u16,
        out: &mut [u8],
    ) -> Result<Sent, Refusal>
        ensures { Sends self (message_of Client send_ack frag_off bytes.now) out.old result out.new }
    {
        self.message(Side::Client, bytes, send_ack, frag_off, out)
    }

    // A message from the server, with its whole flags and offset field, and the client's acknowledgment if it is asked for.
    pub fn server_message(
        self,
        bytes: &[u8],
        send_ack: bool,
        frag_off: u16,
        out: &mut [u8],
    ) -> Result<Sent, Refusal>
        ensures { Sends self (message_of Server send_ack frag_off bytes.now) out.old result out.new }
    {
        self.message(Side::Server, bytes, send_ack, frag_off, out)
    }
}

// The TCP header of a packet, as far as it is there.
pub fn tcp_hdr_bytes(packet: &[u8]) -> &[u8]
    ensures { result.now ≡ take 20 (drop 20 packet.now) }
{
    part::front(part::back(packet, 20), 20)
}

// The TCP header of a packet and all that follows it.
pub fn tcp_segment_bytes(packet: &[u8]) -> &[u8]
    ensures { result.now ≡ drop 20 packet.now }
{
    part::back(packet, 20)
}
