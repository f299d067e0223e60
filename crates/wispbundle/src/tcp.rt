// Calls of a TCP flow. The answer hands the flow back: the next one, or on a refusal the one that came in.
ghost use Rattle.std.specs.Prelude.{◌≡◌, [], ◌∷◌, ◌+◌};
ghost use Rattle.pkt.specs.Rfc9293.{RST, PSH, ACK};
ghost use Rattle.tcp4.specs.Tcp4.{new_tcp_flow, tcp_marked, sent_says, advance, emit, opening, closing, message_of, popped, pushed, headed};
ghost use Rattle.tcp4.specs.declared.Side.TheVariants.{Client, Server};
ghost use Rattle.wispbundle.specs.Answers.{seq_from, seq_for, pushed_for, tcp_ends, tcp_for};
ghost use Rattle.wispbundle.specs.Calls.{TcpSends};

use ezpkt::{Marks, SocketAddrV4};
use pkt::refusal::Refusal;
use tcp4::{Header, PushedState, Sent, Seq, TcpFlow};

// The flow, and where each packet ends in the buffer: 0 for one that is not there.
#[repr(C)]
#[derive(Clone, Copy, Drop)]
pub struct wb_tcp_sent {
    pub status: u8,
    pub flow: TcpFlow,
    pub first: usize,
    pub second: usize,
    pub third: usize,
}

// A sequence number for one side, or, where is_set is false, nothing for it: C has no Option.
#[repr(C)]
#[derive(Clone, Copy, Drop)]
pub struct wb_seq {
    pub is_set: bool,
    pub number: u32,
}

// The flow with other numbers, and the old number of each side that was set.
#[repr(C)]
#[derive(Clone, Copy, Drop)]
pub struct wb_pushed {
    pub flow: TcpFlow,
    pub cl: wb_seq,
    pub sv: wb_seq,
}

fn ends(status: u8, flow: TcpFlow, first: usize, second: usize, third: usize) -> wb_tcp_sent
    ensures { result ≡ tcp_ends status flow first second third }
{
    wb_tcp_sent {
        status,
        flow,
        first,
        second,
        third,
    }
}

fn sent(before: TcpFlow, answer: Result<Sent, Refusal>) -> wb_tcp_sent
    ensures { result ≡ tcp_for before (sent_says answer) }
{
    match answer {
        Ok(Sent::One(flow, a)) => ends(crate::ACCEPTED, flow, a, 0, 0),
        Ok(Sent::Two(flow, a, b)) => ends(crate::ACCEPTED, flow, a, b, 0),
        Ok(Sent::Three(flow, a, b, c)) => ends(crate::ACCEPTED, flow, a, b, c),
        Err(refusal) => ends(refusal.number(), before, 0, 0, 0),
    }
}

impl From<wb_seq> for Seq {
    ghost from_gives = { λ given seq. seq ≡ seq_from given };

    fn from(given: wb_seq) -> Self {
        if given.is_set {
            Seq::Is(given.number)
        } else {
            Seq::Nothing
        }
    }
}

impl From<Seq> for wb_seq {
    ghost from_gives = { λ seq told. told ≡ seq_for seq };

    fn from(seq: Seq) -> Self {
        match seq {
            Seq::Is(number) => wb_seq {
                is_set: true,
                number,
            },
            Seq::Nothing => wb_seq {
                is_set: false,
                number: 0,
            },
        }
    }
}

impl From<PushedState> for wb_pushed {
    ghost from_gives = { λ answer told. told ≡ pushed_for answer };

    fn from(answer: PushedState) -> Self {
        wb_pushed {
            flow: answer.flow,
            cl: answer.cl.into(),
            sv: answer.sv.into(),
        }
    }
}

pub fn wb_tcp_new(cl: SocketAddrV4, sv: SocketAddrV4, cl_seq: u32, sv_seq: u32) -> TcpFlow
    ensures { result ≡ new_tcp_flow cl sv cl_seq sv_seq }
{
    TcpFlow::new(cl, sv, cl_seq, sv_seq)
}

pub fn wb_tcp_marked(flow: TcpFlow, marks: Marks) -> TcpFlow
    ensures { result ≡ tcp_marked flow marks }
{
    flow.marked(marks)
}

pub fn wb_tcp_open(flow: TcpFlow, out: &mut [u8]) -> wb_tcp_sent
    ensures { TcpSends flow opening out.old result out.new }
{
    sent(flow, flow.open(out))
}

pub fn wb_tcp_client_close(flow: TcpFlow, out: &mut [u8]) -> wb_tcp_sent
    ensures { TcpSends flow (closing Client) out.old result out.new }
{
    sent(flow, flow.client_close(out))
}

pub fn wb_tcp_server_close(flow: TcpFlow, out: &mut [u8]) -> wb_tcp_sent
    ensures { TcpSends flow (closing Server) out.old result out.new }
{
    sent(flow, flow.server_close(out))
}

pub fn wb_tcp_client_reset(flow: TcpFlow, out: &mut [u8]) -> wb_tcp_sent
    ensures { TcpSends flow (emit Client RST 0 [] ∷ []) out.old result out.new }
{
    sent(flow, flow.client_reset(out))
}

pub fn wb_tcp_server_reset(flow: TcpFlow, out: &mut [u8]) -> wb_tcp_sent
    ensures { TcpSends flow (emit Server RST 0 [] ∷ []) out.old result out.new }
{
    sent(flow, flow.server_reset(out))
}

pub fn wb_tcp_client_ack(flow: TcpFlow, out: &mut [u8]) -> wb_tcp_sent
    ensures { TcpSends flow (emit Client ACK 0 [] ∷ []) out.old result out.new }
{
    sent(flow, flow.client_ack(out))
}

pub fn wb_tcp_server_ack(flow: TcpFlow, out: &mut [u8]) -> wb_tcp_sent
    ensures { TcpSends flow (emit Server ACK 0 [] ∷ []) out.old result out.new }
{
    sent(flow, flow.server_ack(out))
}

pub fn wb_tcp_client_data_segment(flow: TcpFlow, bytes: &[u8], out: &mut [u8]) -> wb_tcp_sent
    ensures { TcpSends flow (emit Client (PSH + ACK) 0 bytes.now ∷ []) out.old result out.new }
{
    sent(flow, flow.client_data_segment(bytes, out))
}

pub fn wb_tcp_server_data_segment(flow: TcpFlow, bytes: &[u8], out: &mut [u8]) -> wb_tcp_sent
    ensures { TcpSends flow (emit Server (PSH + ACK) 0 bytes.now ∷ []) out.old result out.new }
{
    sent(flow, flow.server_data_segment(bytes, out))
}

pub fn wb_tcp_client_message(
    flow: TcpFlow,
    bytes: &[u8],
    send_ack: bool,
    frag_off: u16,
    out: &mut [u8],
) -> wb_tcp_sent
    ensures { TcpSends flow (message_of Client send_ack frag_off bytes.now) out.old result out.new }
{
    sent(flow, flow.client_message(bytes, send_ack, frag_off, out))
}

pub fn wb_tcp_server_message(
    flow: TcpFlow,
    bytes: &[u8],
    send_ack: bool,
    frag_off: u16,
    out: &mut [u8],
) -> wb_tcp_sent
    ensures { TcpSends flow (message_of Server send_ack frag_off bytes.now) out.old result out.new }
{
    sent(flow, flow.server_message(bytes, send_ack, frag_off, out))
}

pub fn wb_tcp_client_hole(flow: TcpFlow, bytes: u32) -> TcpFlow
    ensures { result ≡ advance Client bytes flow }
{
    flow.client_hole(bytes)
}

pub fn wb_tcp_server_hole(flow: TcpFlow, bytes: u32) -> TcpFlow
    ensures { result ≡ advance Server bytes flow }
{
    flow.server_hole(bytes)
}

pub fn wb_tcp_client_hdr(flow: TcpFlow, dlen: u32, csum: u16) -> Header
    ensures { result ≡ headed flow Client dlen csum }
{
    flow.client_hdr(dlen, csum)
}

pub fn wb_tcp_server_hdr(flow: TcpFlow, dlen: u32, csum: u16) -> Header
    ensures { result ≡ headed flow Server dlen csum }
{
    flow.server_hdr(dlen, csum)
}

pub fn wb_tcp_push_state(flow: TcpFlow, cl_seq: wb_seq, sv_seq: wb_seq) -> wb_pushed
    ensures { result ≡ pushed_for (pushed flow (seq_from cl_seq) (seq_from sv_seq)) }
{
    flow.push_state(cl_seq.into(), sv_seq.into()).into()
}

pub fn wb_tcp_pop_state(flow: TcpFlow, cl_seq: wb_seq, sv_seq: wb_seq) -> TcpFlow
    ensures { result ≡ popped flow (seq_from cl_seq) (seq_from sv_seq) }
{
    flow.pop_state(cl_seq.into(), sv_seq.into())
}
