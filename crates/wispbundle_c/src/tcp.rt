// Calls of a TCP flow. The answer hands the flow back: the next one, or on a refusal the one that came in.
ghost use Rattle.std.specs.Prelude.{◌≡◌, [], ◌∷◌, ◌+◌};
ghost use Rattle.pkt.specs.Rfc9293.{RST, PSH, ACK};
ghost use Rattle.tcp4.specs.Tcp4.{new_tcp_flow, tcp_marked, advance, emit, opening, closing, message_of, popped, pushed, headed};
ghost use Rattle.tcp4.specs.declared.Side.TheVariants.{Client, Server};
ghost use Rattle.wispbundle.specs.Answers.{seq_from, pushed_for};
ghost use Rattle.wispbundle.specs.Calls.{TcpSends};

use ezpkt::{Marks, SocketAddrV4};
use tcp4::{Header, TcpFlow};
use wispbundle::tcp as library;
use wispbundle::tcp::{wb_pushed, wb_seq, wb_tcp_sent};

#[unsafe(no_mangle)]
pub extern "C" fn wb_tcp_new(
    cl: SocketAddrV4,
    sv: SocketAddrV4,
    cl_seq: u32,
    sv_seq: u32,
) -> TcpFlow
    ensures { result ≡ new_tcp_flow cl sv cl_seq sv_seq }
{
    library::wb_tcp_new(cl, sv, cl_seq, sv_seq)
}

#[unsafe(no_mangle)]
pub extern "C" fn wb_tcp_marked(flow: TcpFlow, marks: Marks) -> TcpFlow
    ensures { result ≡ tcp_marked flow marks }
{
    library::wb_tcp_marked(flow, marks)
}

#[unsafe(no_mangle)]
pub extern "C" fn wb_tcp_open(flow: TcpFlow, out: &mut [u8]) -> wb_tcp_sent
    ensures { TcpSends flow opening out.old result out.new }
{
    library::wb_tcp_open(flow, out)
}

#[unsafe(no_mangle)]
pub extern "C" fn wb_tcp_client_close(flow: TcpFlow, out: &mut [u8]) -> wb_tcp_sent
    ensures { TcpSends flow (closing Client) out.old result out.new }
{
    library::wb_tcp_client_close(flow, out)
}

#[unsafe(no_mangle)]
pub extern "C" fn wb_tcp_server_close(flow: TcpFlow, out: &mut [u8]) -> wb_tcp_sent
    ensures { TcpSends flow (closing Server) out.old result out.new }
{
    library::wb_tcp_server_close(flow, out)
}

#[unsafe(no_mangle)]
pub extern "C" fn wb_tcp_client_reset(flow: TcpFlow, out: &mut [u8]) -> wb_tcp_sent
    ensures { TcpSends flow (emit Client RST 0 [] ∷ []) out.old result out.new }
{
    library::wb_tcp_client_reset(flow, out)
}

#[unsafe(no_mangle)]
pub extern "C" fn wb_tcp_server_reset(flow: TcpFlow, out: &mut [u8]) -> wb_tcp_sent
    ensures { TcpSends flow (emit Server RST 0 [] ∷ []) out.old result out.new }
{
    library::wb_tcp_server_reset(flow, out)
}

#[unsafe(no_mangle)]
pub extern "C" fn wb_tcp_client_ack(flow: TcpFlow, out: &mut [u8]) -> wb_tcp_sent
    ensures { TcpSends flow (emit Client ACK 0 [] ∷ []) out.old result out.new }
{
    library::wb_tcp_client_ack(flow, out)
}

#[unsafe(no_mangle)]
pub extern "C" fn wb_tcp_server_ack(flow: TcpFlow, out: &mut [u8]) -> wb_tcp_sent
    ensures { TcpSends flow (emit Server ACK 0 [] ∷ []) out.old result out.new }
{
    library::wb_tcp_server_ack(flow, out)
}

#[unsafe(no_mangle)]
pub extern "C" fn wb_tcp_client_data_segment(
    flow: TcpFlow,
    bytes: &[u8],
    out: &mut [u8],
) -> wb_tcp_sent
    ensures { TcpSends flow (emit Client (PSH + ACK) 0 bytes.now ∷ []) out.old result out.new }
{
    library::wb_tcp_client_data_segment(flow, bytes, out)
}

#[unsafe(no_mangle)]
pub extern "C" fn wb_tcp_server_data_segment(
    flow: TcpFlow,
    bytes: &[u8],
    out: &mut [u8],
) -> wb_tcp_sent
    ensures { TcpSends flow (emit Server (PSH + ACK) 0 bytes.now ∷ []) out.old result out.new }
{
    library::wb_tcp_server_data_segment(flow, bytes, out)
}

#[unsafe(no_mangle)]
pub extern "C" fn wb_tcp_client_message(
    flow: TcpFlow,
    bytes: &[u8],
    send_ack: bool,
    frag_off: u16,
    out: &mut [u8],
) -> wb_tcp_sent
    ensures { TcpSends flow (message_of Client send_ack frag_off bytes.now) out.old result out.new }
{
    library::wb_tcp_client_message(flow, bytes, send_ack, frag_off, out)
}

#[unsafe(no_mangle)]
pub extern "C" fn wb_tcp_server_message(
    flow: TcpFlow,
    bytes: &[u8],
    send_ack: bool,
    frag_off: u16,
    out: &mut [u8],
) -> wb_tcp_sent
    ensures { TcpSends flow (message_of Server send_ack frag_off bytes.now) out.old result out.new }
{
    library::wb_tcp_server_message(flow, bytes, send_ack, frag_off, out)
}

#[unsafe(no_mangle)]
pub extern "C" fn wb_tcp_client_hole(flow: TcpFlow, bytes: u32) -> TcpFlow
    ensures { result ≡ advance Client bytes flow }
{
    library::wb_tcp_client_hole(flow, bytes)
}

#[unsafe(no_mangle)]
pub extern "C" fn wb_tcp_server_hole(flow: TcpFlow, bytes: u32) -> TcpFlow
    ensures { result ≡ advance Server bytes flow }
{
    library::wb_tcp_server_hole(flow, bytes)
}

#[unsafe(no_mangle)]
pub extern "C" fn wb_tcp_client_hdr(flow: TcpFlow, dlen: u32, csum: u16) -> Header
    ensures { result ≡ headed flow Client dlen csum }
{
    library::wb_tcp_client_hdr(flow, dlen, csum)
}

#[unsafe(no_mangle)]
pub extern "C" fn wb_tcp_server_hdr(flow: TcpFlow, dlen: u32, csum: u16) -> Header
    ensures { result ≡ headed flow Server dlen csum }
{
    library::wb_tcp_server_hdr(flow, dlen, csum)
}

#[unsafe(no_mangle)]
pub extern "C" fn wb_tcp_push_state(flow: TcpFlow, cl_seq: wb_seq, sv_seq: wb_seq) -> wb_pushed
    ensures { result ≡ pushed_for (pushed flow (seq_from cl_seq) (seq_from sv_seq)) }
{
    library::wb_tcp_push_state(flow, cl_seq, sv_seq)
}

#[unsafe(no_mangle)]
pub extern "C" fn wb_tcp_pop_state(flow: TcpFlow, cl_seq: wb_seq, sv_seq: wb_seq) -> TcpFlow
    ensures { result ≡ popped flow (seq_from cl_seq) (seq_from sv_seq) }
{
    library::wb_tcp_pop_state(flow, cl_seq, sv_seq)
}
