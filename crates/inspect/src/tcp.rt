// The TCP header, read back.
ghost use Rattle.std.specs.Prelude.{◌≡◌, ◌≤◌, length};
ghost use Rattle.pkt.specs.Answers.{says};
ghost use Rattle.inspect.specs.Tcp.{tcp_of, tcp_read_answer};

use crate::{check, header};
use pkt::ipv4::tcp_hdr;
use pkt::refusal::Refusal;

// What the first 20 bytes say.
#[tactic(auto, unfolding(crate::specs::Tcp::tcp_of))]
fn fields(part: &[u8]) -> tcp_hdr
    requires { 20 ≤ length part.now }
    ensures { result ≡ tcp_of part.now }
{
    tcp_hdr {
        sport: header::be16(part, 0),
        dport: header::be16(part, 2),
        seq: header::be32(part, 4),
        ack: header::be32(part, 8),
        flags: header::be8(part, 13),
    }
}

// The TCP header of a transport part.
pub fn read(part: &[u8]) -> Result<tcp_hdr, Refusal>
    ensures { says result ≡ tcp_read_answer part.now }
{
    if check::tcp_cut(part) {
        return Err(Refusal::Cut);
    }
    Ok(fields(part))
}
