// The hex dump of a packet.
ghost use Rattle.std.specs.Prelude.{◌≡◌, length};
ghost use Rattle.pkt.specs.Answers.{gives};
ghost use Rattle.packet.specs.Answers.{if_valid};
ghost use Rattle.packet.specs.Dump.{dump_of};
ghost use Rattle.wispbundle.specs.Answers.{length_for};
ghost use Rattle.wispbundle.specs.Calls.{Dumps};

use crate::lengths::wb_length;
use packet::Packet;

pub fn wb_hex_dump_len(packet: Packet, buf: &[u8]) -> wb_length
    ensures { result ≡ length_for (if_valid packet (length buf.now) (gives (length (dump_of packet buf.now)))) }
{
    packet.hex_dump_len(buf).into()
}

pub fn wb_hex_dump(packet: Packet, buf: &[u8], out: &mut [u8]) -> wb_length
    ensures { Dumps packet buf.now out.old result out.new }
{
    packet.hex_dump(buf, out).into()
}
