// Captures.
ghost use Rattle.std.specs.Prelude.{length};
ghost use Rattle.pkt.specs.Answers.{fitting};
ghost use Rattle.pcap.specs.Pcap.{file_header};
ghost use Rattle.wispbundle.specs.Calls.{Writes, Records};

use crate::lengths::wb_length;

pub fn wb_pcap_header(out: &mut [u8]) -> wb_length
    ensures { Writes (fitting 24 (length out.old)) file_header out.old result out.new }
{
    pcap::write_header(out).into()
}

pub fn wb_pcap_record(sec: u32, usec: u32, packet: &[u8], out: &mut [u8]) -> wb_length
    ensures { Records sec usec packet.now out.old result out.new }
{
    pcap::write_record(sec, usec, packet, out).into()
}
