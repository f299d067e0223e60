// The capture that the program writes, as a function on slices.
ghost use Rattle.std.specs.Prelude.{◌≡◌, ◌+◌, ◌≤◌, length};
ghost use Rattle.pkt.specs.Answers.{most_bytes};
ghost use Rattle.pkt.specs.Written.{written};
ghost use Rattle.pcapone.specs.Capture.{file_of, Captures};

use ezpkt::icmp4::IcmpFlow;

const CLIENT: u32 = 0x0a000001;

const SERVER: u32 = 0x0a000002;

// A capture of one packet, at time 0.
fn put_file(packet: &[u8], out: &mut [u8])
    requires { (length packet.now ≤ most_bytes) × (40 + length packet.now ≤ length out.old) }
    ensures { out.new ≡ written (file_of packet.now) out.old }
{
    // both fit, and are not refused
    let _ = pcap::write_header(out);
    let _ = pcap::write_record(0, 0, packet, &mut out[24..]);
}

// The program's output for this input at the start of out, and how many bytes it has: none for more than 4,096 bytes of input, or where there is
// no room for the capture.
pub fn capture(input: &[u8], out: &mut [u8]) -> Option<usize>
    ensures { Captures input.now out.old result out.new }
{
    let n = input.len();
    if n > 4096 {
        return None;
    }
    let size = 68 + n;
    if out.len() < size {
        return None;
    }
    let mut packet = [0u8; 4124];
    let _ = IcmpFlow::new(CLIENT, SERVER).echo(input, &mut packet); // it fits, too
    let end = 28 + n;
    put_file(&packet[0..end], out);
    Some(size)
}
