// Reads a packet, and writes its dump, as of a packet behind 16 bytes of headroom.
#![tactic(auto)]

use packet::Packet;
use pkt::refusal::Refusal;
use std::io;
use std::io::Read;

// The packet of these bytes.
fn packet_of(bytes: &[u8], buf: &mut [u8]) -> Result<Packet, Refusal> {
    let empty = Packet::new(16, buf)?;
    let grown = empty.push_bytes(bytes, buf)?;
    Ok(grown.whole)
}

fn show(rt: &(impl Print + AllocGlobal), p: Packet, buf: &[u8]) -> io::Result<()> {
    let size = p.hex_dump_len(buf).unwrap_or(0);
    let mut out = vec![in rt.alloc(); 0u8; size]?;
    let _ = p.hex_dump(buf, &mut out); // there is room for it
    rt.write_all(&out)
}

// The dump of these bytes; what is refused is not shown.
fn dump(rt: &(impl Print + AllocGlobal), bytes: &[u8]) -> io::Result<()> {
    let mut buf = [0u8; 4112];
    match packet_of(bytes, &mut buf) {
        Ok(p) => show(rt, p, &buf),
        Err(_) => Ok(()),
    }
}

// Reads at most 4,096 bytes, and shows them. A read that fails is the input's end; all that is read has room from the
// start.
fn run(rt: &(impl Print + Input + AllocGlobal)) -> io::Result<()> {
    let mut input = Vec::with_capacity(rt.alloc(), 4096)?;
    let _ = rt.reader().take(4096).read_to_end(&mut input);
    dump(rt, &input)
}

fn main(rt: HostRuntime) {
    let _ = run(&rt); // what cannot be written is not shown
}
