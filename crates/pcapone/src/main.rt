// Reads a payload, and writes a capture with the first echo of a flow that carries it.
#![tactic(auto)]

mod capture;

use std::io;
use std::io::Read;

// Reads at most 4,097 bytes, and writes their capture. A read that fails is the input's end; all that is read has room
// from the start.
fn run(rt: &(impl Print + Eprint + Input + AllocGlobal)) -> io::Result<()> {
    let mut input = Vec::with_capacity(rt.alloc(), 4097)?;
    let _ = rt.reader().take(4097).read_to_end(&mut input);
    let mut out = [0u8; 4164];
    match capture::capture(&input, &mut out) {
        Some(size) => rt.write_all(&out[..size]),
        None => eprintln!(rt; "pcapone: more than 4,096 bytes of input"),
    }
}

fn main(rt: HostRuntime) {
    let _ = run(&rt); // what cannot be written is not said
}
