// One datagram put together from its pieces.
ghost use Rattle.std.specs.Prelude.{◌≡◌};
ghost use Rattle.assembly.specs.View.{view};
ghost use Rattle.assembly.specs.Calls.{capacity, map_bytes, progress_answer};
ghost use Rattle.wispbundle.specs.Answers.{rec_of, progress_for};
ghost use Rattle.wispbundle.specs.Calls.{AssemblyOpens, AssemblyTakes};

use assembly::Key;
use wispbundle::assembling as library;
use wispbundle::assembling::{wb_assembly, wb_opened, wb_progress, wb_taken};

#[unsafe(no_mangle)]
pub extern "C" fn wb_assembly_open(key: Key, payload: &mut [u8], map: &mut [u8]) -> wb_opened
    ensures { AssemblyOpens key payload.old map.old result payload.new map.new }
{
    library::wb_assembly_open(key, payload, map)
}

#[unsafe(no_mangle)]
pub extern "C" fn wb_assembly_take(
    before: wb_assembly,
    packet: &[u8],
    payload: &mut [u8],
    map: &mut [u8],
) -> wb_taken
    ensures { AssemblyTakes before payload.old map.old packet.now result payload.new map.new }
{
    library::wb_assembly_take(before, packet, payload, map)
}

#[unsafe(no_mangle)]
pub extern "C" fn wb_assembly_progress(
    before: wb_assembly,
    payload: &[u8],
    map: &[u8],
) -> wb_progress
    ensures { result ≡ progress_for (progress_answer capacity map_bytes (view (rec_of before) payload.now map.now)) }
{
    library::wb_assembly_progress(before, payload, map)
}
