// Filling and copying lent bytes.
ghost use Rattle.std.specs.Prelude.{◌≡◌, ◌+◌, ◌-◌, ◌≤◌, length, replicate};
ghost use Rattle.std.proofs.lemmas.List.Edits.{sets};
ghost use Rattle.pkt.specs.Written.{zeros};

use pkt::copying::copy;

// Stores v at every place from `from` up to, not including, `to`.
pub(crate) fn fill(b: &mut [u8], from: usize, to: usize, v: u8)
    requires from_le_to { from ≤ to }
    requires to_in_bounds { to ≤ length b.old }
    ensures { b.new ≡ sets b.old from (replicate (to - from) v) }
{
    b[from..to].fill(v);
}

// Zeroes a buffer.
pub(crate) fn clear(b: &mut [u8])
    ensures { b.new ≡ zeros (length b.old) }
{
    b.fill(0);
}

// Copies body into payload from place `at` on. packet has it as `place`, whose promise is in that crate's own word, placed: one function for both
// would be public in pkt, for one line.
pub(crate) fn copy_in(payload: &mut [u8], at: usize, body: &[u8])
    requires { at + length body.now ≤ length payload.old }
    ensures { payload.new ≡ sets payload.old at body.now }
{
    copy(body, &mut payload[at..]);
}
