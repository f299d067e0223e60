// Writing into a lent buffer, whose other bytes stay.
ghost use Rattle.std.specs.Prelude.{◌≡◌, ◌+◌, ◌≤◌, length, replicate};
ghost use Rattle.pkt.specs.Written.{written, zeros};
ghost use Rattle.packet.specs.Headroom.{placed};

use pkt::copying::copy;

// n times the byte v at the start of dst.
pub(crate) fn fill(dst: &mut [u8], n: usize, v: u8)
    requires { n ≤ length dst.old }
    ensures { dst.new ≡ written (replicate n v) dst.old }
{
    dst[..n].fill(v);
}

// The bytes d from place at on.
#[tactic(auto, using(crate::proofs::Headroom::placed_lent, pkt::proofs::Written::copy_written))]
pub(crate) fn place(buf: &mut [u8], at: usize, d: &[u8])
    requires { at + length d.now ≤ length buf.old }
    ensures { buf.new ≡ placed at d.now buf.old }
{
    copy(d, &mut buf[at..]);
}

// n zero bytes from place at on.
#[tactic(auto, using(crate::proofs::Headroom::placed_lent))]
pub(crate) fn place_zeros(buf: &mut [u8], at: usize, n: usize)
    requires { at + n ≤ length buf.old }
    ensures { buf.new ≡ placed at (zeros n) buf.old }
{
    fill(&mut buf[at..], n, 0);
}
