// Bytes that are copied into a lent buffer.
ghost use Rattle.std.specs.Prelude.{◌≡◌, length, take};
ghost use Rattle.pkt.specs.Written.{written};

// Copies src to the start of dst, as far as there is room. What lies behind it in dst stays.
pub fn copy(src: &[u8], dst: &mut [u8])
    ensures { dst.new ≡ written (take (length dst.old) src.now) dst.old }
{
    let n = src.len();
    let room = dst.len();
    if n <= room {
        dst[..n].copy_from_slice(src);
    } else {
        dst.copy_from_slice(&src[..room]);
    }
}
