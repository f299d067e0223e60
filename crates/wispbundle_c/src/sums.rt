// The checksum.
ghost use Rattle.std.specs.Prelude.{◌≡◌};
ghost use Rattle.pkt.specs.Answers.{csum_answer};
ghost use Rattle.wispbundle.specs.Answers.{sum_for};

use wispbundle::sums as library;
use wispbundle::sums::wb_sum;

#[unsafe(no_mangle)]
pub extern "C" fn wb_ip_csum(buf: &[u8]) -> wb_sum
    ensures { result ≡ sum_for (csum_answer buf.now) }
{
    library::wb_ip_csum(buf)
}
