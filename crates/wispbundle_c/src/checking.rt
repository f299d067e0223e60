// The check of a finished packet.
ghost use Rattle.std.specs.Prelude.{◌≡◌};
ghost use Rattle.inspect.specs.Check.{check_answer};
ghost use Rattle.wispbundle.specs.Answers.{checked_for};

use wispbundle::checking as library;
use wispbundle::checking::wb_checked;

#[unsafe(no_mangle)]
pub extern "C" fn wb_check(packet: &[u8]) -> wb_checked
    ensures { result ≡ checked_for (check_answer packet.now) }
{
    library::wb_check(packet)
}
