// The check of a finished packet.
ghost use Rattle.std.specs.Prelude.{◌≡◌};
ghost use Rattle.pkt.specs.Answers.{says};
ghost use Rattle.inspect.specs.Check.{check_answer};
ghost use Rattle.wispbundle.specs.Answers.{checked_for};

use inspect::check;
use inspect::check::Verdict;
use pkt::refusal::Refusal;

// A status of 0 says that the packet is good; no_checksum, that it is UDP with a checksum field of 0.
#[repr(C)]
#[derive(Clone, Copy, Drop)]
pub struct wb_checked {
    pub status: u8,
    pub no_checksum: bool,
}

impl From<Result<Verdict, Refusal>> for wb_checked {
    ghost from_gives = { λ answer told. told ≡ checked_for (says answer) };

    fn from(answer: Result<Verdict, Refusal>) -> Self {
        match answer {
            Ok(Verdict::Good) => wb_checked {
                status: crate::ACCEPTED,
                no_checksum: false,
            },
            Ok(Verdict::NoChecksum) => wb_checked {
                status: crate::ACCEPTED,
                no_checksum: true,
            },
            Err(refusal) => wb_checked {
                status: refusal.number(),
                no_checksum: false,
            },
        }
    }
}

pub fn wb_check(packet: &[u8]) -> wb_checked
    ensures { result ≡ checked_for (check_answer packet.now) }
{
    check::check(packet).into()
}
