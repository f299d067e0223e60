// The checksum.
ghost use Rattle.std.specs.Prelude.{◌≡◌};
ghost use Rattle.pkt.specs.Answers.{says, csum_answer};
ghost use Rattle.wispbundle.specs.Answers.{sum_for};

use pkt::ipv4;
use pkt::refusal::Refusal;

#[repr(C)]
#[derive(Clone, Copy, Drop)]
pub struct wb_sum {
    pub status: u8,
    pub sum: u16,
}

impl From<Result<u16, Refusal>> for wb_sum {
    ghost from_gives = { λ answer told. told ≡ sum_for (says answer) };

    fn from(answer: Result<u16, Refusal>) -> Self {
        match answer {
            Ok(sum) => wb_sum {
                status: crate::ACCEPTED,
                sum,
            },
            Err(refusal) => wb_sum {
                status: refusal.number(),
                sum: 0,
            },
        }
    }
}

pub fn wb_ip_csum(buf: &[u8]) -> wb_sum
    ensures { result ≡ sum_for (csum_answer buf.now) }
{
    ipv4::ip_csum(buf).into()
}
