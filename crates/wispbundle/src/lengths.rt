// The answer of a call that writes bytes, or that tells how many there would be.
ghost use Rattle.std.specs.Prelude.{◌≡◌};
ghost use Rattle.pkt.specs.Answers.{says};
ghost use Rattle.wispbundle.specs.Answers.{length_for};

use pkt::refusal::Refusal;

// How many bytes were written, or would be.
#[repr(C)]
#[derive(Clone, Copy, Drop)]
pub struct wb_length {
    pub status: u8,
    pub length: usize,
}

impl From<Result<usize, Refusal>> for wb_length {
    ghost from_gives = { λ answer told. told ≡ length_for (says answer) };

    fn from(answer: Result<usize, Refusal>) -> Self {
        match answer {
            Ok(length) => wb_length {
                status: crate::ACCEPTED,
                length,
            },
            Err(refusal) => wb_length {
                status: refusal.number(),
                length: 0,
            },
        }
    }
}
