// Why a record is refused.
ghost use Rattle.std.specs.Prelude.{◌≡◌};
ghost use Rattle.calls.specs.Rejections.{number_of};

use thiserror::Error;

// The numbers go on from those of a sheet's refusals.
#[derive(Clone, Copy, Debug, PartialEq, Eq, Error)]
pub enum Rejection {
    // the first byte is the letter of no kind
    #[error("the first byte is the letter of no kind of record")]
    Letter = 7,
    // a byte or a bit without a meaning is set
    #[error("a byte or a bit without a meaning is set")]
    Spare = 8,
    // the elapsed time, the voltage or the host limit is out of its range
    #[error("the elapsed time, the voltage or the host limit is out of its range")]
    Range = 9,
    // a clear while a switch is not held off: the pack alone can tell
    #[error("a clear while a switch is not held off")]
    Live = 10,
    // the record has another length than 12
    #[error("the record has another length than 12 bytes")]
    Length = 11,
}

impl From<Rejection> for u8 {
    ghost from_gives = { λ rejection number. number ≡ number_of rejection };

    fn from(rejection: Rejection) -> u8 {
        rejection as u8
    }
}
