// The refusal of a pair that no sheet could hold.
ghost use Rattle.std.specs.Prelude.{◌≡◌};
ghost use Rattle.prescribers.specs.Flats.{number_of};

use thiserror::Error;

#[derive(Clone, Copy, Debug, PartialEq, Eq, Error)]
#[error("the current or the voltage is out of range")]
pub struct OutOfRange;

// Its number among the refusals.
impl From<OutOfRange> for u8 {
    ghost from_gives = { λ r n. n ≡ number_of r };

    fn from(_refusal: OutOfRange) -> u8 {
        9
    }
}
