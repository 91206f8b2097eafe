// The prescriber that gives one pair at every reading.
ghost use Rattle.std.specs.Prelude.{◌≡◌};
ghost use Rattle.prescribers.specs.Pairs.{InRange};

use super::out_of_range::OutOfRange;
use super::prescriber::Prescriber;
use super::prescription::Prescription;
use reading::Reading;

// The ranges of a sheet's currents, in mA, and voltages, in mV.
const MOST_CURRENT: u16 = 20_000;

const MOST_VOLTAGE: u16 = 5_000;

#[derive(Clone, Copy, Debug, PartialEq, Eq)]
pub struct Flat {
    pair: Prescription,
    ghost ranged: { InRange pair },
}

impl Flat {
    ghost use Rattle.prescribers.specs.Flats.{flat_of, pair_in};

    // There is no prescriber of a pair outside the sheet's ranges.
    pub fn new(current: u16, voltage: u16) -> Result<Flat, OutOfRange>
        ensures { pair_in result ≡ flat_of current voltage }
    {
        if current <= MOST_CURRENT && voltage <= MOST_VOLTAGE {
            Ok(Flat {
                pair: Prescription { current, voltage },
            })
        } else {
            Err(OutOfRange)
        }
    }
}

impl Prescriber for Flat {
    ghost use Rattle.prescribers.specs.Flats.{flat_gives};

    ghost gives = { λ f. flat_gives f.pair };

    ghost ranged = { λ f r. f.ranged };

    fn prescribe(&self, _r: &Reading) -> Prescription {
        self.pair
    }
}
