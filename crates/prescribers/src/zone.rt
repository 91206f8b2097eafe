// The prescriber of the cell's temperature region.
ghost use Rattle.std.specs.Prelude.{◌≡◌};
ghost use Rattle.prescribers.specs.Meanings.{zone_gives};
ghost use Rattle.prescribers.specs.Lawful.{zone_ranged};

use super::prescriber::Prescriber;
use super::prescription::Prescription;
use reading::{Reading, Region};
use sheet::Sheet;

// It keeps the sheet, whose rows are known to be in range.
#[derive(Clone, Copy, Debug, PartialEq, Eq)]
pub struct Zone {
    sheet: Sheet,
}

impl Zone {
    pub fn new(sheet: &Sheet) -> Zone
        ensures { result.sheet ≡ sheet.now }
    {
        Zone { sheet: *sheet }
    }
}

impl Prescriber for Zone {
    ghost gives = { λ z. zone_gives z.sheet.limits };

    ghost ranged = { λ z. zone_ranged z.sheet };

    fn prescribe(&self, r: &Reading) -> Prescription {
        let region = Region::of(&self.sheet.limits.degrees, r.cell);
        Prescription {
            current: region.current(&self.sheet),
            voltage: region.voltage(&self.sheet),
        }
    }
}
