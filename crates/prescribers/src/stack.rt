// The usual stack of a sheet: its zones, then its steps, then its precharge.
ghost use Rattle.std.specs.Prelude.{◌≡◌};
ghost use Rattle.reading.specs.declared.reading.Reading.{Reading};
ghost use Rattle.prescribers.specs.Usual.{usual_gives, stack_gives, Ordered};

use super::precharge::Precharge;
use super::prescriber::Prescriber;
use super::prescription::Prescription;
use super::step::Step;
use super::zone::Zone;
use reading::Reading;
use sheet::Sheet;

pub type UsualStack = Precharge<Step<Zone>>;

// The stack that a pack has unless it is told otherwise. That of a sheet at least as generous never gives less.
pub fn usual(sheet: &Sheet) -> UsualStack
    ensures meaning { (r : Reading) → stack_gives result r ≡ usual_gives sheet.now.limits r }
    ensures ordered { Ordered sheet.now (stack_gives result) }
{
    Precharge::new(Step::new(Zone::new(sheet), sheet), sheet)
}

// What the usual stack of a sheet prescribes at one reading.
pub fn usual_prescription(sheet: &Sheet, r: &Reading) -> Prescription
    ensures { result ≡ usual_gives sheet.now.limits r.now }
{
    usual(sheet).prescribe(r)
}
