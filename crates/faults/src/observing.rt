// What the rule of each fault sees of a reading.
ghost use Rattle.std.specs.Prelude.{◌≡◌};
ghost use Rattle.faults.specs.Observed.{observation, observations};
ghost use Rattle.faults.specs.Order.{AllTighter};

use super::fault::Fault;
use reading::Prepared;
use sheet::{Limits, Sheet};
use timing::{FAULTS, Observation};

impl Fault {
    fn observation(self, limits: &Limits, p: &Prepared) -> Observation
        ensures { result ≡ observation limits.now p.now self }
    {
        Observation {
            elapsed: p.reading.elapsed,
            trips: self.is_enabled(limits) && self.is_tripped(limits, p),
            releases: self.is_released(limits, p),
        }
    }
}

// What each fault is to be timed by, in the order of the faults' bits. A sheet at least as generous observes nothing that is tighter.
pub fn observe(sheet: &Sheet, p: &Prepared) -> [Observation; FAULTS]
    ensures value { result ≡ observations sheet.now.limits p.now }
    ensures ordered { AllTighter sheet.now.limits p.now result }
{
    let limits = &sheet.limits;
    // Written out: by `ALL.map` each rule is looked up as the program runs. When it was tried, a record took 426 instructions more (1,116
    // in place of 690), past the 600 of the C program.
    [
        Fault::Undervoltage.observation(limits, p),
        Fault::Shutdown.observation(limits, p),
        Fault::Overvoltage.observation(limits, p),
        Fault::OvercurrentCharge.observation(limits, p),
        Fault::OvercurrentDischarge.observation(limits, p),
        Fault::TooColdCharge.observation(limits, p),
        Fault::TooHotCharge.observation(limits, p),
        Fault::TooHotDischarge.observation(limits, p),
        Fault::DieHot.observation(limits, p),
        Fault::Full.observation(limits, p),
        Fault::Watchdog.observation(limits, p),
        Fault::PermanentHot.observation(limits, p),
        Fault::PermanentOvervoltage.observation(limits, p),
    ]
}
