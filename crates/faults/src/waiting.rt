// How long each fault waits before it stands.
ghost use Rattle.std.specs.Prelude.{◌≡◌};
ghost use Rattle.faults.specs.Observed.{fault_delay, fault_delays};
ghost use Rattle.faults.specs.Order.{NoDelayLonger};

use super::fault::Fault;
use sheet::Sheet;
use timing::FAULTS;

impl Fault {
    fn delay(self, sheet: &Sheet) -> u32
        ensures { result ≡ fault_delay sheet.now.limits self }
    {
        sheet.delay(self.timer())
    }
}

// The delay of each fault in milliseconds, in the order of the faults' bits. Under a sheet at least as generous no fault waits for less.
pub fn delays(sheet: &Sheet) -> [u32; FAULTS]
    ensures value { result ≡ fault_delays sheet.now.limits }
    ensures ordered { NoDelayLonger sheet.now.limits result }
{
    // Written out: over ALL each timer is looked up as the program runs, and a new pack takes 670 instructions more by map and 170 more by
    // from_fn.
    [
        Fault::Undervoltage.delay(sheet),
        Fault::Shutdown.delay(sheet),
        Fault::Overvoltage.delay(sheet),
        Fault::OvercurrentCharge.delay(sheet),
        Fault::OvercurrentDischarge.delay(sheet),
        Fault::TooColdCharge.delay(sheet),
        Fault::TooHotCharge.delay(sheet),
        Fault::TooHotDischarge.delay(sheet),
        Fault::DieHot.delay(sheet),
        Fault::Full.delay(sheet),
        Fault::Watchdog.delay(sheet),
        Fault::PermanentHot.delay(sheet),
        Fault::PermanentOvervoltage.delay(sheet),
    ]
}
