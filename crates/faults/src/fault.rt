// The faults that a pack is watched for.
ghost use Rattle.std.specs.Prelude.{◌≡◌, ◌<◌};
ghost use Rattle.faults.specs.Faults.{bit_of, timer_of};

use delays::Timer;
use timing::FAULTS;

// Declared in the order of their bits. A permanent fault is never released.
#[derive(Clone, Copy, Debug, PartialEq, Eq)]
pub enum Fault {
    Undervoltage,
    Shutdown,
    Overvoltage,
    OvercurrentCharge,
    OvercurrentDischarge,
    TooColdCharge,
    TooHotCharge,
    TooHotDischarge,
    DieHot,
    Full,
    Watchdog,
    PermanentHot,
    PermanentOvervoltage,
}

// In the order of their bits.
pub(crate) const ALL: [Fault; FAULTS] = [
    Fault::Undervoltage,
    Fault::Shutdown,
    Fault::Overvoltage,
    Fault::OvercurrentCharge,
    Fault::OvercurrentDischarge,
    Fault::TooColdCharge,
    Fault::TooHotCharge,
    Fault::TooHotDischarge,
    Fault::DieHot,
    Fault::Full,
    Fault::Watchdog,
    Fault::PermanentHot,
    Fault::PermanentOvervoltage,
];

impl Fault {
    pub(crate) fn bit(self) -> usize
        ensures value { result ≡ bit_of self }
        ensures bound { result < FAULTS }
    {
        self as usize
    }

    // The timer that the fault waits for before it stands.
    pub(crate) fn timer(self) -> Timer
        ensures { result ≡ timer_of self }
    {
        match self {
            Fault::Undervoltage => Timer::Undervoltage,
            Fault::Shutdown => Timer::Shutdown,
            Fault::Overvoltage => Timer::Overvoltage,
            Fault::OvercurrentCharge | Fault::OvercurrentDischarge => Timer::Overcurrent,
            Fault::TooColdCharge | Fault::TooHotCharge => Timer::Temperature,
            Fault::TooHotDischarge | Fault::DieHot => Timer::Temperature,
            Fault::Full => Timer::Full,
            Fault::Watchdog => Timer::Watchdog,
            Fault::PermanentHot | Fault::PermanentOvervoltage => Timer::Permanent,
        }
    }
}
