// Whether the faults that stand block a switch.
ghost use Rattle.std.specs.Prelude.{◌≡◌, Decides};
ghost use Rattle.faults.specs.Blocking.{blocks, blocked, SomeBlocks};
ghost use Rattle.faults.specs.Order.{BlocksWithFewer};

use super::fault::{ALL, Fault};
use timing::FAULTS;

// The two switches between the cell and its terminals.
#[derive(Clone, Copy, Debug, PartialEq, Eq)]
pub enum Switch {
    Charge,
    Discharge,
}

impl Fault {
    // The fault keeps the switch off while it stands.
    fn blocks(self, switch: Switch) -> bool
        ensures { result ≡ blocks switch self }
    {
        match switch {
            Switch::Charge => !matches!(
                self,
                Fault::Undervoltage | Fault::OvercurrentDischarge | Fault::TooHotDischarge
            ),
            Switch::Discharge => matches!(
                self,
                Fault::Undervoltage
                    | Fault::Shutdown
                    | Fault::OvercurrentDischarge
                    | Fault::TooHotDischarge
                    | Fault::DieHot
                    | Fault::PermanentHot
                    | Fault::PermanentOvervoltage
            ),
        }
    }
}

// The faults that stand keep the switch off.
pub fn is_blocked(switch: Switch, standing: &[bool; FAULTS]) -> bool
    ensures value { result ≡ blocked (blocks switch) standing.now }
    ensures exact { Decides result (SomeBlocks (blocks switch) standing.now) }
    ensures ordered { BlocksWithFewer (blocks switch) standing.now result }
{
    ALL.iter()
        .any(|fault| fault.blocks(switch) && standing[fault.bit()])
}
