// The limiter that spares a cell whose voltage is low.
ghost use Rattle.std.specs.Prelude.{◌≡◌, refl};
ghost use Rattle.sheet.specs.Charging.{precharge_below, precharge_most};
ghost use Rattle.prescribers.specs.Meanings.{precharged};
ghost use Rattle.prescribers.specs.Lawful.{precharge_lowers, precharge_rises};
ghost use Rattle.std.proofs.Common.{rules};

use super::prescriber::{Limiter, Prescriber};
use super::prescription::Prescription;
use reading::Reading;
use sheet::Sheet;

#[derive(Debug, Drop)]
pub struct Precharge<P: Prescriber> {
    below: P,
    // the cell is precharged as long as its voltage is below this, in mV,
    until: u32,
    // and then with at most this current, in mA
    most: u16,
}

impl<P: Prescriber> Precharge<P> {
    pub fn new(below: P, sheet: &Sheet) -> Precharge<P>
        ensures below { result.below ≡ below }
        ensures until { result.until ≡ precharge_below sheet.now.limits }
        ensures most { result.most ≡ precharge_most sheet.now.limits }
    {
        Precharge {
            below,
            until: sheet.precharge_below(),
            most: sheet.precharge_most(),
        }
    }
}

impl<P: Prescriber> Prescriber for Precharge<P> {
    ghost gives = { λ s r. precharged s.until s.most r (P.Prescriber.gives s.below r) };

    ghost ranged = { Prim.search rules };

    fn prescribe(&self, r: &Reading) -> Prescription {
        let mut p = self.below.prescribe(r);
        if u32::from(r.voltage) < self.until {
            p.current = p.current.min(self.most);
        }
        p
    }
}

impl<P: Prescriber> Limiter for Precharge<P> {
    type Below = P;

    ghost lowered = { λ s. precharged s.until s.most };

    ghost under = { λ s. s.below };

    ghost made = { λ s r. refl };

    ghost lowers = { λ s. precharge_lowers s.until s.most };

    ghost rising = { λ s. precharge_rises s.until s.most };
}
