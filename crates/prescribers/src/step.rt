// The limiter that cuts the current in steps as the cell fills.
ghost use Rattle.std.specs.Prelude.{◌≡◌, ◌*◌, ◌/◌, ◌≤◌, refl};
ghost use Rattle.prescribers.specs.Meanings.{InSixteenths, steps_reached, step_share, stepped};
ghost use Rattle.std.proofs.Common.{le_trans, le_refl};
ghost use Rattle.prescribers.specs.Shares.{share_le, share_small, share_mono};

use super::prescriber::{Limiter, Prescriber};
use super::prescription::Prescription;
use reading::Reading;
use sheet::{Sheet, Steps, share};

#[derive(Debug, Drop)]
pub struct Step<P: Prescriber> {
    below: P,
    steps: Steps,
    // so the current never rises
    ghost ratios: { InSixteenths steps },
}

// How many of the step voltages the voltage has reached, added up as reading counts the edges: one function of both would be this chain
// under a name, with the contract of its closure besides.
fn count_reached(voltages: &[u16; 4], voltage: u16) -> usize
    ensures value { result ≡ steps_reached voltages.now voltage }
    ensures bound { result ≤ 4 }
{
    voltages
        .iter()
        .map(|step| usize::from(*step <= voltage))
        .sum()
}

// How many sixteenths are left of the current: the ratio of the last step that is reached, and all of it before the first.
fn sixteenths(steps: &Steps, voltage: u16) -> u16
    requires { InSixteenths steps.now }
    ensures value { result ≡ step_share steps.now voltage }
    ensures bound { result ≤ 16 }
{
    match count_reached(&steps.voltages, voltage).checked_sub(1) {
        None => 16,
        Some(last) => u16::from(steps.ratios[last]),
    }
}

impl<P: Prescriber> Step<P> {
    #[tactic(auto, using(crate::proofs::Ratios::in_sixteenths))]
    pub fn new(below: P, sheet: &Sheet) -> Step<P>
        ensures below { result.below ≡ below }
        ensures steps { result.steps ≡ sheet.now.limits.steps }
    {
        Step {
            below,
            steps: sheet.limits.steps,
        }
    }
}

impl<P: Prescriber> Prescriber for Step<P> {
    ghost gives = { λ s r. stepped s.steps r (P.Prescriber.gives s.below r) };

    ghost ranged = { λ s r.
        let p = P.Prescriber.gives s.below r in
        let h = P.Prescriber.ranged s.below r in
        (le_trans (share_le p.current (step_share s.steps r.voltage) (share_small s.steps s.ratios r.voltage)) h.0, h.1) };

    fn prescribe(&self, r: &Reading) -> Prescription {
        let mut p = self.below.prescribe(r);
        p.current = share::<16>(p.current, sixteenths(&self.steps, r.voltage));
        p
    }
}

impl<P: Prescriber> Limiter for Step<P> {
    type Below = P;

    ghost lowered = { λ s. stepped s.steps };

    ghost under = { λ s. s.below };

    ghost made = { λ s r. refl };

    ghost lowers = { λ s r p.
        record {
          current = share_le p.current (step_share s.steps r.voltage) (share_small s.steps s.ratios r.voltage);
          voltage = le_refl p.voltage;
        } };

    ghost rising = { λ s r p q h.
        record {
          current = share_mono p.current q.current (step_share s.steps r.voltage) (step_share s.steps r.voltage) h.current (le_refl (step_share s.steps r.voltage));
          voltage = h.voltage;
        } };
}
