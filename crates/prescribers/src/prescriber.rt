// What a prescriber owes, and what one owes besides that stands on another.
ghost use Rattle.std.specs.Prelude.{◌≡◌};
ghost use Rattle.reading.specs.declared.reading.Reading.{Reading};
ghost use Rattle.prescribers.specs.declared.prescription.Prescription.{Prescription};
ghost use Rattle.prescribers.specs.Pairs.{AtMost, InRange};

use super::prescription::Prescription;
use reading::Reading;

// A prescriber refuses nothing and changes nothing: it only answers.
pub trait Prescriber {
    // The pair for each reading: the whole meaning of a prescriber.
    ghost gives: { Self → Reading → Prescription };

    fn prescribe(&self, r: &Reading) -> Prescription
        ensures { result ≡ gives self.now r.now };

    ghost ranged: { (s : Self) (r : Reading) → InRange (gives s r) };
}

// A prescriber that stands on another one and lowers what that one gives.
pub trait Limiter: Prescriber {
    type Below: Prescriber;

    // What becomes of a pair that the one below gives at a reading.
    ghost lowered: { Self → Reading → Prescription → Prescription };

    ghost under: { Self → Self.Below };

    // It has no other meaning than what it makes of the pair from below,
    ghost made: { (s : Self) (r : Reading) → Self.Prescriber.gives s r ≡ lowered s r (Self.Below.Prescriber.gives (under s) r) };

    // it never gives more than that pair,
    ghost lowers: { (s : Self) (r : Reading) (p : Prescription) → AtMost (lowered s r p) p };

    // and more below never makes it give less.
    ghost rising: { (s : Self) (r : Reading) (p q : Prescription) → AtMost p q → AtMost (lowered s r p) (lowered s r q) };
}
