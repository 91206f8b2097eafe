ghost use Rattle.std.specs.Prelude.{◌↔◌, IsTrue};
ghost use Rattle.order.specs.Generous.{Generous};
ghost use Rattle.order.specs.Laws.{Ordered, Follows};

use super::fields::{
    degrees_in_order, faults_in_order, levels_no_higher, levels_no_lower, precharge_in_order,
    steps_in_order,
};
use super::zones::zones_in_order;
use sheet::Sheet;

// Whether sheet b is at least as generous as sheet a.
#[tactic(auto, using(crate::proofs::Ordering::ordered))]
pub fn at_least_as_generous(b: &Sheet, a: &Sheet) -> bool
    ensures decides { IsTrue result ↔ Generous b.now.limits a.now.limits }
    ensures ordered { Ordered b.now.limits a.now.limits }
    ensures follows { IsTrue result → Follows b.now.limits a.now.limits }
{
    let (loose, tight) = (&b.limits, &a.limits);
    levels_no_higher(&loose.levels, &tight.levels)
        && levels_no_lower(&loose.levels, &tight.levels)
        && precharge_in_order(b, a)
        && steps_in_order(&loose.steps, &tight.steps)
        && faults_in_order(loose.timing.enabled, tight.timing.enabled)
        && delays::sets_no_lower(tight.timing.delaycfg, loose.timing.delaycfg)
        && degrees_in_order(&loose.degrees, &tight.degrees)
        && zones_in_order(b, a)
}
