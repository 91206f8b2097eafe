// The order of single fields. Everywhere b is the loose sheet and a the tight one: each test looks at another part of both, so a struct of the pair
// would be made only to be taken apart.
ghost use Rattle.std.specs.Prelude.{◌≡◌, ◌==◌, ◌/◌, ◌%◌, ◌^◌, ◌<◌, ◌↔◌, IsTrue};
ghost use Rattle.order.specs.Parts.{AreLevelsNoHigher, AreLevelsNoLower, AreDegreesInOrder, IsPrechargeInOrder, AreStepsInOrder, AreFaultsInOrder};

use sheet::{Degrees, Levels, Sheet, Steps};

pub(crate) fn levels_no_higher(b: &Levels, a: &Levels) -> bool
    ensures { IsTrue result ↔ AreLevelsNoHigher b.now a.now }
{
    let voltages = b.trip <= a.trip && b.release <= a.release && b.shutdown <= a.shutdown;
    let drops = b.overdrop <= a.overdrop && b.fulldrop <= a.fulldrop;
    voltages && drops && b.fullcurrent <= a.fullcurrent
}

pub(crate) fn levels_no_lower(b: &Levels, a: &Levels) -> bool
    ensures { IsTrue result ↔ AreLevelsNoLower b.now a.now }
{
    let voltages = a.permanent <= b.permanent && a.full <= b.full;
    let currents = a.charging <= b.charging && a.discharging <= b.discharging;
    voltages && currents
}

pub(crate) fn degrees_in_order(b: &Degrees, a: &Degrees) -> bool
    ensures { IsTrue result ↔ AreDegreesInOrder b.now a.now }
{
    let edges = b.edges[0] <= a.edges[0] && a.edges[7] <= b.edges[7];
    let limits = a.hot <= b.hot && a.die <= b.die && a.permanent <= b.permanent;
    edges && limits && b.hysteresis <= a.hysteresis
}

pub(crate) fn precharge_in_order(b: &Sheet, a: &Sheet) -> bool
    ensures { IsTrue result ↔ IsPrechargeInOrder b.now.limits a.now.limits }
{
    b.pre_qual_volt() <= a.pre_qual_volt() && a.precharge_most() <= b.precharge_most()
}

pub(crate) fn steps_in_order(b: &Steps, a: &Steps) -> bool
    ensures { IsTrue result ↔ AreStepsInOrder b.now a.now }
{
    // By index: the definition goes by k, and a zip of both tables of both sheets would be four iterators.
    (0..4).all(|k| a.voltages[k] <= b.voltages[k] && a.ratios[k] <= b.ratios[k])
}

// The bit that faults asks for too: a method of both would be this line, with a contract and an edit of its own.
fn is_enabled(word: u16, fault: u32) -> bool
    requires { fault < 13 }
    ensures { result ≡ (word / 2 ^ fault % 2 == 1) }
{
    (word >> fault) % 2 == 1
}

// Whether each fault that the enable word b enables is enabled by a.
pub(crate) fn faults_in_order(b: u16, a: u16) -> bool
    ensures { IsTrue result ↔ AreFaultsInOrder b a }
{
    (0..13).all(|fault| !is_enabled(b, fault) || is_enabled(a, fault))
}
