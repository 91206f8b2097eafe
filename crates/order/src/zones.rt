// What two sheets have at a temperature, degree by degree. A sheet's edges are whole degrees, so nothing changes between two degrees.
ghost use Rattle.std.specs.Prelude.{◌≡◌, ◌<◌, ◌↔◌, IsTrue, pos, ◌-ℤ◌, ◌*ℤ◌};
ghost use Rattle.order.specs.Generous.{NoLowerAt};
ghost use Rattle.order.specs.Parts.{AreZonesInOrder};

use reading::Region;
use sheet::Sheet;

// The k-th whole degree from -128 on, in 1/256 degree.
fn degree_at(k: u16) -> i16
    requires { k < 256 }
    ensures { result ≡ (pos k -ℤ pos 128) *ℤ pos 256 }
{
    (k as i16 - 128) * 256
}

// Whether b gives no less than a, and has no lower a level, at a temperature.
fn zone_in_order(b: &Sheet, a: &Sheet, cell: i16) -> bool
    ensures { IsTrue result ↔ NoLowerAt b.now.limits a.now.limits cell }
{
    let loose = Region::of(&b.limits.degrees, cell);
    let tight = Region::of(&a.limits.degrees, cell);
    tight.current(a) <= loose.current(b)
        && tight.voltage(a) <= loose.voltage(b)
        && tight.level(a) <= loose.level(b)
}

// The degrees are counted from -128 on, since the library's lemmas on ranges are about unsigned numbers.
pub(crate) fn zones_in_order(b: &Sheet, a: &Sheet) -> bool
    ensures { IsTrue result ↔ AreZonesInOrder b.now.limits a.now.limits }
{
    (0..256).all(|k| zone_in_order(b, a, degree_at(k)))
}
