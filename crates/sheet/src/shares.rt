// A current cut to some of the parts that it is divided into.
ghost use Rattle.std.specs.Prelude.{◌≡◌, ◌*◌, ◌/◌, ◌<◌, ◌≤◌};

// So many WHOLEths of a current, rounded down.
pub fn share<const WHOLE: u16>(current: u16, parts: u16) -> u16
    requires { (parts ≤ WHOLE) × (0 < WHOLE) }
    ensures { result ≡ current * parts / WHOLE }
{
    (u32::from(current) * u32::from(parts) / u32::from(WHOLE)) as u16
}
