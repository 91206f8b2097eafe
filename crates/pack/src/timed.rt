// A sheet, with what a pack asks of it at every reading looked up once.
ghost use Rattle.std.specs.Prelude.{◌≡◌};
ghost use Rattle.pack.specs.Steps.{levels_of, waits_of};

use delays::Timer;
use inforce::ROWS;
use sheet::Sheet;
use timing::FAULTS;

// How long each fault waits, and the level in force.
#[derive(Clone, Copy, Debug, PartialEq, Eq)]
pub struct Waits {
    // the delay of each fault, in ms
    pub faults: [u32; FAULTS],
    // the transition delay, in ms
    pub transition: u32,
}

#[derive(Clone, Copy, Debug, PartialEq, Eq)]
pub struct TimedSheet {
    pub sheet: Sheet,
    pub waits: Waits,
    // the over-voltage level of each row, in mV
    pub levels: [u16; ROWS],
    ghost timed: { waits ≡ waits_of sheet.limits },
    ghost levelled: { levels ≡ levels_of sheet.limits },
}

impl TimedSheet {
    pub(crate) fn new(sheet: Sheet) -> TimedSheet
        ensures { result.sheet ≡ sheet }
    {
        TimedSheet {
            sheet,
            waits: Waits {
                faults: faults::delays(&sheet),
                transition: sheet.delay(Timer::Transition),
            },
            levels: levels(&sheet),
        }
    }
}

// The over-voltage level of each row.
fn levels(sheet: &Sheet) -> [u16; ROWS]
    ensures { result ≡ levels_of sheet.now.limits }
{
    sheet.limits.rows.map(|row| row.level)
}
