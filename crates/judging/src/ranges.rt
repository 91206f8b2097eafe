// The range of each field.
ghost use Rattle.std.specs.Prelude.{◌≡◌, ◌+◌, ◌%◌, ◌<◌, Ok, ◌==◌};
ghost use Rattle.layout.specs.declared.refusal.Refusal.TheVariants.{Range};
ghost use Rattle.layout.specs.Rules.{level_ranges, degree_ranges, row_ranges, step_ranges, timing_ranges};
ghost use Rattle.layout.specs.Decoded.{refuse, ranges};

use super::broken::first_broken;
use super::row::{Placed, first_broken_row};
use layout::{Degrees, Levels, Limits, Refusal, Rule, Steps, Timing};

const VOLTAGE: u16 = 5000;

const CURRENT: u16 = 20000;

// Here and below a table of rules stays written out, as in the specs: each rule speaks of a field by name or has a bound of its own,
// and a closure over the places would hide which.
fn level_ranges(l: &Levels) -> [Rule; 11]
    ensures { result ≡ level_ranges l.now }
{
    [
        Rule {
            place: 22,
            kept: l.trip <= VOLTAGE,
        },
        Rule {
            place: 24,
            kept: l.release <= VOLTAGE,
        },
        Rule {
            place: 26,
            kept: l.shutdown <= VOLTAGE,
        },
        Rule {
            place: 28,
            kept: l.overdrop <= VOLTAGE,
        },
        Rule {
            place: 30,
            kept: l.permanent <= VOLTAGE,
        },
        Rule {
            place: 32,
            kept: l.charging <= CURRENT,
        },
        Rule {
            place: 34,
            kept: l.discharging <= CURRENT,
        },
        Rule {
            place: 36,
            kept: l.full <= VOLTAGE,
        },
        Rule {
            place: 38,
            kept: l.fulldrop <= VOLTAGE,
        },
        Rule {
            place: 40,
            kept: l.fullcurrent <= CURRENT,
        },
        Rule {
            place: 42,
            kept: (l.chargecfg >> 13) % 2 == 0,
        },
    ]
}

fn degree_ranges(d: &Degrees) -> [Rule; 1]
    ensures { result ≡ degree_ranges d.now }
{
    [Rule {
        place: 55,
        kept: d.hysteresis <= 20,
    }]
}

fn row_ranges(placed: Placed) -> [Rule; 3]
    ensures { result ≡ row_ranges placed.place placed.row }
{
    [
        Rule {
            place: placed.place,
            kept: placed.row.current <= CURRENT,
        },
        Rule {
            place: placed.place + 2,
            kept: placed.row.voltage <= VOLTAGE,
        },
        Rule {
            place: placed.place + 4,
            kept: placed.row.level <= VOLTAGE,
        },
    ]
}

// Two tables in one array: a closure over the eight places would have to ask at each which table it is in.
fn step_ranges(s: &Steps) -> [Rule; 8]
    ensures { result ≡ step_ranges s.now }
{
    [
        Rule {
            place: 98,
            kept: s.voltages[0] <= VOLTAGE,
        },
        Rule {
            place: 100,
            kept: s.voltages[1] <= VOLTAGE,
        },
        Rule {
            place: 102,
            kept: s.voltages[2] <= VOLTAGE,
        },
        Rule {
            place: 104,
            kept: s.voltages[3] <= VOLTAGE,
        },
        Rule {
            place: 106,
            kept: s.ratios[0] <= 16,
        },
        Rule {
            place: 107,
            kept: s.ratios[1] <= 16,
        },
        Rule {
            place: 108,
            kept: s.ratios[2] <= 16,
        },
        Rule {
            place: 109,
            kept: s.ratios[3] <= 16,
        },
    ]
}

fn timing_ranges(t: &Timing) -> [Rule; 1]
    ensures { result ≡ timing_ranges t.now }
{
    [Rule {
        place: 112,
        kept: t.enabled >> 13 == 0,
    }]
}

// The parts stand in the order of the image, so that the first broken place is that of the first part that has one.
pub(crate) fn check_ranges(l: &Limits) -> Result<(), Refusal>
    ensures { result ≡ ranges l.now }
{
    let front = first_broken(&level_ranges(&l.levels)).or(first_broken(&degree_ranges(&l.degrees)));
    let rows = first_broken_row(|placed| first_broken(&row_ranges(placed)), &l.rows);
    let back = first_broken(&step_ranges(&l.steps)).or(first_broken(&timing_ranges(&l.timing)));
    let broken = front.or(rows).or(back);
    broken.map_or(Ok(()), |place| Err(Refusal::Range(place)))
}
