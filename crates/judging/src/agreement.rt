// The fields that must agree with each other.
ghost use Rattle.std.specs.Prelude.{◌≡◌, ◌+◌, ◌<◌, length, pos, Ok, int_le, slice_index_or};
ghost use Rattle.layout.specs.declared.refusal.Refusal.TheVariants.{Conflict};
ghost use Rattle.layout.specs.Rules.{level_conflicts, edge_conflicts, row_conflicts, step_conflicts};
ghost use Rattle.layout.specs.Decoded.{refuse, conflicts};

use super::broken::first_broken;
use super::row::{Placed, first_broken_row};
use layout::{Levels, Limits, Refusal, Rule, Steps};
use std::array;

fn level_conflicts(l: &Levels) -> [Rule; 1]
    ensures { result ≡ level_conflicts l.now }
{
    [Rule {
        place: 24,
        kept: l.trip <= l.release,
    }]
}

// Each edge after the first, which stands at 44, is not below the one before it.
fn edge_conflicts(edges: &[i8; 8]) -> [Rule; 7]
    ensures { result ≡ edge_conflicts edges.now }
{
    array::from_fn(|i| Rule {
        place: 45 + i as u8,
        kept: edges[i] <= edges[i + 1],
    })
}

fn row_conflicts(overdrop: u16, placed: Placed) -> [Rule; 2]
    ensures { result ≡ row_conflicts overdrop placed.place placed.row }
{
    [
        Rule {
            place: placed.place + 2,
            kept: placed.row.voltage <= placed.row.level,
        },
        Rule {
            place: placed.place + 4,
            kept: overdrop <= placed.row.level,
        },
    ]
}

// The voltages may not fall and the ratios may not rise: one closure over the six places would have to ask at each which it is.
fn step_conflicts(s: &Steps) -> [Rule; 6]
    ensures { result ≡ step_conflicts s.now }
{
    let [a, b, c, d] = s.voltages;
    let [e, f, g, h] = s.ratios;
    [
        Rule {
            place: 100,
            kept: a <= b,
        },
        Rule {
            place: 102,
            kept: b <= c,
        },
        Rule {
            place: 104,
            kept: c <= d,
        },
        Rule {
            place: 107,
            kept: f <= e,
        },
        Rule {
            place: 108,
            kept: g <= f,
        },
        Rule {
            place: 109,
            kept: h <= g,
        },
    ]
}

// The parts stand in the order of the image, as in `check_ranges`.
pub(crate) fn check_agreement(l: &Limits) -> Result<(), Refusal>
    ensures { result ≡ conflicts l.now }
{
    let front = first_broken(&level_conflicts(&l.levels)).or(first_broken(&edge_conflicts(
        &l.degrees.edges,
    )));
    let overdrop = l.levels.overdrop;
    let rows = first_broken_row(
        |placed| first_broken(&row_conflicts(overdrop, placed)),
        &l.rows,
    );
    let steps = first_broken(&step_conflicts(&l.steps));
    let broken = front.or(rows).or(steps);
    broken.map_or(Ok(()), |place| Err(Refusal::Conflict(place)))
}
