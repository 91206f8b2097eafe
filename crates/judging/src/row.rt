// The rules of the seven rows, row by row.
ghost use Rattle.std.specs.Prelude.{◌≡◌, ℕ, ◌<◌, List};
ghost use Rattle.layout.specs.declared.limits.Row.{Row};
ghost use Rattle.layout.specs.declared.rule.Rule.{Rule};
ghost use Rattle.layout.specs.Rules.{first_broken, each_row};

use layout::Row;

// A row and the place of its first byte, which is so low that the places of the row's fields fit a byte.
#[derive(Clone, Copy, Debug, PartialEq, Eq)]
pub(crate) struct Placed {
    pub(crate) place: u8,
    pub(crate) row: Row,
    ghost low: { place < 200 },
}

// The place of the first rule that a row breaks, by a closure that finds it in one row.
pub(crate) fn first_broken_row<F: Fn(Placed) -> Option<u8>>(
    broken: F,
    rows: &[Row; 7],
) -> Option<u8>
    requires { F.IsAlwaysCallable broken }
    ensures { (rules : ℕ → Row → List Rule) → ((p : _) (found : _) → F.post broken p found → found ≡ first_broken (rules p.place p.row)) → result ≡ first_broken (each_row rules 56 rows.now) }
{
    // A loop: with `enumerate().find_map(..)` neither that each place is low nor the first row's answer got a proof.
    for (i, row) in rows.iter().enumerate() {
        let found = broken(Placed {
            place: 56 + 6 * i as u8,
            row: *row,
        });
        if found.is_some() {
            return found;
        }
    }
    None
}
