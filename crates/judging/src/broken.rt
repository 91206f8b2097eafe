// The rules of a part of a sheet, one after the other.
ghost use Rattle.std.specs.Prelude.{◌≡◌};
ghost use Rattle.layout.specs.Rules.{first_broken};

use layout::Rule;

// The place of the first rule that is broken.
pub(crate) fn first_broken(rules: &[Rule]) -> Option<u8>
    ensures { result ≡ first_broken rules.now }
{
    rules.iter().find(|rule| !rule.kept).map(|rule| rule.place)
}
