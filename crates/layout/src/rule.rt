// A rule of the format, applied to one sheet.

// The place that a refusal names where the rule is broken, and whether it is kept. No Option: a rule that is kept has its place too,
// and the laws of the specs speak of the places of all rules, as where they say that the places rise.
#[derive(Clone, Copy, Debug, PartialEq, Eq)]
pub struct Rule {
    pub place: u8,
    pub kept: bool,
}
