// What the bytes of a sheet's image mean: its fields, the rules that they keep, and why an image is refused.
#![tactic(auto)]

mod fields;
mod limits;
mod refusal;
mod rule;
mod sum;

pub use fields::{IMAGE, read_limits, word_at};
pub use limits::{Degrees, Levels, Limits, Row, Steps, Timing};
pub use refusal::Refusal;
pub use rule::Rule;
pub use sum::body_sum;
