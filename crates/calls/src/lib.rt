// What a record of bytes asks of a pack: one of five kinds of call, or a refusal.
#![tactic(auto)]

mod call;
mod fields;
mod kinds;
mod parsing;
mod rejection;

pub use call::{Call, Offs};
pub use fields::RECORD;
pub use parsing::parse;
pub use rejection::Rejection;
