// What a pack answers to a call: twelve bytes, and the line that tells them.
#![tactic(auto)]

mod answer;
mod numbers;

pub use answer::Answer;
pub use numbers::AnswerNumbers;
