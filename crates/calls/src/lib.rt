// The calls that lines of input give.
#![tactic(auto)]

pub mod call;
mod decimal;
pub mod expected;
mod words;
