// A talk with a mouse, as text.
#![tactic(auto)]

pub mod exchange;
mod fault;
mod number;
mod parse;
mod step;
