// Devices: a pickup board, and a cable that any device can stand behind.
#![tactic(auto)]

pub mod board;
pub mod cable;
