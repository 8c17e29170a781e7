// Patterns and keys over tree bytes: what the lowering asks of them, against its definition.
#![tactic(auto)]

pub mod declarators;
pub mod keys;
pub mod moves;
pub mod numbers;
pub mod parts;
pub mod rests;
pub mod search;
pub mod source;
pub mod tally;
