// Rewritten trees at any depth: a tour of what is met in byte order, by a loop over frames, and the reader. How a pass
// is built on the tour stands at the head of specs/Lib.antt.
#![tactic(auto)]

pub mod class;
pub mod look;
pub mod next;
pub mod plan;
pub mod read;
pub mod seen;
pub mod step;
pub mod tables;
pub mod task;
