// What the walk carries, looks up and hands out: all of the emitters that need not call one another.
#![tactic(auto)]

pub mod hand;
pub mod helpers;
pub mod literal;
pub mod look;
pub mod modes;
pub mod pieces;
pub mod place;
pub mod reaches;
pub mod stems;
pub mod target;
pub mod views;
pub mod walk;
pub mod written;

pub use tree::kinds;
