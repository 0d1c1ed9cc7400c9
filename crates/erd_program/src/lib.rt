//! The whole program, from the words of its command line to its exit status, over what it has of the outside.
#![tactic(auto)]

mod commands;
mod files;
mod messages;
mod open_in;
mod program;
mod steps;
mod tasks;
mod world;

pub use files::{Files, WorldFault};
pub use open_in::OpenIn;
pub use program::run_program;
pub use world::World;
