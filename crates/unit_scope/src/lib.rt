//! What is found of names in the units of a text, and what is known behind them.
//!
//! Reads a module with those that are nested in it, over the modules that it names. Knows nothing of what a
//! module is to others.
#![tactic(auto)]

mod declaring;
mod passing;
mod reader;
mod reading;
mod units;

pub use reader::ModuleReader;
