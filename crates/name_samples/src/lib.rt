//! What no clause says of what modules are to each other, over a few names: tests alone.
//!
//! That checks of modules answer where there is memory is shown by the program's families.
#![tactic(auto)]

#[cfg(test)]
mod graphs;
#[cfg(test)]
mod modules;
