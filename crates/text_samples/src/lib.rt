//! What no clause says of the crates from lists to trees, over small texts: tests alone.
//!
//! They stand here, and not in the crates, since a crate with tests is proved twice. Each crate is
//! called as its callers call it, once at least with ample memory where a call can want some.
#![tactic(auto)]

#[cfg(test)]
mod lexemes;
#[cfg(test)]
mod lists;
#[cfg(test)]
mod outside;
#[cfg(test)]
mod symbols;
#[cfg(test)]
mod texts;
#[cfg(test)]
mod trees;
