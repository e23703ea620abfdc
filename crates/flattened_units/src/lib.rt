//! When nodes of a flat module are what the units of a module write, unit by unit.
//!
//! No code: the definitions say where names lead behind each unit, and what is asked of it. Knows
//! nothing of how nodes are built, and of what they mean.
#![tactic(auto)]
