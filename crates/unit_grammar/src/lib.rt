//! The grammar of modules and their units, as a definition, and their heights.
//!
//! Answers which lists of lexemes are modules, what their units are, and where a list that is no
//! module goes wrong. No code. Knows nothing of how a list is read: units hold trees, and no numbers
//! of nodes.
#![tactic(auto)]
