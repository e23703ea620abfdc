//! Which rules of levels forms and symbols have, how many arguments names take, and of which levels
//! parameters are.
//!
//! Answers it of one form, symbol or meaning at a time. Knows nothing of trees, and of what names
//! stand for.
#![tactic(auto)]

mod parameters;
mod places;
mod rules;
mod symbols;

pub use parameters::{declared_level, greatest_level};
pub use places::{operator_places, order_of, places_by};
pub use rules::{bare_rule, form_rule, is_judged, symbol_rule};
pub use symbols::{built_in_places, is_free, prefixed};
