//! What is said of names: what they stand for, what they are found to mean, tables of them, and faults.
//!
//! Knows nothing of how it is found, and of what modules export.
#![tactic(auto)]

use tla_symbols::Span;

mod entity;
mod equal;
mod ids;
mod names;
mod spelling;
mod starts;
mod stretch;
mod table;

pub use entity::{Decl, Entity, Level, Use};
pub use equal::{same_decl, same_units};
pub use ids::{Callee, DeclId, ModuleId, UnitId};
pub use names::{Binder, Binding, Finding, Meaning};
pub use spelling::spelled;
pub use starts::Starts;
pub use stretch::{Stretch, Words};
pub use table::{NameTable, copied_symbols};

/// A fault of a module: its code, and where it stands in the module's text, in bytes.
#[derive(Clone, Copy, Debug, PartialEq, Eq)]
pub struct Diagnostic {
    pub code: u16,
    pub span: Span,
}
