// A module with its names resolved.
use tla_model::{Callee, Decl, Diagnostic, Entity, Use};
use tla_symbols::Span;
use tool_list::List;

/// A replacement of an INSTANCE that is not written: a parameter of the module is replaced by the
/// symbol that has its name where the INSTANCE stands.
pub struct Implied {
    /// Where the module's name stands in the INSTANCE, in bytes.
    pub at: Span,
    /// The parameter.
    pub parameter: Entity,
    /// The symbol.
    pub symbol: Entity,
    /// What the symbol calls.
    pub callee: Callee,
}

// By hand, so that a proof meets one call wherever a value ends.
impl Drop for Implied {
    fn drop(self) {
        let Implied {
            at: _,
            parameter: _,
            symbol: _,
            callee: _,
        } = self;
    }
}

/// What the names of a module stand for.
pub struct Bound {
    /// The uses that are resolved, in the order of the text.
    pub uses: List<Use>,
    /// What each use stands for, in the order of the uses.
    pub entities: List<Entity>,
    /// What each use calls, in the order of the uses.
    pub callees: List<Callee>,
    /// The replacements that are not written.
    pub implied: List<Implied>,
    /// The names that the text declares.
    pub decls: List<Decl>,
    /// The faults of names and of instances.
    pub faults: List<Diagnostic>,
}

// By hand, so that a proof meets one call wherever a value ends.
impl Drop for Bound {
    fn drop(self) {
        let Bound {
            uses: _,
            entities: _,
            callees: _,
            implied: _,
            decls: _,
            faults: _,
        } = self;
    }
}
