// What was found of the modules of a family.
ghost use Rattle.std.specs.Prelude.{◌≡◌};
ghost use Rattle.family_levels.specs.Findings as findings;

use crate::names::SharedNames;
use family_tables::{Outcome, Table};
use std::alloc::Global;
use tla_model::{Decl, Diagnostic, Use};

/// What was found of modules, under their names.
pub struct Findings {
    /// Their faults, or what they are to others.
    pub outcomes: Table<Outcome>,
    pub names: Table<SharedNames>,
}

// By hand, so that a proof meets one call wherever a value ends.
impl Drop for Findings {
    fn drop(self) {
        let Findings {
            outcomes: _,
            names: _,
        } = self;
    }
}

impl Findings {
    /// Nothing was found. It takes no memory.
    pub(crate) fn new(alloc: Global) -> Findings
        ensures { result ≡ findings.nothing_found }
    {
        Findings {
            outcomes: Table::new(alloc),
            names: Table::new(alloc),
        }
    }

    /// The faults of the module of a name: by start, then end, then code. There are none where it
    /// is accepted, and where it is not there.
    pub fn faults(&self, name: &str) -> &[Diagnostic]
        ensures { result.now ≡ findings.faults_in self.now name.now }
    {
        match self.outcomes.get(name) {
            Some(Outcome::Refused(faults)) => faults.as_slice(),
            _ => &[],
        }
    }

    /// The uses in the module of a name that mean a declaration, in the order of the text. There
    /// are none after a fault of its front or of an import.
    pub fn uses(&self, name: &str) -> &[Use]
        ensures { result.now ≡ findings.uses_in self.now name.now }
    {
        match self.names.get(name) {
            Some(names) => names.names().uses.as_slice(),
            None => &[],
        }
    }

    /// The names that the module of a name declares, in the order of the text. There are none after
    /// a fault of its front or of an import.
    pub fn decls(&self, name: &str) -> &[Decl]
        ensures { result.now ≡ findings.decls_in self.now name.now }
    {
        match self.names.get(name) {
            Some(names) => names.names().decls.as_slice(),
            None => &[],
        }
    }

    /// The uses that are shown of the module of a name: all of one that is accepted, and none of
    /// another.
    pub(crate) fn shown(&self, name: &str) -> &[Use]
        ensures { result.now ≡ findings.shown_in self.now name.now }
    {
        match (self.outcomes.get(name), self.names.get(name)) {
            (Some(Outcome::Accepted(_)), Some(names)) => names.names().uses.as_slice(),
            _ => &[],
        }
    }
}
