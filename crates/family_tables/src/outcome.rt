// What was found of a module.
ghost use Rattle.std.specs.Prelude.{◌≡◌, IfOk, Some};
ghost use Rattle.family_tables.specs.Agreement.{accepted_face};
ghost use Rattle.family_tables.specs.Outcomes.{faults_of};

use module_model::Face;
use std::alloc::Global;
use std::sync::Arc;
use tla_model::Diagnostic;
use tool_list::{List, Memory, copied};

/// What was found of a module: its faults, or else what it exports.
pub enum Outcome {
    Refused(List<Diagnostic>),
    Accepted(Arc<Face>),
}

// By hand, so that a proof meets one call wherever a value ends.
impl Drop for Outcome {
    fn drop(self) {
        match self {
            Outcome::Refused(_) | Outcome::Accepted(_) => {}
        }
    }
}

impl Outcome {
    /// The same outcome. It shares the face of an accepted module.
    pub fn copied(&self, alloc: Global) -> Result<Outcome, Memory>
        ensures faults { IfOk result (λ outcome. faults_of (Some outcome)
            ≡ faults_of (Some self.now)) }
        ensures face { IfOk result (λ outcome. accepted_face (Some outcome)
            ≡ accepted_face (Some self.now)) }
    {
        match self {
            Outcome::Refused(faults) => Ok(Outcome::Refused(copied(alloc, faults.as_slice())?)),
            Outcome::Accepted(face) => Ok(Outcome::Accepted(face.clone()?)),
        }
    }
}
