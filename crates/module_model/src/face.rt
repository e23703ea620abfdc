// What a checked module is to those that name it.
use crate::parts::Parts;
use std::sync::Arc;
use tla_model::{Callee, Entity, NameTable};
use tool_list::Chars;

/// What a checked module is to those that name it: what it exports, and what its exports reach. A face
/// holds no other face, so that a chain of modules is no chain of faces.
pub struct Face {
    /// The module.
    pub module: Chars,
    /// The names that it exports. The constants and variables among them are its parameters.
    pub exports: Arc<NameTable>,
    /// The instances that its exports reach, each once.
    pub parts: Parts,
}

// By hand, so that a proof meets one call wherever a value ends.
impl Drop for Face {
    fn drop(self) {
        let Face {
            module: _,
            exports: _,
            parts: _,
        } = self;
    }
}

/// What stands for a parameter of an instantiated module.
pub enum Replacement {
    /// The right side that is written at this node.
    Written { node: u32 },
    /// The symbol of the parameter's name, where no replacement is written.
    Implied { entity: Entity, callee: Callee },
}

// By hand, so that a proof meets one call wherever a value ends.
impl Drop for Replacement {
    fn drop(self) {
        match self {
            Replacement::Written { node: _ }
            | Replacement::Implied {
                entity: _,
                callee: _,
            } => {}
        }
    }
}
