// Where paths through instances come to.
use module_model::Face;
use tla_model::NameTable;

/// Where a path through instances has come to.
#[derive(Clone, Copy)]
pub enum Held<'a> {
    /// Nothing stands there.
    Nowhere,
    /// An instance of an imported module.
    Imported {
        face: &'a Face,
    },
    /// An instance that the exports of an imported module reach, by what its own module exports.
    Reached {
        face: &'a Face,
        exports: &'a NameTable,
    },
    /// An instance of a nested module, by its number.
    Nested {
        number: usize,
    },
}
