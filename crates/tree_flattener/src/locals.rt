// Names that are declared in the trees of a text, in scope.
ghost use Rattle.std.specs.Prelude.{◌≡◌, None};
ghost use Rattle.tree_flattener.specs.Found.{local_in};

use tla_symbols::Lexeme;

/// Where a name of a scope leads.
#[derive(Clone, Copy)]
pub enum Local {
    /// To nothing.
    Nothing,
    /// To a parameter, by its place and its order.
    Place { place: usize, order: u32 },
    /// To a definition, by number.
    Definition(usize),
    /// Through an instance of a module, which is named there.
    Instance { number: usize, module: Lexeme },
}

/// A name of a scope, by how many declaring names of the text stand before it.
#[derive(Clone, Copy)]
pub(crate) struct Entry {
    pub place: u32,
    pub local: Local,
}

// Where the name with this place leads; the last one of the place counts.
pub(crate) fn local_at(entries: &[Entry], place: u32) -> Option<Local>
    ensures { result ≡ local_in None entries.now place }
{
    let mut found = None;
    for entry in entries {
        if place == entry.place {
            found = Some(entry.local);
        }
    }
    found
}
