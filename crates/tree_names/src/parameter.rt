// Parameters of modules.
ghost use Rattle.std.specs.Prelude.{◌≡◌};
ghost use Rattle.name_context.specs.AsTables.{meant_by};
ghost use Rattle.tree_names.specs.Parameters.{named_in};

use name_context::Named;
use tla_model::Meaning;
use tla_symbols::Op;
use tool_list::Chars;

/// A name that is held by itself: an identifier by its spelling, or a symbol.
pub enum Name {
    Word(Chars),
    Symbol(Op),
}

// By hand, so that a proof meets one call wherever a value ends.
impl Drop for Name {
    fn drop(self) {
        match self {
            Name::Word(_) | Name::Symbol(_) => {}
        }
    }
}

/// A constant or variable that a module declares or extends.
#[derive(Drop)]
pub struct Parameter {
    pub name: Name,
    pub meaning: Meaning,
}

impl Name {
    /// The same name, as it is looked up.
    pub fn named(&self) -> Named<'_>
        ensures { meant_by result ≡ named_in self.now }
    {
        match self {
            Name::Word(word) => Named::Word(word.as_str()),
            Name::Symbol(op) => Named::Symbol(*op),
        }
    }
}
