// What is found of the modules of a root.
ghost use Rattle.std.specs.Prelude.{◌≡◌};
ghost use Rattle.std.specs.Option.{option_copied};
ghost use Rattle.server_locations.specs.Locations as in_locations;

use std::marker::Model;
use tla_model::{Decl, Use};
use tool_list::Chars;

/// What is found of a module of the root: its name and its text, and its resolved uses and declaring
/// names, both in the order of the text, which are none where it has a fault of bytes, syntax or
/// imports. All of it is held elsewhere.
pub struct FoundModule<'a> {
    name: &'a Chars,
    bytes: &'a [u8],
    uses: &'a [Use],
    decls: &'a [Decl],
}

// By hand, so that a proof meets one call wherever a value ends.
impl<'a> Drop for FoundModule<'a> {
    fn drop(self) {
        let FoundModule {
            name: _,
            bytes: _,
            uses: _,
            decls: _,
        } = self;
    }
}

impl<'a> Model for FoundModule<'a> {
    ghost use Rattle.server_locations.specs.Locations.{Found};

    ghost Value = { Found };

    ghost view = { λ m. record {
      name = m.name.now;
      bytes = m.bytes.now;
      uses = m.uses.now;
      decls = m.decls.now;
    } };
}

impl<'a> FoundModule<'a> {
    /// What is found of the module of this name, with this text.
    pub fn new(
        name: &'a Chars,
        bytes: &'a [u8],
        uses: &'a [Use],
        decls: &'a [Decl],
    ) -> FoundModule<'a>
        ensures { result ≡ record {
          name = name.now;
          bytes = bytes.now;
          uses = uses.now;
          decls = decls.now;
        } }
    {
        FoundModule {
            name,
            bytes,
            uses,
            decls,
        }
    }

    /// The module's name.
    pub fn name(&self) -> &'a Chars
        ensures { result.now ≡ self.now.name }
    {
        self.name
    }

    /// Its text.
    pub fn bytes(&self) -> &'a [u8]
        ensures { result.now ≡ self.now.bytes }
    {
        self.bytes
    }

    /// Its resolved uses.
    pub fn uses(&self) -> &'a [Use]
        ensures { result.now ≡ self.now.uses }
    {
        self.uses
    }

    /// Its declaring names.
    pub fn decls(&self) -> &'a [Decl]
        ensures { result.now ≡ self.now.decls }
    {
        self.decls
    }
}

/// The module of a name, if it is among these.
pub fn module_named<'m, 'a>(
    modules: &'m [FoundModule<'a>],
    name: &str,
) -> Option<&'m FoundModule<'a>>
    ensures { option_copied result ≡ in_locations.module_named modules.now name.now }
{
    for module in modules {
        if name == module.name().as_str() {
            return Some(module);
        }
    }
    None
}
