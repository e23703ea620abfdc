// A text whose names are resolved.
ghost use Rattle.std.specs.Prelude.{◌≡◌, IfOk, map};
ghost use Rattle.tla_model.specs.Entities as entities;
ghost use Rattle.tla_model.specs.Lexemes.{LiesIn, spelled as spelled_in};
ghost use Rattle.name_context.specs.AsTables.{meant_by};

use name_context::Named;
use std::alloc::Global;
use std::marker::Model;
use tla_model::{Binder, Callee, DeclId, Meaning, Starts, spelled};
use tla_symbols::{LexKind, Lexeme};
use tool_list::{Chars, Memory, SharedList};

/// The text of a module: its name, its bytes, and where its declaring names begin. Contracts see it as
/// the text of the definitions.
pub struct ModuleText<'a> {
    file: &'a str,
    // The same name, for declarations to share.
    name: Chars,
    source: &'a str,
    // Where the declaring names begin.
    starts: Starts,
}

// By hand, so that a proof meets one call wherever a value ends.
impl<'a> Drop for ModuleText<'a> {
    fn drop(self) {
        let ModuleText {
            file: _,
            name: _,
            source: _,
            starts: _,
        } = self;
    }
}

impl<'a> Model for ModuleText<'a> {
    ghost use Rattle.std.specs.Prelude.{◌≡◌};
    ghost use Rattle.tla_model.specs.Entities.{Text};

    ghost Value = { Text };

    ghost view = { λ t. record { file = t.file.now; source = t.source.now; starts = t.starts } };

    ghost invariant = { λ t. t.name ≡ t.file.now };
}

impl<'a> ModuleText<'a> {
    /// The text of a module, by the names that it declares.
    pub fn new(
        alloc: Global,
        file: &'a str,
        source: &'a str,
        names: &[Binder],
    ) -> Result<ModuleText<'a>, Memory>
        ensures { IfOk result (λ text. text
            ≡ record {
              file = file.now;
              source = source.now;
              starts = map
                  (λ binder. binder.name.span.start) names.now;
            }) }
    {
        let mut starts = Vec::new(alloc);
        for binder in names {
            starts.push(binder.name.span.start)?;
        }
        Ok(ModuleText {
            file,
            name: Chars::from_str(alloc, file)?,
            source,
            starts: Starts::new(alloc, starts.as_slice())?,
        })
    }

    /// The bytes of a lexeme.
    pub fn spelled(&self, lexeme: Lexeme) -> &'a str
        requires { LiesIn self.now.source lexeme }
        ensures { result.now ≡ spelled_in self.now.source lexeme }
    {
        spelled(self.source, &lexeme)
    }

    /// The name that a lexeme is.
    pub fn name_of(&self, lexeme: Lexeme) -> Named<'a>
        requires { LiesIn self.now.source lexeme }
        ensures { meant_by result ≡ entities.name_of self.now.source lexeme }
    {
        match lexeme.kind {
            LexKind::Sym(op) => Named::Symbol(op),
            _ => Named::Word(self.spelled(lexeme)),
        }
    }

    /// The name of the module.
    pub fn file(&self) -> &'a str
        ensures { result.now ≡ self.now.file }
    {
        self.file
    }

    /// What a declared name calls.
    pub fn own(&self, name: Lexeme) -> Result<Callee, Memory>
        ensures { IfOk result (λ callee. callee ≡ entities.own self.now name) }
    {
        let decl = self.declaration(name)?;
        Ok(Callee {
            instance: 0,
            decl,
            via: SharedList::new(),
        })
    }

    /// The place of a name's declaration: how many names the text declares before it.
    pub fn place(&self, name: Lexeme) -> u32
        ensures { result ≡ (entities.declaration self.now name).place }
    {
        self.starts.place_of(name.span.start)
    }

    /// The declaration of a name.
    pub fn declaration(&self, name: Lexeme) -> Result<DeclId, Memory>
        ensures { IfOk result (λ decl. decl ≡ entities.declaration self.now name) }
    {
        Ok(DeclId {
            module: self.name.copied()?,
            place: self.place(name),
        })
    }

    /// What a declared name means.
    pub fn meaning(&self, binder: Binder) -> Result<Meaning, Memory>
        ensures { IfOk result (λ meaning. meaning ≡ entities.meant self.now binder) }
    {
        let Binder { name, entity } = binder;
        let callee = self.own(name)?;
        Ok(Meaning::Declared { entity, callee })
    }
}
