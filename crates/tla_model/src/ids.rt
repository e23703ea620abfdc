// Names for what stands in texts: declarations and units, by where their text counts them.
ghost use Rattle.std.specs.Prelude.{◌≡◌, IfOk};

use tool_list::{Chars, Memory, SharedList};

/// A declaration: a declaring name in the text of a module.
pub struct DeclId {
    /// The module whose text declares the name.
    pub module: Chars,
    /// How many declaring names stand before it in that text.
    pub place: u32,
}

// By hand, so that a proof meets one call wherever a value ends.
impl Drop for DeclId {
    fn drop(self) {
        let DeclId {
            module: _,
            place: _,
        } = self;
    }
}

impl DeclId {
    /// The same declaration. It shares the module's name.
    pub fn copied(&self) -> Result<DeclId, Memory>
        ensures { IfOk result (λ copy. copy ≡ self.now) }
    {
        Ok(DeclId {
            module: self.module.copied()?,
            place: self.place,
        })
    }
}

/// An INSTANCE in the text of a module.
pub struct UnitId {
    /// The module whose text it stands in.
    pub module: Chars,
    /// How many words INSTANCE stand before it in that text.
    pub place: u32,
}

// By hand, so that a proof meets one call wherever a value ends.
impl Drop for UnitId {
    fn drop(self) {
        let UnitId {
            module: _,
            place: _,
        } = self;
    }
}

impl UnitId {
    /// The same unit. It shares the module's name.
    pub fn copied(&self) -> Result<UnitId, Memory>
        ensures { IfOk result (λ copy. copy ≡ self.now) }
    {
        Ok(UnitId {
            module: self.module.copied()?,
            place: self.place,
        })
    }
}

/// A module, or a module that is nested in one.
pub struct ModuleId {
    /// The module whose text it is, or stands in.
    pub module: Chars,
    /// For a nested module, how many declaring names stand before its name in that text.
    pub nested: Option<u32>,
}

// By hand, so that a proof meets one call wherever a value ends.
impl Drop for ModuleId {
    fn drop(self) {
        let ModuleId {
            module: _,
            nested: _,
        } = self;
    }
}

/// What a name or a symbol calls.
pub struct Callee {
    /// The number of the prefix that is written before the last `!` of the name, in the order of the
    /// text, from 1. It is 0 where there is none, and for each segment that is not the last.
    pub instance: u32,
    /// The declaration that the name resolves to.
    pub decl: DeclId,
    /// The INSTANCE units without a name through which the declaration came, in order.
    pub via: SharedList<UnitId>,
}

// By hand, so that a proof meets one call wherever a value ends.
impl Drop for Callee {
    fn drop(self) {
        let Callee {
            instance: _,
            decl: _,
            via: _,
        } = self;
    }
}

impl Callee {
    /// The same callee. It shares what it names.
    pub fn copied(&self) -> Result<Callee, Memory>
        ensures { IfOk result (λ copy. copy ≡ self.now) }
    {
        Ok(Callee {
            instance: self.instance,
            decl: self.decl.copied()?,
            via: self.via.copied()?,
        })
    }
}
