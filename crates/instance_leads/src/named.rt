// What module names mean.
ghost use Rattle.std.specs.Prelude.{◌≡◌, [], List as ListOf};
ghost use Rattle.std.specs.Option.{option_copied};
ghost use Rattle.std.specs.Arc.{arc_value};
ghost use Rattle.module_scope.specs.Environments.{meaning};
ghost use Rattle.module_model.specs.Exports.{files_of};
ghost use Rattle.module_model.specs.NamedModules.{module_at};
ghost use Rattle.instance_leads.specs.Leading.{views};
ghost use Rattle.instance_leads.specs.Found.{IsLedBy, IsMeant, led_by, module_shown, table_on};
ghost use Rattle.instance_leads.specs.declared.ended.Ended.{Ended as EndedModule};
ghost use Rattle.module_model.specs.Parts.{reached};

use module_model::{Face, Import, Imported};
use module_scope::Modules;
use std::sync::Arc;
use tla_model::{DeclId, Entity, Meaning, NameTable};
use tree_tasks::Held;

/// The modules that can be named at a place: those nested ones by their numbers.
pub type Numbers<'a> = Modules<'a, usize>;

/// The module that a name means.
#[derive(Clone, Copy)]
pub enum NamedModule<'a> {
    /// There is none, or it is not accepted.
    Missing,
    /// An imported one.
    Imported { face: &'a Face },
    /// A nested one, by its number.
    Nested { number: usize },
}

impl<'a> NamedModule<'a> {
    /// Where an instance of the module leads.
    pub fn held(self) -> Held<'a>
        ensures { result ≡ led_by self.entry }
    {
        match self {
            NamedModule::Missing => Held::Nowhere,
            NamedModule::Imported { face } => Held::Imported { face },
            NamedModule::Nested { number } => Held::Nested { number },
        }
    }
}

// A face that is shared.
fn face_in(face: &Arc<Face>) -> &Face
    ensures { result.now ≡ arc_value face.now }
{
    face
}

// A table that is shared.
fn table_in(table: &Arc<NameTable>) -> &NameTable
    ensures { result.now ≡ arc_value table.now }
{
    table
}

/// What a module of this face exports.
pub fn exports_in(face: &Face) -> &NameTable
    ensures { result.now ≡ arc_value face.now.exports }
{
    &face.exports
}

// The imported module of a name.
fn imported_module<'a>(imported: &'a Imported, name: &str) -> NamedModule<'a>
    ensures shown { (nested : ListOf EndedModule)
        → module_shown nested result ≡ files_of imported.now name.now }
    ensures meant { IsMeant imported.now [] name.now result }
{
    match imported.get(name) {
        Some(Import::Module(face)) => NamedModule::Imported {
            face: face_in(face),
        },
        _ => NamedModule::Missing,
    }
}

/// The module that a name means.
pub fn named_module<'a>(
    imported: &'a Imported,
    modules: &Numbers<'a>,
    name: &str,
) -> NamedModule<'a>
    ensures shown { (nested : ListOf EndedModule) → module_shown nested result
        ≡ module_at (files_of imported.now) (views nested modules.now) name.now }
    ensures meant { IsMeant imported.now modules.now name.now result }
{
    match modules.meaning(name) {
        Some(Some(number)) => NamedModule::Nested { number: *number },
        Some(None) => NamedModule::Missing,
        None => imported_module(imported, name),
    }
}

/// Where an instance leads, by the face of a module whose exports reach it.
pub fn led_on_face<'a>(face: &'a Face, decl: &DeclId) -> Held<'a>
    ensures { IsLedBy face.now (reached face.now.parts decl.now) result }
{
    match face.parts.get(decl) {
        Some(table) => Held::Reached {
            face,
            exports: table_in(table),
        },
        None => Held::Nowhere,
    }
}

/// Where a name leads that means this, by the face of the module that exports it.
pub fn led_on<'a>(face: &'a Face, meaning: Option<&Meaning>) -> Held<'a>
    ensures { IsLedBy face.now (table_on face.now.parts (option_copied meaning.entry)) result }
{
    match meaning {
        Some(
            Meaning::Declared {
                entity: Entity::Instance { .. },
                callee,
            },
        ) => led_on_face(face, &callee.decl),
        _ => Held::Nowhere,
    }
}
