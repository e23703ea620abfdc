// What the names of a module mean, and what it is to those that name it.
ghost use Rattle.std.specs.Prelude.{◌≡◌, ◌++◌, ◌∷◌, [], IfOk, OnOk};
ghost use Rattle.module_model.specs.Bindings as bindings;
ghost use Rattle.module_model.specs.Bindings.{IsBound};
ghost use Rattle.module_model.specs.Exports.{files_of};
ghost use Rattle.module_model.specs.Given.{AreFaces, IsReadable};
ghost use Rattle.module_model.specs.Modules as in_modules;
ghost use Rattle.module_model.specs.Resolution as in_resolution;
ghost use Rattle.module_model.specs.Resolution.{ReadState};
ghost use Rattle.sorted_findings.specs.Sorting.{IsNothing, IsSorted};
ghost use Rattle.unit_scope.specs.EnclosingReadings.{IsAt, IsSomewhere};
ghost use Rattle.symbol_scope.specs.Exporting.{IsFaceOf, IsFaceUnless, IsShown};
ghost use Rattle.unit_scope.specs.Readings.{Over};
ghost use Rattle.unit_scope.specs.Steps.{IsLast, IsUnread, outside_at};
ghost use Rattle.tla_model.specs.Entities.{declaring};
ghost use Rattle.tla_model.specs.Lexemes.{LexemesLie, spelled as spelled_in};
ghost use Rattle.unit_grammar.specs.UnitNodes.{HasNodes, module_of};
ghost use Rattle.written_names.specs.Names.{AreNamesOf};

use crate::reading::{found_in, unread};
use instance_parts::reached_from;
use module_model::{Bound, Face, Imported};
use sorted_findings::{nothing, order, sort_out};
use std::alloc::Global;
use std::sync::Arc;
use tla_model::{Binder, Decl, Diagnostic};
use tla_tree::ModuleTree;
use tool_list::{Chars, List, Memory};
use tree_names::ModuleText;
use unit_scope::ModuleReader;
use written_names::{WrittenNames, written_names};

// Reads a module, puts what its names stand for and its faults into nothing, and answers what each
// means.
fn bind_uses<'a>(
    alloc: Global,
    text: &ModuleText<'a>,
    tree: &'a ModuleTree,
    reader: &mut ModuleReader<'a>,
    bound: &mut Bound,
) -> Result<WrittenNames, Memory>
    requires nodes { HasNodes tree.now }
    requires lie { LexemesLie text.now.source (module_of tree.now) }
    requires text { text.now ≡ in_modules.text_of tree.now.source (module_of tree.now) }
    requires unread { IsUnread text.now reader.old.scope.imported.now (module_of tree.now)
        reader.old }
    requires nothing { IsNothing bound.old }
    ensures state { OnOk result
        (IsLast text.now reader.old.scope.imported.now tree.now.source (module_of tree.now)
        reader.new) }
    ensures sorted { OnOk result
        (IsSorted
        (in_resolution.findings (files_of reader.old.scope.imported.now) tree.now.source
        (module_of tree.now)) bound.new) }
    ensures names { IfOk result (AreNamesOf
        (in_resolution.findings (files_of reader.old.scope.imported.now) tree.now.source
        (module_of tree.now))) }
{
    let findings = found_in(alloc, text, tree, reader)?;
    let names = written_names(alloc, findings.as_slice())?;
    sort_out(findings, bound)?;
    order(alloc, &mut bound.faults);
    Ok(names)
}

// The face of a module that was read.
fn face_of<'a>(
    alloc: Global,
    text: &ModuleText<'a>,
    reader: &ModuleReader<'a>,
) -> Result<Face, Memory>
    requires { IsSomewhere text.now reader.now }
    ensures { IfOk result (λ face. (over : Over) → (state : ReadState)
        → IsAt text.now over reader.now state
        → IsFaceOf over.imports text.now.file (outside_at state) face) }
{
    let exports = reader.here.names.exports.listed(alloc)?;
    let parts = reached_from(alloc, &reader.scope, &exports)?;
    Ok(Face {
        module: Chars::from_str(alloc, text.file())?,
        exports: Arc::new(alloc, exports)?,
        parts,
    })
}

// The face of a module that was read, unless it has faults.
fn face_unless<'a>(
    alloc: Global,
    text: &ModuleText<'a>,
    reader: &ModuleReader<'a>,
    faults: &[Diagnostic],
) -> Result<Option<Face>, Memory>
    requires { IsSomewhere text.now reader.now }
    ensures { IfOk result (λ face. (over : Over) → (state : ReadState)
        → IsAt text.now over reader.now state
        → IsFaceUnless faults.now over.imports text.now.file (outside_at state) face) }
{
    if !faults.is_empty() {
        return Ok(None);
    }
    let face = face_of(alloc, text, reader)?;
    Ok(Some(face))
}

// Reads a module, puts what its names stand for and its faults into nothing, and answers what each
// means, and its face, unless it has faults.
fn bind_module<'a>(
    alloc: Global,
    text: &ModuleText<'a>,
    tree: &'a ModuleTree,
    reader: &mut ModuleReader<'a>,
    bound: &mut Bound,
) -> Result<(WrittenNames, Option<Face>), Memory>
    requires nodes { HasNodes tree.now }
    requires lie { LexemesLie text.now.source (module_of tree.now) }
    requires text { text.now ≡ in_modules.text_of tree.now.source (module_of tree.now) }
    requires unread { IsUnread text.now reader.old.scope.imported.now (module_of tree.now)
        reader.old }
    requires nothing { IsNothing bound.old }
    ensures sorted { OnOk result
        (IsSorted
        (in_resolution.findings (files_of reader.old.scope.imported.now) tree.now.source
        (module_of tree.now)) bound.new) }
    ensures names { IfOk result (λ made. AreNamesOf
        (in_resolution.findings (files_of reader.old.scope.imported.now) tree.now.source
        (module_of tree.now)) made.0) }
    ensures face { IfOk result (λ made. IsShown reader.old.scope.imported.now tree.now.source
        (module_of tree.now) bound.new.faults made.1) }
{
    let names = bind_uses(alloc, text, tree, reader, bound)?;
    let face = face_unless(alloc, text, reader, bound.faults.as_slice())?;
    Ok((names, face))
}

// Puts what the names of a text stand for and its faults into nothing, and answers what each means,
// and its face, unless it has faults.
fn bind_text<'a>(
    alloc: Global,
    text: &ModuleText<'a>,
    tree: &'a ModuleTree,
    imported: &'a Imported,
    bound: &mut Bound,
) -> Result<(WrittenNames, Option<Face>), Memory>
    requires nodes { HasNodes tree.now }
    requires lie { LexemesLie text.now.source (module_of tree.now) }
    requires text { text.now ≡ in_modules.text_of tree.now.source (module_of tree.now) }
    requires faces { AreFaces imported.now text.now.file }
    requires nothing { IsNothing bound.old }
    ensures sorted { OnOk result
        (IsSorted
        (in_resolution.findings (files_of imported.now) tree.now.source (module_of tree.now))
        bound.new) }
    ensures names { IfOk result (λ made. AreNamesOf
        (in_resolution.findings (files_of imported.now) tree.now.source (module_of tree.now))
        made.0) }
    ensures face { IfOk result (λ made. IsShown imported.now tree.now.source (module_of tree.now)
        bound.new.faults made.1) }
{
    let mut reader = unread(alloc, text, tree, imported)?;
    bind_module(alloc, text, tree, &mut reader, bound)
}

// Appends the declaration of a name.
fn push_declaration(
    text: &ModuleText<'_>,
    binder: Binder,
    decls: &mut List<Decl>,
) -> Result<(), Memory>
    ensures { OnOk result (decls.new ≡ decls.old ++ bindings.decls text.now (binder ∷ [])) }
{
    let Binder { name, entity } = binder;
    let id = text.declaration(name)?;
    decls.push(Decl {
        id,
        name: name.span,
        entity,
    })
}

// Appends the declarations of a text, by the names that it declares.
fn push_declarations(
    text: &ModuleText<'_>,
    names: List<Binder>,
    decls: &mut List<Decl>,
) -> Result<(), Memory>
    ensures { OnOk result (decls.new ≡ decls.old ++ bindings.decls text.now names) }
{
    for binder in names.into_vec() {
        push_declaration(text, binder, decls)?;
    }
    Ok(())
}

// Puts what names stand for into nothing, and answers what each means, and the module's face, unless
// it has faults.
fn bind(
    alloc: Global,
    text: &ModuleText<'_>,
    names: List<Binder>,
    tree: &ModuleTree,
    imported: &Imported,
    bound: &mut Bound,
) -> Result<(WrittenNames, Option<Face>), Memory>
    requires readable { IsReadable tree.now }
    requires text { text.now ≡ in_modules.text_of tree.now.source (module_of tree.now) }
    requires names { names ≡ declaring (module_of tree.now).units }
    requires faces { AreFaces imported.now (spelled_in tree.now.source tree.now.name) }
    requires nothing { IsNothing bound.old }
    ensures bound { OnOk result
        (IsBound (files_of imported.now) tree.now.source (module_of tree.now) bound.new) }
    ensures names { IfOk result (λ made. AreNamesOf
        (in_resolution.findings (files_of imported.now) tree.now.source (module_of tree.now))
        made.0) }
    ensures face { IfOk result (λ made. IsShown imported.now tree.now.source (module_of tree.now)
        bound.new.faults made.1) }
{
    let (means, face) = bind_text(alloc, text, tree, imported, bound)?;
    push_declarations(text, names, &mut bound.decls)?;
    Ok((means, face))
}

/// What the names of a module stand for, and what it is to those that name it.
#[derive(Drop)]
pub struct Resolved {
    pub bound: Bound,
    /// What each name means, by where it begins.
    pub names: WrittenNames,
    /// What the module is to others. It is there exactly where the module has no fault.
    pub face: Option<Face>,
}

/// What the names of a module stand for, over the modules that it names, and what it is to those that
/// name it, by its text and the names that this declares (`declared_text`). A module that is not
/// accepted is nothing to these. The face shares what it can with those of the modules that are named.
/// `Memory` comes where there was no room.
pub fn resolve(
    alloc: Global,
    text: &ModuleText<'_>,
    names: List<Binder>,
    tree: &ModuleTree,
    imported: &Imported,
) -> Result<Resolved, Memory>
    requires readable { IsReadable tree.now }
    requires text { text.now ≡ in_modules.text_of tree.now.source (module_of tree.now) }
    requires names { names ≡ declaring (module_of tree.now).units }
    requires faces { AreFaces imported.now (spelled_in tree.now.source tree.now.name) }
    ensures bound { IfOk result (λ resolved. IsBound (files_of imported.now) tree.now.source
        (module_of tree.now) resolved.bound) }
    ensures names { IfOk result (λ resolved. AreNamesOf
        (in_resolution.findings (files_of imported.now) tree.now.source (module_of tree.now))
        resolved.names) }
    ensures face { IfOk result
        (λ resolved. IsShown imported.now tree.now.source (module_of tree.now)
        resolved.bound.faults resolved.face) }
{
    let mut bound = nothing(alloc);
    let (names, face) = bind(alloc, text, names, tree, imported, &mut bound)?;
    Ok(Resolved { bound, names, face })
}
