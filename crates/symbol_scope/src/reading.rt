// A module before its units are read, and what is found when they are.
ghost use Rattle.std.specs.Prelude.{◌≡◌, IfOk, OnOk};
ghost use Rattle.instance_scope.specs.Scoped.{IsSound, known_of};
ghost use Rattle.module_model.specs.Exports.{files_of, none_known};
ghost use Rattle.module_model.specs.Given.{AreFaces, IsReadable};
ghost use Rattle.module_model.specs.Modules as in_modules;
ghost use Rattle.module_model.specs.Resolution as in_resolution;
ghost use Rattle.unit_scope.specs.Readings.{over_of};
ghost use Rattle.unit_scope.specs.Steps.{IsLast, IsUnread, over_for};
ghost use Rattle.tla_model.specs.Entities as entities;
ghost use Rattle.tla_model.specs.Lexemes.{LexemesLie};
ghost use Rattle.unit_grammar.specs.UnitNodes.{HasNodes, module_of};

use declared_names::declaring;
use instance_names::{instance_words, path_starts};
use instance_scope::Scope;
use module_model::Imported;
use std::alloc::Global;
use tla_model::{Binder, Finding, spelled};
use tla_tree::ModuleTree;
use tool_list::{List, Memory};
use tree_names::ModuleText;
use unit_scope::ModuleReader;

/// The text of a module, and the names that it declares, in their order.
#[derive(Drop)]
pub struct DeclaredText<'a> {
    pub text: ModuleText<'a>,
    pub names: List<Binder>,
}

// The text of a module, by the names that it declares.
fn text_of<'a>(
    alloc: Global,
    tree: &'a ModuleTree,
    names: &[Binder],
) -> Result<ModuleText<'a>, Memory>
    requires readable { IsReadable tree.now }
    requires names { names.now ≡ entities.declaring (module_of tree.now).units }
    ensures { IfOk result (λ text. text ≡ in_modules.text_of tree.now.source (module_of tree.now)) }
{
    let source = tree.source.as_str();
    let file = spelled(source, &tree.name);
    ModuleText::new(alloc, file, source, names)
}

/// The text of a module, and the names that it declares: what `resolve` and the search for levels are
/// given. `Memory` comes where there was no room.
pub fn declared_text<'a>(alloc: Global, tree: &'a ModuleTree) -> Result<DeclaredText<'a>, Memory>
    requires { IsReadable tree.now }
    ensures text { IfOk result (λ declared. declared.text
        ≡ in_modules.text_of tree.now.source (module_of tree.now)) }
    ensures names { IfOk result (λ declared. declared.names
        ≡ entities.declaring (module_of tree.now).units) }
{
    let names = declaring(alloc, tree)?;
    let text = text_of(alloc, tree, names.as_slice())?;
    Ok(DeclaredText { text, names })
}

// What is known of modules and instances before a text is read.
fn scope_of<'a>(
    alloc: Global,
    text: &ModuleText<'a>,
    tree: &'a ModuleTree,
    imported: &'a Imported,
) -> Result<Scope<'a>, Memory>
    requires nodes { HasNodes tree.now }
    requires faces { AreFaces imported.now text.now.file }
    ensures sound { IfOk result (λ scope. IsSound scope) }
    ensures known { IfOk result (λ scope. known_of scope ≡ none_known) }
    ensures title { IfOk result (λ scope. scope.title.now ≡ text.now.file) }
    ensures over { IfOk result
        (λ scope. over_of scope ≡ over_for imported.now (module_of tree.now)) }
{
    let words = instance_words(alloc, tree)?;
    let paths = path_starts(alloc, tree)?;
    Ok(Scope::new(alloc, text.file(), imported, words, paths))
}

/// A module before what it extends.
pub fn unread<'a>(
    alloc: Global,
    text: &ModuleText<'a>,
    tree: &'a ModuleTree,
    imported: &'a Imported,
) -> Result<ModuleReader<'a>, Memory>
    requires nodes { HasNodes tree.now }
    requires faces { AreFaces imported.now text.now.file }
    ensures { IfOk result
        (λ reader. IsUnread text.now imported.now (module_of tree.now) reader) }
{
    let scope = scope_of(alloc, text, tree, imported)?;
    ModuleReader::new(alloc, text, scope)
}

/// Reads a module, and answers what is found of its names, in the order of the text.
pub(crate) fn found_in<'a>(
    alloc: Global,
    text: &ModuleText<'a>,
    tree: &'a ModuleTree,
    reader: &mut ModuleReader<'a>,
) -> Result<List<Finding>, Memory>
    requires nodes { HasNodes tree.now }
    requires lie { LexemesLie text.now.source (module_of tree.now) }
    requires text { text.now ≡ in_modules.text_of tree.now.source (module_of tree.now) }
    requires unread { IsUnread text.now reader.old.scope.imported.now (module_of tree.now)
        reader.old }
    ensures state { OnOk result
        (IsLast text.now reader.old.scope.imported.now tree.now.source (module_of tree.now)
        reader.new) }
    ensures findings { IfOk result (λ findings. findings
        ≡ in_resolution.findings (files_of reader.old.scope.imported.now) tree.now.source
        (module_of tree.now)) }
{
    let mut findings = List::new(alloc);
    reader.read_module(alloc, text, tree, &mut findings)?;
    Ok(findings)
}
