// A module before its units become nodes.
ghost use Rattle.std.specs.Prelude.{◌≡◌, IfOk, reverse};
ghost use Rattle.indexmap.specs.IndexMap.{get_by_text};
ghost use Rattle.unit_grammar.specs.UnitNodes.{HasNodes, module_of};
ghost use Rattle.tla_model.specs.Lexemes.{LexemesLie};
ghost use Rattle.module_model.specs.Exports.{face_outside};
ghost use Rattle.module_model.specs.Given.{AreFaces};
ghost use Rattle.module_model.specs.Modules.{text_of};
ghost use Rattle.tree_names.specs.Parameters.{entries_in};
ghost use Rattle.module_leads.specs.Leading.{leading_in};
ghost use Rattle.module_constancy.specs.Places.{IsConstancyOf};
ghost use Rattle.unit_scope.specs.Steps.{IsUnread};
ghost use Rattle.module_levels.specs.Passed.{AreOwnOf, file_faces};
ghost use Rattle.leveled_modules.specs.Parts.{constant_files};

use crate::constancy::{FileFaces, is_constant_over};
use instance_leads::face_parameters;
use module_levels::{has_no_nested, symbols_ahead};
use module_model::{Face, Imported};
use std::alloc::Global;
use symbol_scope::unread;
use tla_model::Meaning;
use tla_tree::ModuleTree;
use tool_list::{List, Memory};
use tree_names::{ModuleText, Parameter};
use unit_scope::ModuleReader;

/// A module before its units become nodes.
#[derive(Drop)]
pub(crate) struct ModuleStart<'a> {
    /// Before what the module extends.
    pub reader: ModuleReader<'a>,
    /// The own symbols of the nested modules, those of the first one last.
    pub own: Vec<List<Meaning>>,
    /// Its symbols, with their names.
    pub symbols: List<Parameter>,
    pub is_constant: bool,
}

// The own symbols of the nested modules of a module, those of the first one last. A reader goes ahead
// for them where there are such modules.
fn own_symbols<'a>(
    alloc: Global,
    text: &ModuleText<'a>,
    tree: &'a ModuleTree,
    imported: &'a Imported,
) -> Result<Vec<List<Meaning>>, Memory>
    requires nodes { HasNodes tree.now }
    requires lie { LexemesLie text.now.source (module_of tree.now) }
    requires text { text.now ≡ text_of tree.now.source (module_of tree.now) }
    requires faces { AreFaces imported.now text.now.file }
    ensures { IfOk result (λ own. AreOwnOf text.now imported.now tree.now.source
        (module_of tree.now) (reverse own.items)) }
{
    if has_no_nested(tree) {
        return Ok(Vec::new(alloc));
    }
    let ahead = unread(alloc, text, tree, imported)?;
    let own = symbols_ahead(alloc, text, tree, ahead)?;
    Ok(own)
}

/// A module of this face before its units become nodes, over the modules that it names, and over
/// files that have these faces.
pub(crate) fn module_start<'a>(
    alloc: Global,
    text: &ModuleText<'a>,
    tree: &'a ModuleTree,
    imported: &'a Imported,
    face: &Face,
    files: FileFaces<'_>,
) -> Result<ModuleStart<'a>, Memory>
    requires nodes { HasNodes tree.now }
    requires lie { LexemesLie text.now.source (module_of tree.now) }
    requires text { text.now ≡ text_of tree.now.source (module_of tree.now) }
    requires faces { AreFaces imported.now text.now.file }
    ensures reader { IfOk result
        (λ start. IsUnread text.now imported.now (module_of tree.now) start.reader) }
    ensures own { IfOk result (λ start. AreOwnOf text.now imported.now tree.now.source
        (module_of tree.now) (reverse start.own.items)) }
    ensures symbols { IfOk result
        (λ start. entries_in start.symbols ≡ (face_outside face.now).parameters) }
    ensures constant { IfOk result (λ start. IsConstancyOf
        (constant_files (file_faces (leading_in files.entry.leads.now).faces
        (get_by_text files.entry.numbers.now))) tree.now.source (module_of tree.now)
        start.is_constant) }
{
    let is_constant = is_constant_over(alloc, files, text, tree)?;
    let symbols = face_parameters(alloc, face)?;
    let reader = unread(alloc, text, tree, imported)?;
    let own = own_symbols(alloc, text, tree, imported)?;
    Ok(ModuleStart {
        reader,
        own,
        symbols,
        is_constant,
    })
}
