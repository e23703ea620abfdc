// Modules, one after another, over the same tables.
ghost use Rattle.std.specs.Prelude.{◌≡◌, ◌<◌, ℕ, List as ListOf, IfOk, reverse};
ghost use Rattle.indexmap.specs.IndexMap.{get_by_text};
ghost use Rattle.std.specs.Prelude.{IfSome};
ghost use Rattle.tla_model.specs.Lexemes.{LexemesLie};
ghost use Rattle.unit_grammar.specs.UnitNodes.{HasNodes, module_of};
ghost use Rattle.module_model.specs.Exports.{exports_of, files_of};
ghost use Rattle.module_model.specs.Resolution.{exports_in};
ghost use Rattle.module_model.specs.Modules.{text_of};
ghost use Rattle.flattened_units.specs.Units.{meanings_of};
ghost use Rattle.tree_kinds.specs.Standing.{Outside};
ghost use Rattle.tree_names.specs.Parameters.{entries_in};
ghost use Rattle.module_leads.specs.Leading.{IsSound, face_over, leading_in, left, with_face};
ghost use Rattle.unit_scope.specs.Steps.{IsUnread};
ghost use Rattle.unit_flattener.specs.Modules.{AreOwnOf, BeginsAreEnded, EndsAreBegun, IsBetween};
ghost use Rattle.unit_flattener.specs.Modules.{IsModuleBegun, IsModuleWalked};
ghost use Rattle.unit_flattener.specs.Numbers.{file_faces};

use crate::flattener::UnitFlattener;
use crate::meanings::{meanings_of, with_more};
use crate::scope::ModuleNumbers;
use indexmap::IndexMap;
use module_leads::ModuleLeads;
use std::alloc::Global;
use tla_model::{Meaning, NameTable};
use tla_tree::ModuleTree;
use tool_list::{List, Memory};
use tree_flattener::{Flattening, Written, add_frame};
use tree_names::Parameter;
use unit_scope::ModuleReader;

/// What modules are to their instances, and what was made of their units, one module after another.
#[derive(Drop)]
pub struct Tables {
    pub leads: ModuleLeads,
    pub state: Flattening,
}

/// A module that became nodes: the tables behind it, and the number of what it is to its instances.
#[derive(Drop)]
pub struct Flattened {
    pub tables: Tables,
    pub face: usize,
}

// A module before what it extends: its symbols stand at the places of its frame.
fn begun<'a>(
    alloc: Global,
    tables: Tables,
    title: &'a str,
    reader: ModuleReader<'a>,
    files: &'a IndexMap<String, usize>,
    own: Vec<List<Meaning>>,
    symbols: &[Meaning],
) -> Result<UnitFlattener<'a>, Memory>
    ensures begun { IfOk result (λ walker. IsModuleBegun tables title.now reader.entry own.items
        symbols.now walker) }
    ensures files { IfOk result (λ walker. walker.files.now ≡ files.now) }
{
    let modules = ModuleNumbers::new(alloc, title)?;
    let Tables { leads, state } = tables;
    let mut walker = UnitFlattener {
        reader,
        leads,
        files,
        modules,
        own,
        state,
        frame: 0,
        round: Vec::new(alloc),
    };
    walker.leads.enter(alloc, symbols, 0)?;
    let frame = with_more(alloc, symbols, &[])?;
    walker.frame = add_frame(&mut walker.state, frame)?;
    Ok(walker)
}

// What a module is to its instances, behind all its units.
fn ended(
    alloc: Global,
    walker: UnitFlattener<'_>,
    symbols: List<Parameter>,
    is_constant: bool,
    exports: &NameTable,
) -> Result<Flattened, Memory>
    requires { IsSound walker.leads }
    ensures state { IfOk result (λ made. made.tables.state ≡ walker.entry.state) }
    ensures number { IfOk result (λ made. made.face ≡ (leading_in walker.entry.leads).count) }
    ensures sound { IfOk result (λ made. IsSound made.tables.leads) }
    ensures known { IfOk result (λ made. leading_in made.tables.leads
        ≡ left (with_face (leading_in walker.entry.leads) (face_over (entries_in symbols) 0
        is_constant (exports_of exports.now) (leading_in walker.entry.leads).leads))) }
{
    let mut walker = walker;
    let face = walker.leads.end(alloc, symbols, 0, is_constant, exports)?;
    Ok(Flattened {
        tables: walker.into_tables(),
        face,
    })
}

/// Makes nodes of the units of a module, whose symbols are given with their names, and what it
/// exports, over those of modules before it. The numbers of what its imports are to their instances
/// are given by name, and the own symbols of its nested modules, those of the first one last. The
/// reader stands before what the module extends.
pub fn flatten_module<'a>(
    alloc: Global,
    written: &Written<'a>,
    tree: &ModuleTree,
    reader: ModuleReader<'a>,
    own: Vec<List<Meaning>>,
    tables: Tables,
    files: &'a IndexMap<String, usize>,
    symbols: List<Parameter>,
    is_constant: bool,
    exports: &NameTable,
) -> Result<Flattened, Memory>
    requires nodes { HasNodes tree.now }
    requires tree { written.now.tree.now ≡ tree.now.tree }
    requires lie { LexemesLie written.now.text.now.source (module_of tree.now) }
    requires text { written.now.text.now ≡ text_of tree.now.source (module_of tree.now) }
    requires unread { IsUnread written.now.text.now reader.scope.imported.now
        (module_of tree.now) reader }
    requires own { AreOwnOf written.now.text.now reader.scope.imported.now tree.now.source
        (module_of tree.now) (reverse own.items) }
    requires ends { EndsAreBegun reader.scope.imported.now tree.now.source
        (module_of tree.now) }
    requires begins { BeginsAreEnded reader.scope.imported.now tree.now.source
        (module_of tree.now) }
    requires between { IsBetween tables }
    requires exports { exports_of exports.now
        ≡ exports_in (files_of reader.scope.imported.now) tree.now.source (module_of tree.now) }
    requires files { (name : ListOf ℕ) → IfSome (get_by_text files.now name)
        (λ number. number < (leading_in tables.leads).count) }
    ensures { IfOk result (λ made. (outsides : ListOf ℕ → Outside)
        → (λ name. (outsides name).view) ≡ files_of reader.entry.scope.imported.now
        → IsModuleWalked written.now tree.now.source (module_of tree.now)
        (file_faces (leading_in tables.leads).faces (get_by_text files.now)) outsides tables
        made.tables (entries_in symbols) is_constant made.face) }
{
    let mut reader = reader;
    let units = tree.units.as_slice();
    reader.pass_extended(alloc, written.text, tree)?;
    let meanings = meanings_of(alloc, &symbols)?;
    let mut walker = begun(
        alloc,
        tables,
        written.text.file(),
        reader,
        files,
        own,
        meanings.as_slice(),
    )?;
    walker.extend(alloc, written, tree.extends.as_slice())?;
    walker.walk_all(alloc, written, units)?;
    ended(alloc, walker, symbols, is_constant, exports)
}
