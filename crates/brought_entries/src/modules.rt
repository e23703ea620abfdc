// What modules bring where a reader stands.
ghost use Rattle.std.specs.Prelude.{◌≡◌, IfOk, IfSome, OnOk, slice_get};
ghost use Rattle.std.specs.Option.{option_copied};
ghost use Rattle.tla_model.specs.Entities.{Text};
ghost use Rattle.tla_model.specs.Lexemes.{LiesIn};
ghost use Rattle.module_model.specs.Exports.{exported, exports_of, face_exports, instantiable};
ghost use Rattle.module_model.specs.NamedModules.{unit_of};
ghost use Rattle.instance_leads.specs.Found.{module_shown, unit_if};
ghost use Rattle.instance_leads.specs.Leading.{exports_shown, parameters_shown};
ghost use Rattle.name_exports.specs.Brought.{behind_through};
ghost use Rattle.tree_names.specs.Parameters.{entries_in};
ghost use Rattle.tla_symbols.specs.declared.lexeme.Lexeme.{Lexeme};
ghost use Rattle.unit_grammar.specs.Units.{ModuleEnd};
ghost use Rattle.unit_scope.specs.EnclosingReadings.{IsSomewhere};
ghost use Rattle.unit_scope.specs.Steps.{Leads, behind_unit};
ghost use Rattle.brought_entries.specs.Entries.{AreOwn, AreParameters, IsExported, IsExtended, IsInstantiated};

use instance_leads::{
    Ended, NamedModule, exports_in, face_parameters, named_module, nested_parameters,
};
use module_leads::{brought_entries, nested_entries, table_entries};
use module_model::Face;
use std::alloc::Global;
use tla_model::{NameTable, UnitId};
use tla_symbols::Lexeme;
use tool_list::{Chars, List, Memory};
use tree_names::{ModuleText, Parameter};
use unit_scope::ModuleReader;

// The nested module of a number that has ended.
fn ended_at<'b, 'a>(reader: &'b ModuleReader<'a>, number: usize) -> Option<&'b Ended<'a>>
    ensures { option_copied result ≡ slice_get reader.now.scope.nested.items number }
{
    reader.scope.nested.get(number)
}

// The definitions and instances of a module with this face, as they come through a unit.
fn face_entries(
    alloc: Global,
    unit: Option<&UnitId>,
    face: &Face,
) -> Result<List<Parameter>, Memory>
    ensures { IfOk result (λ found. entries_in found
        ≡ behind_through (option_copied unit.entry) (face_exports face.now)) }
{
    let entries = table_entries(alloc, exports_in(face))?;
    let found = brought_entries(alloc, unit, entries.as_slice())?;
    Ok(found)
}

// The same of a nested module that has ended.
fn ended_entries(
    alloc: Global,
    unit: Option<&UnitId>,
    ended: Option<&Ended<'_>>,
) -> Result<List<Parameter>, Memory>
    ensures { IfOk result (λ found. entries_in found
        ≡ behind_through (option_copied unit.entry) (exports_shown (option_copied ended.entry))) }
{
    match ended {
        Some(ended) => {
            let entries = nested_entries(alloc, &ended.exports)?;
            let found = brought_entries(alloc, unit, entries.as_slice())?;
            Ok(found)
        }
        None => Ok(List::new(alloc)),
    }
}

// The same of the module that a name means.
fn module_entries(
    alloc: Global,
    reader: &ModuleReader<'_>,
    unit: Option<&UnitId>,
    named: NamedModule<'_>,
) -> Result<List<Parameter>, Memory>
    ensures { IfOk result (λ found. entries_in found ≡ behind_through (option_copied unit.entry)
        (exported (module_shown reader.now.scope.nested.items named.entry))) }
{
    match named {
        NamedModule::Missing => Ok(List::new(alloc)),
        NamedModule::Imported { face } => face_entries(alloc, unit, face),
        NamedModule::Nested { number } => { ended_entries(alloc, unit, ended_at(reader, number)) }
    }
}

// The parameters of a nested module that has ended.
fn ended_parameters(alloc: Global, ended: Option<&Ended<'_>>) -> Result<List<Parameter>, Memory>
    ensures { IfOk result (λ found. entries_in found
        ≡ parameters_shown (option_copied ended.entry)) }
{
    match ended {
        Some(ended) => nested_parameters(alloc, &ended.parameters),
        None => Ok(List::new(alloc)),
    }
}

// The parameters of the module that a name means.
fn module_parameters(
    alloc: Global,
    reader: &ModuleReader<'_>,
    named: NamedModule<'_>,
) -> Result<List<Parameter>, Memory>
    ensures { IfOk result (λ found. entries_in found
        ≡ (module_shown reader.now.scope.nested.items named.entry).parameters) }
{
    match named {
        NamedModule::Missing => Ok(List::new(alloc)),
        NamedModule::Imported { face } => face_parameters(alloc, face),
        NamedModule::Nested { number } => { ended_parameters(alloc, ended_at(reader, number)) }
    }
}

// The INSTANCE through which names come, where its module has parameters to replace.
fn unit_where<'b>(parameters: &List<Parameter>, unit: &'b UnitId) -> Option<&'b UnitId>
    ensures { option_copied result ≡ unit_if (entries_in parameters.now) unit.now }
{
    if parameters.is_empty() {
        None
    } else {
        Some(unit)
    }
}

// An INSTANCE without a name, whose module's name this is.
fn unit_at(
    alloc: Global,
    text: &ModuleText<'_>,
    reader: &ModuleReader<'_>,
    module: Lexeme,
) -> Result<UnitId, Memory>
    ensures { IfOk result (λ unit. unit ≡ unit_of text.now reader.now.scope.words «module») }
{
    Ok(UnitId {
        module: Chars::from_str(alloc, text.file())?,
        place: reader.scope.words.place_of(module.span.start),
    })
}

/// The parameters of the module of a name where a reader stands, in their order.
pub fn parameters(
    alloc: Global,
    reader: &ModuleReader<'_>,
    name: &str,
) -> Result<List<Parameter>, Memory>
    ensures { IfOk result (λ found. (text : Text)
        → AreParameters text reader.now name.now (entries_in found)) }
{
    let named = named_module(reader.scope.imported, &reader.here.modules, name);
    let found = module_parameters(alloc, reader, named)?;
    Ok(found)
}

/// What the module of a name brings to one that extends it where a reader stands: its definitions
/// and instances, in their order.
pub fn extended_entries(
    alloc: Global,
    reader: &ModuleReader<'_>,
    name: &str,
) -> Result<List<Parameter>, Memory>
    ensures { IfOk result (λ found. (text : Text)
        → IsExtended text reader.now name.now (entries_in found)) }
{
    let named = named_module(reader.scope.imported, &reader.here.modules, name);
    let found = module_entries(alloc, reader, None, named)?;
    Ok(found)
}

/// The table of what the module of a name exports, if it is imported.
pub fn extended_table<'b>(reader: &'b ModuleReader<'_>, name: &str) -> Option<&'b NameTable>
    ensures { IfSome result (λ table. (text : Text)
        → IsExtended text reader.now name.now (instantiable (exports_of table.now))) }
{
    match named_module(reader.scope.imported, &reader.here.modules, name) {
        NamedModule::Imported { face } => Some(exports_in(face)),
        _ => None,
    }
}

/// What an INSTANCE without a name brings where a reader stands, by the name of its module.
pub fn instance_entries(
    alloc: Global,
    text: &ModuleText<'_>,
    reader: &ModuleReader<'_>,
    module: Lexeme,
) -> Result<List<Parameter>, Memory>
    requires { LiesIn text.now.source «module» }
    ensures { IfOk result (λ found. IsInstantiated text.now reader.now «module»
        (entries_in found)) }
{
    let name = text.spelled(module);
    let named = named_module(reader.scope.imported, &reader.here.modules, name);
    let unit = unit_at(alloc, text, reader, module)?;
    let parameters = module_parameters(alloc, reader, named)?;
    let through = unit_where(&parameters, &unit);
    let found = module_entries(alloc, reader, through, named)?;
    Ok(found)
}

/// What the module that is read exports so far.
pub fn exports(alloc: Global, reader: &ModuleReader<'_>) -> Result<NameTable, Memory>
    ensures { IfOk result (λ table. (text : Text) → IsExported text reader.now table) }
{
    let table = reader.here.names.exports.listed(alloc)?;
    Ok(table)
}

/// Goes out of a nested module, and answers its parameters, in their order.
pub fn end_nested<'a>(
    alloc: Global,
    text: &ModuleText<'a>,
    reader: &mut ModuleReader<'a>,
) -> Result<List<Parameter>, Memory>
    requires { IsSomewhere text.now reader.old }
    ensures state { OnOk result ((closing : Lexeme) → Leads text.now
        (behind_unit text.now (ModuleEnd closing)) reader.old reader.new) }
    ensures parameters { IfOk result (λ found. AreOwn text.now reader.old (entries_in found)) }
{
    let number = reader.scope.nested.len();
    reader.end(alloc, text)?;
    let found = ended_parameters(alloc, ended_at(reader, number))?;
    Ok(found)
}
