// Where declaring names stand, and the uses that are shown with them.
ghost use Rattle.std.specs.Prelude.{◌≡◌, ℕ, List as ListOf, IfOk, map};
ghost use Rattle.std.specs.List.{All};
ghost use Rattle.std.specs.Str.{IsCharBoundary};
ghost use Rattle.unit_grammar.specs.UnitNodes.{module_of};
ghost use Rattle.family_tables.specs.Modules.{IsTreeOf};
ghost use Rattle.family_tables.specs.Outcomes.{IsSomeModule};
ghost use Rattle.family_tables.specs.Plans.{AreOnce};
ghost use Rattle.family_tables.specs.Tables.{names_in};
ghost use Rattle.fact_lines.specs.Rows.{line_by, place_by, places_in, row_of};
ghost use Rattle.fact_lines.specs.Lines.{name_place, places_of};

use crate::line::FactLine;
use declared_names::declaring;
use family_tables::{Module, Reading, Table};
use std::alloc::Global;
use text_cursor::{Columns, Cursor};
use tla_model::{Binder, Use};
use tla_text::{Place, Text};
use tla_tree::ModuleTree;
use tool_list::{List, Memory};

// The start of a text.
const START: Place = Place { line: 0, column: 0 };

// Where declaring names begin in a text, each counted from the one before.
fn places_from(alloc: Global, text: &Text, binders: &[Binder]) -> Result<List<Place>, Memory>
    requires { All (λ binder. IsCharBoundary text.now binder.name.span.start) binders.now }
    ensures { IfOk result (λ places. places ≡ map (name_place text.now) binders.now) }
{
    let mut places = List::new(alloc);
    let mut cursor = Cursor::start(text, Columns::Characters);
    for binder in binders {
        cursor = cursor.moved(text, Columns::Characters, binder.name.span.start);
        places.push(cursor.place)?;
    }
    Ok(places)
}

// Where the declaring names of a tree begin, in its order.
fn places_of_tree(alloc: Global, tree: &ModuleTree) -> Result<List<Place>, Memory>
    requires { (name bytes : ListOf ℕ) × IsTreeOf name bytes tree.now }
    ensures { IfOk result (λ places. places ≡ places_of tree.now.source (module_of tree.now)) }
{
    let binders = declaring(alloc, tree)?;
    let text = Text::from_utf8(alloc, tree.source.as_str().as_bytes())?;
    places_from(alloc, &text, binders.as_slice())
}

// The same of what was read of a module: none where it has a front fault.
fn places_of_module(alloc: Global, module: &Module) -> Result<List<Place>, Memory>
    requires { (name : ListOf ℕ) × IsSomeModule name module.now }
    ensures { IfOk result (λ places. places ≡ places_in module.now.reading) }
{
    match &module.reading {
        Reading::Tree(tree) => places_of_tree(alloc, tree.tree()),
        Reading::Fault(_) => Ok(List::new(alloc)),
    }
}

/// Where the declaring names of modules begin, under the names of the modules: there are none of
/// one with a front fault. `Memory` comes where there was no room.
pub fn declared_places(alloc: Global, modules: &Table<Module>) -> Result<Table<List<Place>>, Memory>
    requires once { AreOnce (names_in modules.now) }
    requires read { All (λ entry. IsSomeModule entry.0 entry.1) modules.now }
    ensures { IfOk result (λ places. places ≡ map row_of modules.now) }
{
    let mut places = Table::new(alloc);
    for index in 0..modules.len() {
        let (name, module) = modules.at(index);
        places.add(alloc, name, places_of_module(alloc, module)?)?;
    }
    Ok(places)
}

// Where a declaring name of a module begins, by how many stand before it.
fn place_in(places: &Table<List<Place>>, module: &str, place: u32) -> Place
    ensures { result ≡ place_by places.now module.now place }
{
    let Some(places) = places.get(module) else {
        return START;
    };
    match places.as_slice().get(place as usize) {
        Some(place) => *place,
        None => START,
    }
}

// A use as it is shown.
fn fact_line(places: &Table<List<Place>>, found: &Use) -> Result<FactLine, Memory>
    ensures { IfOk result (λ line. line ≡ line_by places.now found.now) }
{
    Ok(FactLine {
        name: found.name,
        module: found.module.copied()?,
        declared: place_in(places, found.module.as_str(), found.place),
        level: found.level,
    })
}

/// Uses as they are shown, by where the declaring names of modules begin. `Memory` comes where
/// there was no room.
pub fn fact_lines(
    alloc: Global,
    places: &Table<List<Place>>,
    uses: &[Use],
) -> Result<List<FactLine>, Memory>
    ensures { IfOk result (λ lines. lines ≡ map (line_by places.now) uses.now) }
{
    let mut lines = List::new(alloc);
    for found in uses {
        lines.push(fact_line(places, found)?)?;
    }
    Ok(lines)
}
