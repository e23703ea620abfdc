// What is found of one module behind all that it needs.
ghost use Rattle.std.specs.Prelude.{◌≡◌, ◌<◌, ◌∷◌, [], ℕ, List as ListOf, IfOk, IfSome, None, Some};
ghost use Rattle.exact_faces.specs.Importing.{AreExactImports, AreNames};
ghost use Rattle.family_facts.specs.Verdicts.{after_checks};
ghost use Rattle.family_tables.specs.Agreement.{AreAgreed, accepted_face};
ghost use Rattle.family_tables.specs.Modules.{IsTreeOf, needs_of, tree_count};
ghost use Rattle.family_tables.specs.Outcomes.{IsSomeModule};
ghost use Rattle.family_tables.specs.Tables.{entry_of};
ghost use Rattle.family_tables.specs.declared.reading.Reading.TheVariants as reading;
ghost use Rattle.leveled_modules.specs.Leveled.{AreKept};
ghost use Rattle.family_levels.specs.Leveling.{AreNumbers, face_count};
ghost use Rattle.family_levels.specs.Judging.{IsFoundBy, IsJudged};
ghost use Rattle.family_tables.specs.declared.outcome.Outcome.TheVariants as outcome;
ghost use Rattle.indexmap.specs.IndexMap.{get_by_text};
ghost use Rattle.module_model.specs.Given.{AreFaces, IsFaceOver};
ghost use Rattle.module_model.specs.declared.face.Face.{Face as FaceOf};
ghost use Rattle.family_levels.specs.Exactness.{AreExact, IsExactOutcome, IsExactly};
ghost use Rattle.family_levels.specs.Versions.{IsCopy};
ghost use Rattle.family_levels.specs.Again.{IsFoundNext};

use crate::laws::laws_below;
use crate::names::{Names, SharedNames};
use crate::numbers::numbers_of;
use check_core::{Checked, check_module};
use exact_faces::exact;
use family_tables::{Module, Outcome, Plan, Reading, Table, imports_of};
use indexmap::IndexMap;
use leveled_facts::leveled_is;
use leveled_modules::{LevelTables, ModuleLevels, level_module};
use module_model::{Imported, in_order};
use std::alloc::Global;
use step_count::Steps;
use symbol_scope::{DeclaredText, declared_text};
use tla_model::Diagnostic;
use tla_tree::ModuleTree;
use tool_list::{Chars, List, Memory, copied};

/// What is found of a module.
#[derive(Drop)]
pub(crate) struct Found {
    pub outcome: Outcome,
    /// The number of what it is to its instances, if it is accepted.
    pub number: Option<usize>,
    pub names: SharedNames,
}

impl Found {
    /// The same. It shares what it holds, but for faults.
    pub(crate) fn copied(&self, alloc: Global) -> Result<Found, Memory>
        ensures { IfOk result (IsCopy self.now) }
    {
        Ok(Found {
            outcome: self.outcome.copied(alloc)?,
            number: self.number,
            names: self.names.copied()?,
        })
    }
}

// A module with these faults.
fn refused(faults: List<Diagnostic>, names: SharedNames) -> Found
    ensures outcome { result.outcome ≡ outcome.Refused faults }
    ensures number { result.number ≡ None }
    ensures names { result.names ≡ names }
{
    Found {
        outcome: Outcome::Refused(faults),
        number: None,
        names,
    }
}

// What is found of a module whose names and arities have no fault, by what is found of levels.
fn found_by(alloc: Global, checked: Checked, levels: ModuleLevels) -> Result<Found, Memory>
    ensures { IfOk result (IsFoundBy checked levels) }
{
    let ModuleLevels {
        faults,
        levels,
        face,
    } = levels;
    if !faults.is_empty() {
        let names = SharedNames::new(alloc, Names::of(checked))?;
        return Ok(refused(in_order(faults), names));
    }
    let outcome = Outcome::Accepted(checked.face().clone()?);
    Ok(Found {
        outcome,
        number: Some(face),
        names: SharedNames::new(alloc, Names::leveled(checked, &levels))?,
    })
}

// What is found of a tree over its imports, by the numbers of those that are accepted.
fn judge<L>(
    alloc: Global,
    name: &str,
    tree: &ModuleTree,
    imports: &Imported,
    files: &IndexMap<String, usize>,
    known: LevelTables,
    steps: &mut Steps<L>,
) -> Result<(LevelTables, Found), Memory>
    requires tree { (bytes : ListOf ℕ) × IsTreeOf name.now bytes tree.now }
    requires faces { AreFaces imports.now name.now }
    requires kept { AreKept known }
    requires files { (other : ListOf ℕ) → IfSome (get_by_text files.now other)
        (λ number. number < face_count known) }
    ensures kept { IfOk result (λ made. AreKept made.0) }
    ensures judged { IfOk result (λ made. IsJudged name.now tree.now imports.now
        (get_by_text files.now) known made.0 made.1) }
    ensures steps { IfOk result (λ _. steps.new ≡ after_checks 1 steps.old) }
{
    let DeclaredText {
        text,
        names: declared,
    } = declared_text(alloc, tree)?;
    let (checked, names) = check_module(alloc, name, &text, declared, tree, imports, steps)?;
    let faults = checked.faults();
    if !faults.is_empty() {
        let faults = copied(alloc, faults.as_slice())?;
        let names = SharedNames::new(alloc, Names::of(checked))?;
        return Ok((known, refused(faults, names)));
    }
    let face = checked.face();
    let (known, levels) = level_module(alloc, &text, tree, imports, face, &names, known, files)?;
    let found = found_by(alloc, checked, levels)?;
    Ok((known, found))
}

// What was found, with a face that holds exactly what its exports reach.
fn exactly(
    alloc: Global,
    imports: &Imported,
    names: &[Chars],
    title: &str,
    found: Found,
) -> Result<Found, Memory>
    requires over { (face : FaceOf) → accepted_face (Some found.outcome) ≡ Some face
        → IsFaceOver imports.now title.now face }
    requires faces { AreFaces imports.now title.now }
    requires exact { AreExactImports imports.now }
    requires names { AreNames names.now imports.now }
    ensures { IfOk result (IsExactly found) }
{
    let Found {
        outcome,
        number,
        names: shown,
    } = found;
    let Outcome::Accepted(face) = &outcome else {
        return Ok(Found {
            outcome,
            number,
            names: shown,
        });
    };
    let face = exact(alloc, imports, names, face)?;
    Ok(Found {
        outcome: Outcome::Accepted(face),
        number,
        names: shown,
    })
}

// What is found of a module without front fault behind what it needs.
fn level_tree<L>(
    alloc: Global,
    plan: &Plan,
    outcomes: &Table<Outcome>,
    numbers: &Table<usize>,
    name: &str,
    tree: &ModuleTree,
    needs: &[Chars],
    known: LevelTables,
    steps: &mut Steps<L>,
) -> Result<(LevelTables, Found), Memory>
    requires tree { (bytes : ListOf ℕ) × IsTreeOf name.now bytes tree.now }
    requires needs { needs.now ≡ needs_of tree.now }
    requires agreed { AreAgreed outcomes.now }
    requires exact { AreExact outcomes.now }
    requires unfound { entry_of outcomes.now name.now ≡ None }
    requires kept { AreKept known }
    requires numbers { AreNumbers known numbers.now }
    ensures kept { IfOk result (λ made. AreKept made.0) }
    ensures next { IfOk result (λ made. IsFoundNext plan.now outcomes.now numbers.now name.now
        (reading.Tree tree.now) needs.now known made.0 made.1) }
    ensures exact { IfOk result (λ made. IsExactOutcome made.1.outcome) }
    ensures steps { IfOk result (λ _. steps.new ≡ after_checks 1 steps.old) }
{
    laws_below();
    let imports = imports_of(alloc, plan, outcomes, name, needs)?;
    let files = numbers_of(alloc, &imports, numbers, needs)?;
    let (known, judged) = judge(alloc, name, tree, &imports, &files, known, steps)?;
    let found = exactly(alloc, &imports, needs, name, judged)?;
    Ok((known, found))
}

fn lone_fault(alloc: Global, fault: Diagnostic) -> Result<List<Diagnostic>, Memory>
    ensures { IfOk result (λ faults. faults ≡ fault ∷ []) }
{
    let mut faults = List::new(alloc);
    faults.push(fault)?;
    Ok(faults)
}

/// What is found of a module behind what it needs: with a face that holds exactly what its exports
/// reach, if it is accepted. It becomes nodes of the flat module of those before it, if its names and
/// arities have no fault. It is checked once, which is one step, if it
/// has no front fault.
pub(crate) fn level_one<L>(
    alloc: Global,
    plan: &Plan,
    outcomes: &Table<Outcome>,
    numbers: &Table<usize>,
    name: &str,
    module: &Module,
    known: LevelTables,
    steps: &mut Steps<L>,
) -> Result<(LevelTables, Found), Memory>
    requires some { IsSomeModule name.now module.now }
    requires agreed { AreAgreed outcomes.now }
    requires exact { AreExact outcomes.now }
    requires unfound { entry_of outcomes.now name.now ≡ None }
    requires kept { AreKept known }
    requires numbers { AreNumbers known numbers.now }
    ensures kept { IfOk result (λ made. AreKept made.0) }
    ensures next { IfOk result (λ made. IsFoundNext plan.now outcomes.now numbers.now name.now
        module.now.reading module.now.needs known made.0 made.1) }
    ensures exact { IfOk result (λ made. IsExactOutcome made.1.outcome) }
    ensures steps { IfOk result (λ _. steps.new
        ≡ after_checks (tree_count module.now.reading) steps.old) }
{
    // The proof needs that a count is below 2^64.
    let _count = steps.count();
    match &module.reading {
        Reading::Tree(tree) => {
            let needs = module.needs.as_slice();
            let tree = tree.tree();
            let made = level_tree(
                alloc, plan, outcomes, numbers, name, tree, needs, known, steps,
            )?;
            Ok(made)
        }
        Reading::Fault(fault) => {
            leveled_is();
            let faults = lone_fault(alloc, *fault)?;
            let names = SharedNames::new(alloc, Names::none(alloc))?;
            Ok((known, refused(faults, names)))
        }
    }
}
