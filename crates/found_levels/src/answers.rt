// What is found, by what is asked.
ghost use Rattle.std.specs.Prelude.{◌≡◌, ◌∷◌, ◌++◌, [], IfOk, List, OnOk, Some, if◌then◌else◌, slice_get};
ghost use Rattle.kind_text.specs.FlatModule.{IsOrdered};
ghost use Rattle.kind_table.specs.Flattened.{flat_of};
ghost use Rattle.level_facts.specs.Facts.{IsFacts};
ghost use Rattle.node_depths.specs.Capped.{IsDepths};
ghost use Rattle.tla_model.specs.Entities as entities;
ghost use Rattle.flattened_trees.specs.Answers as answering;
ghost use Rattle.flattened_trees.specs.Questions as questions;
ghost use Rattle.tree_flattener.specs.Steps.{AreAsked, asked_of};
ghost use Rattle.found_levels.specs.Findings.{finding_of, findings_of, maybe_found, maybe_name};
ghost use Rattle.found_levels.specs.Stretches.{AreKept};

use crate::findings::LevelFinding;
use crate::stretches::{Stretch, is_refused_in, kind_in, no_stretches};
use kind_table::FlatModule;
use level_answers::{is_too_high, level_of};
use level_facts::KindFacts;
use node_depths::Depths;
use std::alloc::Global;
use tla_model::Meaning;
use tla_symbols::Lexeme;
use tool_list::{List, Memory};
use tree_flattener::{Asked, Question};

/// What is found of levels, in the order of the questions.
pub fn level_answers(
    alloc: Global,
    facts: &mut KindFacts,
    flat: &FlatModule,
    frames: &[List<Meaning>],
    asked: &[Question],
) -> Result<List<LevelFinding>, Memory>
    requires ordered { IsOrdered (flat_of flat.now) }
    requires facts { IsFacts (flat_of flat.now) facts.old }
    ensures facts { IsFacts (flat_of flat.now) facts.new }
    ensures found { IfOk result (λ found. (xs : List questions.Question)
        → AreAsked frames.now asked.now xs
        → findings_of found ≡ answering.level_answers (flat_of flat.now) xs) }
{
    let mut kept = no_stretches(alloc, frames.len())?;
    let mut found = List::new(alloc);
    for question in asked {
        let answer = level_answer(alloc, facts, flat, frames, &mut kept, *question)?;
        put(&mut found, answer)?;
    }
    Ok(found)
}

// Appends what was found.
fn put(found: &mut List<LevelFinding>, answer: Option<LevelFinding>) -> Result<(), Memory>
    ensures { OnOk result (findings_of found.new ≡ findings_of found.old ++ maybe_found answer) }
{
    match answer {
        Some(finding) => found.push(finding),
        None => Ok(()),
    }
}

// What is found of levels, by one question.
fn level_answer(
    alloc: Global,
    facts: &mut KindFacts,
    flat: &FlatModule,
    frames: &[List<Meaning>],
    kept: &mut Vec<Stretch>,
    question: Question,
) -> Result<Option<LevelFinding>, Memory>
    requires ordered { IsOrdered (flat_of flat.now) }
    requires facts { IsFacts (flat_of flat.now) facts.old }
    requires kept { AreKept (flat_of flat.now) frames.now kept.old.items }
    ensures facts { IsFacts (flat_of flat.now) facts.new }
    ensures kept { AreKept (flat_of flat.now) frames.now kept.new.items }
    ensures found { IfOk result (λ found. (x : questions.Question)
        → slice_get frames.now question.frame ≡ Some x.frame
        → question.asked ≡ asked_of x.asked
        → maybe_found found ≡ answering.level_answer (flat_of flat.now) x.frame x.asked) }
{
    let frame = question.frame;
    match question.asked {
        Asked::UseOf { name, node } => {
            let kind = kind_in(alloc, facts, flat, frames, kept, frame, node)?;
            let level = level_of(kind);
            Ok(Some(LevelFinding::Leveled { name, level }))
        }
        Asked::UseAs { name, level } => Ok(Some(LevelFinding::Leveled { name, level })),
        Asked::HasKind { at, node } => {
            let refused = is_refused_in(alloc, facts, flat, frames, kept, frame, node)?;
            Ok(found_if(refused, LevelFinding::Refused { at }))
        }
        Asked::IsAtMost { at, node, most } => {
            let kind = kind_in(alloc, facts, flat, frames, kept, frame, node)?;
            Ok(found_if(is_too_high(most, kind), LevelFinding::TooHigh { at }))
        }
        Asked::IsConstant { at, node } => {
            let kind = kind_in(alloc, facts, flat, frames, kept, frame, node)?;
            Ok(found_if(is_too_high(0, kind), LevelFinding::NotConstant { at }))
        }
        Asked::IsShallow { .. } | Asked::IsShallowInstance { .. } | Asked::IsShallowNode { .. } => {
            Ok(None)
        }
    }
}

// This is found, or nothing.
fn found_if(is_found: bool, finding: LevelFinding) -> Option<LevelFinding>
    ensures { maybe_found result ≡ if is_found then finding_of finding ∷ [] else [] }
{
    if is_found { Some(finding) } else { None }
}

/// The names of definitions that are too deep, and the first words of assumptions and theorems, in
/// the order of the questions.
pub fn deep_answers(
    alloc: Global,
    depths: &Depths,
    flat: &FlatModule,
    asked: &[Question],
) -> Result<List<Lexeme>, Memory>
    requires { IsDepths (flat_of flat.now) depths.now.nodes.items }
    ensures { IfOk result (λ deep. (frames : List (List entities.Meaning))
        (xs : List questions.Question) → AreAsked frames asked.now xs
        → deep ≡ answering.deep_answers (flat_of flat.now) xs) }
{
    let mut deep = List::new(alloc);
    for question in asked {
        let answer = deep_answer(depths, flat, question.asked);
        put_name(&mut deep, answer)?;
    }
    Ok(deep)
}

// Appends the name of something that is too deep.
fn put_name(deep: &mut List<Lexeme>, answer: Option<Lexeme>) -> Result<(), Memory>
    ensures { OnOk result (deep.new ≡ deep.old ++ maybe_name answer) }
{
    match answer {
        Some(name) => deep.push(name),
        None => Ok(()),
    }
}

// The name of something that is too deep, by one question.
fn deep_answer(depths: &Depths, flat: &FlatModule, asked: Asked) -> Option<Lexeme>
    requires { IsDepths (flat_of flat.now) depths.now.nodes.items }
    ensures { (x : questions.Asked) → asked ≡ asked_of x
        → maybe_name result ≡ answering.deep_answer (flat_of flat.now) x }
{
    match asked {
        Asked::IsShallow { name, definition } => {
            name_if(depths.is_deep_definition(flat, definition), name)
        }
        Asked::IsShallowInstance { name, instance } => {
            name_if(depths.is_deep_instance(flat, instance), name)
        }
        Asked::IsShallowNode { word, node } => name_if(depths.is_deep_node(node), word),
        Asked::UseOf { .. } | Asked::UseAs { .. } | Asked::HasKind { .. } => None,
        Asked::IsAtMost { .. } | Asked::IsConstant { .. } => None,
    }
}

// This name, or none.
fn name_if(is_deep: bool, name: Lexeme) -> Option<Lexeme>
    ensures { maybe_name result ≡ if is_deep then name ∷ [] else [] }
{
    if is_deep { Some(name) } else { None }
}
