// Whether modules lead alike, as far as numbers of nodes tell.
ghost use Rattle.std.specs.Prelude.{◌≡◌, IfOk, IsTrue, None, OnOk, Some};
ghost use Rattle.kind_table.specs.Flattened.{flat_of};
ghost use Rattle.name_context.specs.AsTables.{meant_by};
ghost use Rattle.face_views.specs.Exact.{Tells};
ghost use Rattle.tree_names.specs.Parameters.{entries_in};
ghost use Rattle.module_leads.specs.declared.steps.Passage.{Passage};
ghost use Rattle.module_leads.specs.declared.ways.Way.TheVariants as ways;
ghost use Rattle.module_leads.specs.Alike.{AnswersAlike, AnswersEach, AnswersEither, AnswersEnds, AnswersInstances};
ghost use Rattle.module_leads.specs.Alike.{AreFacesAlike, AreKnown, AreSameParts, FindsAlike, behind_name, known_face, module_at, names_at};
ghost use Rattle.module_leads.specs.Faces.{faces_of, first_faces};
ghost use Rattle.module_leads.specs.Ways.{found_way, name_as, way_lead};

use crate::faces::{ModuleFace, Sort, face_is_constant, face_outer};
use crate::listed::{face_below, name_at, name_count};
use crate::pairs::{are_known, keep};
use crate::paths::way_before;
use crate::same::{are_same_parameters, is_same_name};
use crate::steps::{Passage, Step, leads_nowhere, step_of};
use crate::ways::FoundWay;
use flattened_trees::End;
use indexmap::IndexSet;
use kind_table::FlatModule;
use name_context::Named;
use std::alloc::Global;
use tool_list::Memory;
use tree_names::Parameter;
use tree_numbers::{is_same_definition, is_same_instance};

// Whether two ends have the same trees.
fn ends_alike(flat: &FlatModule, numbers: &[usize], one: End, other: End) -> bool
    ensures { AnswersEnds (flat_of flat.now) numbers.now one other result }
{
    match (one, other) {
        (End::Nowhere, End::Nowhere) => true,
        (End::Leaf(one), End::Leaf(other)) => one == other,
        (
            End::Place { place, order },
            End::Place {
                place: other_place,
                order: other_order,
            },
        ) => place == other_place && order == other_order,
        (End::Definition(one), End::Definition(other)) => {
            is_same_definition(flat, numbers, one, other)
        }
        _ => false,
    }
}

// Whether two instances have the same trees.
fn instances_alike(flat: &FlatModule, numbers: &[usize], one: usize, other: usize) -> bool
    ensures { AnswersInstances (flat_of flat.now) numbers.now one other result }
{
    is_same_instance(flat, numbers, one, other)
}

// Whether two modules have the same names of a sort, in the same order.
fn are_same_names(
    faces: &[ModuleFace],
    sort: Sort,
    one: Option<usize>,
    other: Option<usize>,
) -> bool
    ensures { IsTrue result → names_at sort (module_at faces.now one)
        ≡ names_at sort (module_at faces.now other) }
{
    let count = name_count(faces, one, sort);
    if count != name_count(faces, other, sort) {
        return false;
    }
    for index in 0..count {
        let Some(first) = name_at(faces, one, sort, index) else {
            unreachable!();
        };
        let Some(second) = name_at(faces, other, sort, index) else {
            unreachable!();
        };
        if !is_same_name(first, second) {
            return false;
        }
    }
    true
}

// Whether the names of two modules lead alike. Where they do, that is known from then on.
#[cycle(alike)]
fn leads_alike(
    flat: &FlatModule,
    numbers: &[usize],
    faces: &[ModuleFace],
    known: &mut IndexSet<(usize, usize)>,
    one: Option<usize>,
    other: Option<usize>,
) -> Result<bool, Memory>
    requires { AreKnown (flat_of flat.now) numbers.now faces.now known.old.keys }
    ensures known { OnOk result
        (AreKnown (flat_of flat.now) numbers.now faces.now known.new.keys) }
    ensures alike { IfOk result (AnswersAlike (flat_of flat.now) numbers.now
        (known_face faces.now one).leads (known_face faces.now other).leads) }
{
    if are_known(&*known, one, other) {
        return Ok(true);
    }
    if !names_alike(flat, numbers, faces, known, Sort::Words, one, other)? {
        return Ok(false);
    }
    if !names_alike(flat, numbers, faces, known, Sort::Symbols, one, other)? {
        return Ok(false);
    }
    keep(known, one, other)?;
    Ok(true)
}

// Whether each name of a sort that one of two modules has leads alike in both.
#[cycle(alike)]
fn names_alike(
    flat: &FlatModule,
    numbers: &[usize],
    faces: &[ModuleFace],
    known: &mut IndexSet<(usize, usize)>,
    sort: Sort,
    one: Option<usize>,
    other: Option<usize>,
) -> Result<bool, Memory>
    requires { AreKnown (flat_of flat.now) numbers.now faces.now known.old.keys }
    ensures known { OnOk result
        (AreKnown (flat_of flat.now) numbers.now faces.now known.new.keys) }
    ensures alike { IfOk result (AnswersEither (flat_of flat.now) numbers.now
        (known_face faces.now one) (known_face faces.now other)
        (names_at sort (module_at faces.now one)) (names_at sort (module_at faces.now other))) }
{
    if !each_alike(flat, numbers, faces, known, sort, one, one, other)? {
        return Ok(false);
    }
    if are_same_names(faces, sort, one, other) {
        return Ok(true);
    }
    let same = each_alike(flat, numbers, faces, known, sort, other, one, other)?;
    Ok(same)
}

// Whether each name of a sort that a module has leads alike in two modules.
#[cycle(alike)]
fn each_alike(
    flat: &FlatModule,
    numbers: &[usize],
    faces: &[ModuleFace],
    known: &mut IndexSet<(usize, usize)>,
    sort: Sort,
    named: Option<usize>,
    one: Option<usize>,
    other: Option<usize>,
) -> Result<bool, Memory>
    requires { AreKnown (flat_of flat.now) numbers.now faces.now known.old.keys }
    ensures known { OnOk result
        (AreKnown (flat_of flat.now) numbers.now faces.now known.new.keys) }
    ensures alike { IfOk result (AnswersEach (flat_of flat.now) numbers.now
        (known_face faces.now one) (known_face faces.now other)
        (names_at sort (module_at faces.now named))) }
{
    for index in 0..name_count(faces, named, sort) {
        let Some(name) = name_at(faces, named, sort, index) else {
            unreachable!();
        };
        if !name_alike(flat, numbers, faces, known, one, name, other, name)? {
            return Ok(false);
        }
    }
    Ok(true)
}

// Whether a name leads in a module as another one does in another module.
#[cycle(alike)]
fn name_alike(
    flat: &FlatModule,
    numbers: &[usize],
    faces: &[ModuleFace],
    known: &mut IndexSet<(usize, usize)>,
    one: Option<usize>,
    name: Named<'_>,
    other: Option<usize>,
    word: Named<'_>,
) -> Result<bool, Memory>
    requires { AreKnown (flat_of flat.now) numbers.now faces.now known.old.keys }
    ensures known { OnOk result
        (AreKnown (flat_of flat.now) numbers.now faces.now known.new.keys) }
    ensures alike { IfOk result (AnswersAlike (flat_of flat.now) numbers.now
        (behind_name (known_face faces.now one) (meant_by name.entry))
        (behind_name (known_face faces.now other) (meant_by word.entry))) }
{
    let first = way_before(faces, faces.len(), one, name)?;
    let second = way_before(faces, faces.len(), other, word)?;
    match (first, second) {
        (Some((one, first)), Some((other, second))) => {
            let same = ways_alike(flat, numbers, faces, known, one, first, other, second)?;
            Ok(same)
        }
        (Some((_, first)), None) => Ok(leads_nowhere(first)),
        (None, Some((_, second))) => Ok(leads_nowhere(second)),
        (None, None) => Ok(true),
    }
}

// Whether two ways lead alike, each behind modules below a number.
#[cycle(alike)]
fn ways_alike(
    flat: &FlatModule,
    numbers: &[usize],
    faces: &[ModuleFace],
    known: &mut IndexSet<(usize, usize)>,
    one: usize,
    first: FoundWay<'_>,
    other: usize,
    second: FoundWay<'_>,
) -> Result<bool, Memory>
    requires { AreKnown (flat_of flat.now) numbers.now faces.now known.old.keys }
    ensures known { OnOk result
        (AreKnown (flat_of flat.now) numbers.now faces.now known.new.keys) }
    ensures alike { IfOk result (AnswersAlike (flat_of flat.now) numbers.now
        (way_lead (first_faces faces.now one) (found_way first.entry))
        (way_lead (first_faces faces.now other) (found_way second.entry))) }
{
    let second = step_of(second);
    match step_of(first) {
        Step::To(first) => {
            let Step::To(second) = second else {
                return Ok(false);
            };
            Ok(ends_alike(flat, numbers, first, second))
        }
        Step::Behind(first) => {
            let Step::Behind(second) = second else {
                return Ok(false);
            };
            let same = behind_alike(flat, numbers, faces, known, one, first, other, second)?;
            Ok(same)
        }
        Step::Through(first, name) => {
            let Step::Through(second, word) = second else {
                return Ok(false);
            };
            let same = through_alike(
                flat, numbers, faces, known, one, first, name, other, second, word,
            )?;
            Ok(same)
        }
    }
}

// Whether names lead alike behind two instances.
#[cycle(alike)]
fn behind_alike(
    flat: &FlatModule,
    numbers: &[usize],
    faces: &[ModuleFace],
    known: &mut IndexSet<(usize, usize)>,
    one: usize,
    first: Passage,
    other: usize,
    second: Passage,
) -> Result<bool, Memory>
    requires { AreKnown (flat_of flat.now) numbers.now faces.now known.old.keys }
    ensures known { OnOk result
        (AreKnown (flat_of flat.now) numbers.now faces.now known.new.keys) }
    ensures alike { IfOk result (AnswersAlike (flat_of flat.now) numbers.now
        (way_lead (first_faces faces.now one) (ways.Behind first.instance first.face))
        (way_lead (first_faces faces.now other) (ways.Behind second.instance second.face))) }
{
    if !instances_alike(flat, numbers, first.instance, second.instance) {
        return Ok(false);
    }
    let first = face_below(one, first.face);
    let second = face_below(other, second.face);
    let same = leads_alike(flat, numbers, faces, known, first, second)?;
    Ok(same)
}

// Whether names of two modules lead alike, each through an instance of its module.
#[cycle(alike)]
fn through_alike(
    flat: &FlatModule,
    numbers: &[usize],
    faces: &[ModuleFace],
    known: &mut IndexSet<(usize, usize)>,
    one: usize,
    first: Passage,
    name: Named<'_>,
    other: usize,
    second: Passage,
    word: Named<'_>,
) -> Result<bool, Memory>
    requires { AreKnown (flat_of flat.now) numbers.now faces.now known.old.keys }
    ensures known { OnOk result
        (AreKnown (flat_of flat.now) numbers.now faces.now known.new.keys) }
    ensures alike { IfOk result (AnswersAlike (flat_of flat.now) numbers.now
        (way_lead (first_faces faces.now one) (ways.Through first.instance first.face
        (name_as (meant_by name.entry)))) (way_lead (first_faces faces.now other)
        (ways.Through second.instance second.face (name_as (meant_by word.entry))))) }
{
    if !instances_alike(flat, numbers, first.instance, second.instance) {
        return Ok(false);
    }
    let first = face_below(one, first.face);
    let second = face_below(other, second.face);
    if is_same_name(name, word) && are_known(&*known, first, second) {
        return Ok(true);
    }
    let same = name_alike(flat, numbers, faces, known, first, name, second, word)?;
    Ok(same)
}

// The symbols of a module that INSTANCE replaces, in their order.
fn parameters_in(faces: &[ModuleFace], number: usize) -> &[Parameter]
    ensures { entries_in result.now ≡ (faces_of faces.now number).parameters }
{
    match faces.get(number) {
        Some(face) => face.parameters.as_slice(),
        None => &[],
    }
}

// Whether two modules have the same symbols, with as many round them, and both are constant or
// neither.
fn are_same_parts(faces: &[ModuleFace], one: usize, other: usize) -> bool
    ensures { Tells result (AreSameParts (faces_of faces.now one) (faces_of faces.now other)) }
{
    face_outer(faces, Some(one)) == face_outer(faces, Some(other))
        && face_is_constant(faces, Some(one)) == face_is_constant(faces, Some(other))
        && are_same_parameters(parameters_in(faces, one), parameters_in(faces, other))
}

/// Whether two modules of a table lead alike.
pub(crate) fn faces_alike(
    alloc: Global,
    flat: &FlatModule,
    numbers: &[usize],
    faces: &[ModuleFace],
    one: usize,
    other: usize,
) -> Result<bool, Memory>
    ensures same { IfOk result (λ same. IsTrue same → AreFacesAlike (flat_of flat.now) numbers.now
        (faces_of faces.now one) (faces_of faces.now other)) }
    ensures found { IfOk result (FindsAlike (flat_of flat.now) numbers.now (faces_of faces.now one)
        (faces_of faces.now other)) }
{
    if one == other {
        return Ok(true);
    }
    if !are_same_parts(faces, one, other) {
        return Ok(false);
    }
    let mut known = IndexSet::new(alloc);
    let same = leads_alike(flat, numbers, faces, &mut known, Some(one), Some(other))?;
    Ok(same)
}
