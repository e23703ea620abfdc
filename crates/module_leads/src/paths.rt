// Where paths lead.
ghost use Rattle.std.specs.Prelude.{◌≡◌, ◌∷◌, ◌≤◌, [], ℕ, IfOk, MatchOption, length, map};
ghost use Rattle.name_context.specs.AsTables.{meant_by};
ghost use Rattle.flattened_trees.specs.Leads.{FlatFace, behind_instance, only};
ghost use Rattle.flattened_trees.specs.Leads as leading;
ghost use Rattle.tree_flattener.specs.Found.{lead_in};
ghost use Rattle.module_leads.specs.Paths.{IsWayBefore, LeadsNowhere, next_lead};
ghost use Rattle.module_leads.specs.Faces.{faces_of, first_faces};
ghost use Rattle.module_leads.specs.Ways.{face_at, found_way, way_lead};

use crate::faces::{ModuleFace, face_before};
use crate::ways::{FoundWay, Way};
use flattened_trees::End;
use name_context::Named;
use std::alloc::Global;
use tool_list::Memory;
use tree_flattener::Lead;

// Nothing is known of a name.
fn nowhere(alloc: Global) -> Lead
    ensures { lead_in result ≡ leading.nowhere }
{
    Lead {
        path: Vec::new(alloc),
        end: End::Nowhere,
    }
}

// What follows a way: an end, or a name of a module, with those behind it, through an instance.
pub enum Next<'a> {
    End(End),
    Step {
        instance: usize,
        face: Option<usize>,
        name: Named<'a>,
        rest: &'a [Named<'a>],
    },
}

// The end, where no name follows.
fn end_of<'a>(end: End, names: &'a [Named<'a>]) -> Next<'a>
    ensures { (faces : ℕ → FlatFace) → next_lead faces result ≡ only end (map meant_by names.now) }
{
    if names.is_empty() {
        Next::End(end)
    } else {
        Next::End(End::Nowhere)
    }
}

// The first of these names, behind an instance.
fn step_behind<'a>(instance: usize, face: Option<usize>, names: &'a [Named<'a>]) -> Next<'a>
    ensures { (faces : ℕ → FlatFace) → next_lead faces result
        ≡ behind_instance instance (face_at faces face) (map meant_by names.now) }
{
    match names {
        [] => Next::End(End::Nowhere),
        [name, rest @ ..] => Next::Step {
            instance,
            face,
            name: *name,
            rest,
        },
    }
}

// What follows a way that was put, at these names.
fn next_of_put<'a>(way: &'a Way, names: &'a [Named<'a>]) -> Next<'a>
    ensures { (faces : ℕ → FlatFace) → next_lead faces result
        ≡ way_lead faces way.now (map meant_by names.now) }
{
    match way {
        Way::To(end) => end_of(*end, names),
        Way::Behind { instance, face } => step_behind(*instance, *face, names),
        Way::Through {
            instance,
            face,
            name,
        } => Next::Step {
            instance: *instance,
            face: *face,
            name: name.named(),
            rest: names,
        },
    }
}

// What follows a way at these names.
fn next_of<'a>(way: FoundWay<'a>, names: &'a [Named<'a>]) -> Next<'a>
    ensures { (faces : ℕ → FlatFace) → next_lead faces result
        ≡ way_lead faces (found_way way.entry) (map meant_by names.now) }
{
    match way {
        FoundWay::Put(way) => next_of_put(way, names),
        FoundWay::To(end) => end_of(end, names),
        FoundWay::Through {
            instance,
            face,
            name,
        } => Next::Step {
            instance,
            face,
            name,
            rest: names,
        },
    }
}

/// The way of a name behind a face among the first so many, and the number of the face.
pub(crate) fn way_before<'a>(
    faces: &'a [ModuleFace],
    limit: usize,
    face: Option<usize>,
    name: Named<'_>,
) -> Result<Option<(usize, FoundWay<'a>)>, Memory>
    requires { limit ≤ length faces.now }
    ensures { IfOk result (λ way. MatchOption way
        (LeadsNowhere faces.now limit face (meant_by name.entry))
        (λ found. IsWayBefore faces.now limit face (meant_by name.entry) found.0
        (found_way found.1))) }
{
    let Some((number, face)) = face_before(faces, limit, face) else {
        return Ok(None);
    };
    let Some(way) = face.way(name)? else {
        return Ok(None);
    };
    Ok(Some((number, way)))
}

/// Where a name leads that goes this way, at the names that follow, by the first so many faces.
pub(crate) fn follow<'a>(
    alloc: Global,
    faces: &'a [ModuleFace],
    limit: usize,
    way: FoundWay<'a>,
    names: &'a [Named<'a>],
) -> Result<Lead, Memory>
    requires { limit ≤ length faces.now }
    ensures { IfOk result (λ lead. lead_in lead
        ≡ way_lead (first_faces faces.now limit) (found_way way.entry) (map meant_by names.now)) }
{
    let mut path = Vec::new(alloc);
    let mut limit = limit;
    let mut next = next_of(way, names);
    'path: loop {
        match next {
            Next::End(end) => return Ok(Lead { path, end }),
            Next::Step {
                instance,
                face,
                name,
                rest,
            } => {
                path.push(instance)?;
                let found = way_before(faces, limit, face, name)?;
                let Some((number, further)) = found else {
                    return Ok(Lead {
                        path,
                        end: End::Nowhere,
                    });
                };
                limit = number;
                next = next_of(further, rest);
            }
        }
    }
}

// The first of these names, and those behind it.
fn first_of<'a>(names: &'a [Named<'a>]) -> Option<(Named<'a>, &'a [Named<'a>])>
    ensures { MatchOption result (names.now ≡ [])
        (λ first. map meant_by names.now ≡ meant_by first.0 ∷ map meant_by first.1.now) }
{
    match names {
        [] => None,
        [name, rest @ ..] => Some((*name, rest)),
    }
}

/// Where names lead behind an instance of a module.
pub(crate) fn face_lead<'a>(
    alloc: Global,
    faces: &'a [ModuleFace],
    face: Option<usize>,
    names: &'a [Named<'a>],
) -> Result<Lead, Memory>
    ensures { IfOk result (λ lead. lead_in lead
        ≡ (face_at (faces_of faces.now) face).leads (map meant_by names.now)) }
{
    let Some((name, rest)) = first_of(names) else {
        return Ok(nowhere(alloc));
    };
    let found = way_before(faces, faces.len(), face, name)?;
    let Some((number, way)) = found else {
        return Ok(nowhere(alloc));
    };
    let lead = follow(alloc, faces, number, way, rest)?;
    Ok(lead)
}
