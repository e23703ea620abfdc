// Whether parts have the same instances.
ghost use Rattle.std.specs.Prelude.{◌≡◌, Some};
ghost use Rattle.std.specs.Str.{bytes_eq};
ghost use Rattle.tla_model.specs.Tables as tables;
ghost use Rattle.face_views.specs.Exact.{Tells};
ghost use Rattle.face_views.specs.Found.{AllAreFound, AllAreWithin, AreFound, AreSame, AreWithin};
ghost use Rattle.face_views.specs.Found.{IsFound, text_shown};

use crate::table::are_same_names;
use module_model::{Part, Parts};
use std::sync::Arc;
use tla_model::NameTable;

// Whether the instance at a place of a part is in another, and its module exports the same.
fn has_same(part: &Part, other: &Part, place: u32) -> bool
    ensures { Tells result (IsFound (Some part.now) (Some other.now) place) }
{
    let Some(exports) = part.get(place) else {
        return true;
    };
    let Some(found) = other.get(place) else {
        return false;
    };
    are_same_names(exports, found)
}

// Whether all instances of a part are in another, and their modules export the same. Each is looked
// up in both: what a part has at a place is what is found there.
fn are_found(part: &Part, other: &Part) -> bool
    ensures { Tells result (AreFound (Some part.now) (Some other.now)) }
{
    for index in 0..part.len() {
        let Some((place, _)) = part.at(index) else {
            unreachable!();
        };
        if !has_same(part, other, place) {
            return false;
        }
    }
    true
}

// Whether all instances of a part are in another, whatever their modules export.
fn are_within(part: &Part, other: &Part) -> bool
    ensures { Tells result (AreWithin (Some part.now) (Some other.now)) }
{
    for index in 0..part.len() {
        let Some((place, _)) = part.at(index) else {
            unreachable!();
        };
        if other.get(place).is_none() {
            return false;
        }
    }
    true
}

// The part of a text, if it is there. There are few parts: one for each text that declares
// instances which are reached.
fn part_of<'a>(parts: &'a Parts, title: &str) -> Option<&'a Arc<Part>>
    ensures { text_shown result ≡ tables.lookup bytes_eq parts.now title.now }
{
    for index in 0..parts.len() {
        let Some((name, part)) = parts.at(index) else {
            unreachable!();
        };
        if title.as_bytes() == name.as_bytes() {
            return Some(part);
        }
    }
    None
}

// Whether all instances of a text are among those of other parts, and their modules export the
// same. A part without instances is as good as none.
fn is_found(parts: &Parts, others: &Parts, title: &str) -> bool
    ensures { Tells result (AreFound (tables.lookup bytes_eq parts.now title.now)
        (tables.lookup bytes_eq others.now title.now)) }
{
    let Some(part) = part_of(parts, title) else {
        return true;
    };
    match part_of(others, title) {
        Some(other) => are_found(part, other),
        None => part.len() == 0,
    }
}

// Whether all instances of a text are among those of other parts, whatever their modules export.
fn is_within(parts: &Parts, others: &Parts, title: &str) -> bool
    ensures { Tells result (AreWithin (tables.lookup bytes_eq parts.now title.now)
        (tables.lookup bytes_eq others.now title.now)) }
{
    let Some(part) = part_of(parts, title) else {
        return true;
    };
    match part_of(others, title) {
        Some(other) => are_within(part, other),
        None => part.len() == 0,
    }
}

// Whether all instances are among those of other parts, and their modules export the same.
fn are_all_found(parts: &Parts, others: &Parts) -> bool
    ensures { Tells result (AllAreFound parts.now others.now) }
{
    for index in 0..parts.len() {
        let Some((title, _)) = parts.at(index) else {
            unreachable!();
        };
        if !is_found(parts, others, title) {
            return false;
        }
    }
    true
}

// Whether all instances are among those of other parts, whatever their modules export.
fn are_all_within(parts: &Parts, others: &Parts) -> bool
    ensures { Tells result (AllAreWithin parts.now others.now) }
{
    for index in 0..parts.len() {
        let Some((title, _)) = parts.at(index) else {
            unreachable!();
        };
        if !is_within(parts, others, title) {
            return false;
        }
    }
    true
}

/// Whether parts have the same instances, and their modules export the same. In which order they
/// were put is not looked at.
pub fn are_same_instances(one: &Parts, other: &Parts) -> bool
    ensures { Tells result (AreSame one.now other.now) }
{
    are_all_found(one, other) && are_all_within(other, one)
}
