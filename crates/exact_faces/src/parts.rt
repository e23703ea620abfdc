// The parts of a face that hold exactly what its exports reach.
ghost use Rattle.std.specs.Prelude.{◌≡◌, ℕ, IfOk, IsTrue, None, OnOk, Some, if◌then◌else◌, is_some};
ghost use Rattle.std.specs.Prelude.{nat_eq, true};
ghost use Rattle.std.specs.Option.{option_or};
ghost use Rattle.std.specs.Str.{bytes_eq};
ghost use Rattle.tla_model.specs.declared.ids.DeclId.{DeclId};
ghost use Rattle.tla_model.specs.Entities.{same_decl};
ghost use Rattle.tla_model.specs.Tables as tables;
ghost use Rattle.module_model.specs.Parts.{reached};
ghost use Rattle.face_views.specs.Found.{text_shown};
ghost use Rattle.exact_faces.specs.Found.{decl_of};
ghost use Rattle.exact_faces.specs.Kept.{AreKept, AreOwnFound, AreOwnKept, AreOwnPlain, IsKeptPart};
ghost use Rattle.exact_faces.specs.Kept.{IsOwnPart, IsPlain, StandIn, kept_of};

use crate::found::Found;
use crate::kept::{is_kept, kept};
use module_model::{Part, Parts};
use std::alloc::Global;
use std::sync::Arc;
use tool_list::Memory;

// Puts the instance at a place of a text, if it is found, with what is kept of it.
fn put_found(
    alloc: Global,
    new: &mut Part,
    found: &Found<'_>,
    title: &str,
    place: u32,
) -> Result<(), Memory>
    ensures { OnOk result ((other : ℕ) → tables.lookup nat_eq new.new other
        ≡ option_or (tables.lookup nat_eq new.old other)
        (if nat_eq other place then kept_of found.now (decl_of title.now place) else None)) }
{
    let Some(table) = found.get(title, place) else {
        return Ok(());
    };
    let table = kept(alloc, table)?;
    new.put(place, table)?;
    Ok(())
}

// The instances of a text that are found, with what is kept of them.
fn kept_part(alloc: Global, found: &Found<'_>, title: &str, part: &Part) -> Result<Part, Memory>
    ensures { IfOk result (λ new. IsKeptPart found.now title.now part.now new) }
{
    let mut new = Part::new(alloc);
    for index in 0..part.len() {
        let Some((place, _)) = part.at(index) else {
            unreachable!();
        };
        put_found(alloc, &mut new, found, title, place)?;
    }
    Ok(new)
}

// The instances that are found, with what is kept of them.
fn kept_parts(alloc: Global, found: &Found<'_>, parts: &Parts) -> Result<Parts, Memory>
    requires { StandIn found.now parts.now }
    ensures { IfOk result (λ new. AreKept found.now new) }
{
    let mut new = Parts::new(alloc);
    for index in 0..parts.len() {
        let Some((title, part)) = parts.at(index) else {
            unreachable!();
        };
        let part = kept_part(alloc, found, title, part)?;
        new.add(alloc, title, part)?;
    }
    Ok(new)
}

// Whether the instance at a place of a text is found, and all of its table is kept.
fn is_plain(found: &Found<'_>, title: &str, place: u32) -> bool
    ensures { IsTrue result → IsPlain found.now (decl_of title.now place) }
{
    match found.get(title, place) {
        Some(table) => is_kept(table),
        None => false,
    }
}

// Whether all instances of a text are found, and all of their tables are kept.
fn are_plain(found: &Found<'_>, title: &str, part: &Part) -> bool
    ensures { IsTrue result → (place : ℕ) → is_some (tables.lookup nat_eq part.now place) ≡ true
        → IsPlain found.now (decl_of title.now place) }
{
    for index in 0..part.len() {
        let Some((place, _)) = part.at(index) else {
            unreachable!();
        };
        if !is_plain(found, title, place) {
            return false;
        }
    }
    true
}

// Whether all instances of a text are found.
fn are_found(found: &Found<'_>, title: &str, part: &Part) -> bool
    ensures { IsTrue result → (place : ℕ) → is_some (tables.lookup nat_eq part.now place) ≡ true
        → is_some (tables.lookup same_decl found.now (decl_of title.now place)) ≡ true }
{
    for index in 0..part.len() {
        let Some((place, _)) = part.at(index) else {
            unreachable!();
        };
        if !found.has(title, place) {
            return false;
        }
    }
    true
}

// The instances of a text, if there are some.
fn part_of<'p>(parts: &'p Parts, title: &str) -> Option<&'p Arc<Part>>
    ensures { text_shown result ≡ tables.lookup bytes_eq parts.now title.now }
{
    for index in 0..parts.len() {
        let Some((text, part)) = parts.at(index) else {
            unreachable!();
        };
        if title.as_bytes() == text.as_bytes() {
            return Some(part);
        }
    }
    None
}

/// Whether all instances that the text of a module declares are found.
pub fn are_own_found(found: &Found<'_>, title: &str, parts: &Parts) -> bool
    ensures { IsTrue result → AreOwnFound found.now title.now parts.now }
{
    match part_of(parts, title) {
        Some(part) => are_found(found, title, part),
        None => true,
    }
}

/// Whether all instances that the text of a module declares are found, and all of their tables are
/// kept.
pub fn are_own_plain(found: &Found<'_>, title: &str, parts: &Parts) -> bool
    ensures { IsTrue result → AreOwnPlain found.now title.now parts.now }
{
    match part_of(parts, title) {
        Some(part) => are_plain(found, title, part),
        None => true,
    }
}

// Whether all instances are found, and all of their tables are kept.
fn are_all_plain(found: &Found<'_>, parts: &Parts) -> bool
    ensures { IsTrue result → (decl : DeclId) → is_some (reached parts.now decl) ≡ true
        → IsPlain found.now decl }
{
    for index in 0..parts.len() {
        let Some((title, part)) = parts.at(index) else {
            unreachable!();
        };
        if !are_plain(found, title, part) {
            return false;
        }
    }
    true
}

// The same instances. Their parts are shared.
fn shared(alloc: Global, parts: &Parts) -> Result<Parts, Memory>
    ensures { IfOk result (λ new. (decl : DeclId) → reached new decl ≡ reached parts.now decl) }
{
    let mut new = Parts::new(alloc);
    new.join(alloc, parts)?;
    Ok(new)
}

/// The instances that are found, with what of their tables can be named behind an instance. The
/// parts are shared where they have nothing else.
pub fn exact_parts(alloc: Global, found: &Found<'_>, parts: &Parts) -> Result<Parts, Memory>
    requires { StandIn found.now parts.now }
    ensures { IfOk result (λ new. AreKept found.now new) }
{
    if are_all_plain(found, parts) {
        let same = shared(alloc, parts)?;
        return Ok(same);
    }
    let made = kept_parts(alloc, found, parts)?;
    Ok(made)
}

// The instances of a text in parts that are found, with what is kept of them.
fn own_part(alloc: Global, found: &Found<'_>, title: &str, parts: &Parts) -> Result<Part, Memory>
    ensures { IfOk result (IsOwnPart found.now title.now parts.now) }
{
    match part_of(parts, title) {
        Some(part) => kept_part(alloc, found, title, part),
        None => Ok(Part::new(alloc)),
    }
}

/// The instances of a module's text, all of which are found, with what of their tables can be named
/// behind an instance, and the others as they are: the parts of these are shared.
pub fn own_kept(
    alloc: Global,
    found: &Found<'_>,
    title: &str,
    parts: &Parts,
) -> Result<Parts, Memory>
    requires stand { StandIn found.now parts.now }
    requires own { AreOwnFound found.now title.now parts.now }
    ensures { IfOk result (AreOwnKept found.now title.now parts.now) }
{
    let part = own_part(alloc, found, title, parts)?;
    let mut new = Parts::new(alloc);
    new.add(alloc, title, part)?;
    new.join(alloc, parts)?;
    Ok(new)
}
