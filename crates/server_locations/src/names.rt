// Uses and declaring names at an offset, and those of a declaration.
ghost use Rattle.std.specs.Prelude.{◌≡◌, IfOk};
ghost use Rattle.std.specs.List.{find};
ghost use Rattle.std.specs.Option.{option_copied};
ghost use Rattle.tla_model.specs.Entities as entities;
ghost use Rattle.server_locations.specs.Locations as in_locations;

use crate::found::FoundModule;
use std::alloc::Global;
use tla_model::{Decl, DeclId, Use};
use tla_symbols::Span;
use tool_list::{List, Memory};

// Whether an offset is within a span, which leaves its end out.
fn is_within(span: Span, offset: u32) -> bool
    ensures { result ≡ in_locations.is_within span offset }
{
    span.start <= offset && offset < span.end
}

// The declaration that a use means.
fn meant_by(found: &Use) -> Result<DeclId, Memory>
    ensures { IfOk result (λ decl. decl ≡ in_locations.meant_by found.now) }
{
    Ok(DeclId {
        module: found.module.copied()?,
        place: found.place,
    })
}

// The first use whose name has an offset.
fn use_at(uses: &[Use], offset: u32) -> Option<&Use>
    ensures { option_copied result
        ≡ find (λ u. in_locations.is_within u.name offset) uses.now }
{
    uses.iter().find(|found| is_within(found.name, offset))
}

// The first declaring name that has an offset.
fn decl_at(decls: &[Decl], offset: u32) -> Option<&Decl>
    ensures { option_copied result
        ≡ find (λ d. in_locations.is_within d.name offset) decls.now }
{
    decls.iter().find(|found| is_within(found.name, offset))
}

/// What the use at an offset, in bytes, means, if there is one.
pub fn used_at(uses: &[Use], offset: u32) -> Result<Option<DeclId>, Memory>
    ensures { IfOk result (λ decl. decl ≡ in_locations.used_at uses.now offset) }
{
    let Some(found) = use_at(uses, offset) else {
        return Ok(None);
    };
    Ok(Some(meant_by(found)?))
}

/// The declaring name at an offset, in bytes, if there is one.
pub fn declared_at(decls: &[Decl], offset: u32) -> Result<Option<DeclId>, Memory>
    ensures { IfOk result (λ decl. decl ≡ in_locations.declared_at decls.now offset) }
{
    let Some(found) = decl_at(decls, offset) else {
        return Ok(None);
    };
    Ok(Some(found.id.copied()?))
}

/// What is used or declared at an offset, in bytes, of a module's text.
pub fn named_at(module: &FoundModule<'_>, offset: u32) -> Result<Option<DeclId>, Memory>
    ensures { IfOk result (λ decl. decl ≡ in_locations.named_at module.now offset) }
{
    match used_at(module.uses(), offset)? {
        Some(decl) => Ok(Some(decl)),
        None => {
            let decl = declared_at(module.decls(), offset)?;
            Ok(decl)
        }
    }
}

// Whether a declaring name is this one.
fn is_same(id: &DeclId, decl: &DeclId) -> bool
    ensures { result ≡ entities.same_decl id.now decl.now }
{
    id.module.as_str() == decl.module.as_str() && id.place == decl.place
}

// Whether a use means this declaration.
fn means(found: &Use, decl: &DeclId) -> bool
    ensures { result ≡ entities.same_decl (in_locations.meant_by found.now) decl.now }
{
    found.module.as_str() == decl.module.as_str() && found.place == decl.place
}

// The first of declaring names that is this one.
fn decl_of<'a>(decls: &'a [Decl], decl: &DeclId) -> Option<&'a Decl>
    ensures { option_copied result
        ≡ find (λ d. entities.same_decl d.id decl.now) decls.now }
{
    decls.iter().find(|found| is_same(&found.id, decl))
}

/// Where the name of a declaration stands, if it is among these.
pub fn declared_in(decls: &[Decl], decl: &DeclId) -> Option<Span>
    ensures { result ≡ in_locations.declared_in decls.now decl.now }
{
    match decl_of(decls, decl) {
        Some(found) => Some(found.name),
        None => None,
    }
}

/// Where those of these uses stand that mean a declaration, in their order.
pub fn used_in(alloc: Global, uses: &[Use], decl: &DeclId) -> Result<List<Span>, Memory>
    ensures { IfOk result (λ spans. spans ≡ in_locations.used_in uses.now decl.now) }
{
    let mut spans = List::new(alloc);
    for found in uses {
        if means(found, decl) {
            spans.push(found.name)?;
        }
    }
    Ok(spans)
}
