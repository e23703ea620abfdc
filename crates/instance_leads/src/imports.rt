// Where the instances lead that an imported module exports.
ghost use Rattle.std.specs.Prelude.{◌≡◌, ◌∷◌, [], IfOk, List as ListOf, OnOk, is_some, map, true, unwrap_or};
ghost use Rattle.std.specs.List.{AllByRecursion};
ghost use Rattle.tla_model.specs.declared.names.Meaning.TheVariants.{Declared};
ghost use Rattle.module_model.specs.Exports.{and_known, behind_along, face_instances, face_outside, known_as};
ghost use Rattle.module_model.specs.Given.{IsWhole};
ghost use Rattle.module_model.specs.NamedModules.{exported_known};
ghost use Rattle.instance_leads.specs.Found.{AreOfFace, IsTold, known_here};
ghost use Rattle.instance_leads.specs.Leading.{known_in};
ghost use Rattle.instance_leads.specs.declared.ended.Ended.{Ended as EndedModule};

use crate::leads::Leads;
use crate::named::{exports_in, led_on_face};
use module_model::Face;
use std::alloc::Global;
use tla_model::{Callee, DeclId, Entity, Meaning};
use tla_symbols::Op;
use tool_list::Memory;

// Notes where the instance of a declaration leads.
fn put_instance<'a>(more: &mut Leads<'a>, face: &'a Face, decl: &'a DeclId) -> Result<(), Memory>
    requires there { is_some (face_instances face.now decl.now) ≡ true }
    requires led { AreOfFace face.now more.old }
    ensures led { OnOk result (AreOfFace face.now more.new) }
    ensures known { OnOk result ((nested : ListOf EndedModule) → known_in nested more.new
        ≡ and_known (known_in nested more.old)
        (known_as decl.now (behind_along (face_instances face.now)
        (unwrap_or (face_instances face.now decl.now) [])))) }
{
    more.put(decl.module.as_str(), decl.place, led_on_face(face, decl))
}

// Notes where what calls this leads, if it is an instance.
fn put_called<'a>(
    more: &mut Leads<'a>,
    face: &'a Face,
    entity: &Entity,
    callee: &'a Callee,
) -> Result<(), Memory>
    requires told { IsTold (face_instances face.now) (Declared entity.now callee.now) }
    requires led { AreOfFace face.now more.old }
    ensures led { OnOk result (AreOfFace face.now more.new) }
    ensures known { OnOk result ((nested : ListOf EndedModule) → known_in nested more.new
        ≡ and_known (known_in nested more.old)
        (known_here face.now (Declared entity.now callee.now ∷ []))) }
{
    match entity {
        Entity::Instance { .. } => put_instance(more, face, &callee.decl),
        _ => Ok(()),
    }
}

// Notes where a name leads that means this, if it is an instance.
fn put_meant<'a>(more: &mut Leads<'a>, face: &'a Face, meaning: &'a Meaning) -> Result<(), Memory>
    requires told { IsTold (face_instances face.now) meaning.now }
    requires led { AreOfFace face.now more.old }
    ensures led { OnOk result (AreOfFace face.now more.new) }
    ensures known { OnOk result ((nested : ListOf EndedModule) → known_in nested more.new
        ≡ and_known (known_in nested more.old) (known_here face.now (meaning.now ∷ []))) }
{
    match meaning {
        Meaning::Declared { entity, callee } => put_called(more, face, entity, callee),
        Meaning::BuiltIn => Ok(()),
    }
}

// Notes where words lead.
fn put_words<'a>(
    more: &mut Leads<'a>,
    face: &'a Face,
    words: &[(&'a str, &'a Meaning)],
) -> Result<(), Memory>
    requires told { AllByRecursion
        (λ word. IsTold (face_instances face.now) word.1.now) words.now }
    requires led { AreOfFace face.now more.old }
    ensures led { OnOk result (AreOfFace face.now more.new) }
    ensures known { OnOk result ((nested : ListOf EndedModule) → known_in nested more.new
        ≡ and_known (known_in nested more.old)
        (known_here face.now (map (λ word. word.1.now) words.now))) }
{
    for (_, meaning) in words {
        put_meant(more, face, *meaning)?;
    }
    Ok(())
}

// Notes where symbols lead.
fn put_symbols<'a>(
    more: &mut Leads<'a>,
    face: &'a Face,
    symbols: &'a [(Op, Meaning)],
) -> Result<(), Memory>
    requires told { AllByRecursion
        (λ symbol. IsTold (face_instances face.now) symbol.1) symbols.now }
    requires led { AreOfFace face.now more.old }
    ensures led { OnOk result (AreOfFace face.now more.new) }
    ensures known { OnOk result ((nested : ListOf EndedModule) → known_in nested more.new
        ≡ and_known (known_in nested more.old)
        (known_here face.now (map (λ symbol. symbol.1) symbols.now))) }
{
    for (_, meaning) in symbols {
        put_meant(more, face, meaning)?;
    }
    Ok(())
}

/// Where the instances lead that a module with this face exports.
pub fn face_leads<'a>(alloc: Global, face: &'a Face) -> Result<Leads<'a>, Memory>
    requires { IsWhole face.now }
    ensures led { IfOk result (AreOfFace face.now) }
    ensures known { IfOk result (λ more. (nested : ListOf EndedModule) → known_in nested more
        ≡ exported_known (face_outside face.now)) }
{
    let table = exports_in(face);
    // The proof needs that no name of the table is there twice.
    let _len = table.len();
    let words = table.instances(alloc)?;
    let mut more = Leads::new(alloc);
    put_words(&mut more, face, words.as_slice())?;
    put_symbols(&mut more, face, table.symbols())?;
    Ok(more)
}
