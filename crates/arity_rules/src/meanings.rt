// What the names of a text mean, by where they begin.
ghost use Rattle.std.specs.Prelude.{◌≡◌, ℕ, IfOk, OnOk, None, Some, option_copied};
ghost use Rattle.arity_rules.specs.Arities as arities;
ghost use Rattle.arity_rules.specs.Noted as noted;

use indexmap::{IndexMap, IndexSet};
use std::alloc::Global;
use std::marker::Model;
use tla_model::{Diagnostic, Entity, Use};
use tool_list::Memory;

/// What the names of a text mean, by where they begin, in bytes. A name that neither means a
/// declaration nor is unknown is built in, and is as a declared constant. Contracts see what is noted.
pub struct Meanings {
    declared: IndexMap<u32, Entity>,
    unknown: IndexSet<u32>,
    built_in: Entity,
}

// By hand, so that a proof meets one call wherever a value ends.
impl Drop for Meanings {
    fn drop(self) {
        let Meanings {
            declared: _,
            unknown: _,
            built_in: _,
        } = self;
    }
}

impl Model for Meanings {
    ghost use Rattle.std.specs.Prelude.{◌≡◌};
    ghost use Rattle.tla_model.specs.declared.entity.Entity.TheVariants as entity;
    ghost use Rattle.arity_rules.specs.Noted.{Notes};

    ghost Value = { Notes };

    ghost view = { λ m. record { declared = m.declared.entries; unknown = m.unknown.keys } };

    ghost invariant = { λ m. m.built_in ≡ entity.Constant 0 };
}

// The entities that names mean, by where the names begin.
fn declared_names(
    alloc: Global,
    uses: &[Use],
    entities: &[Entity],
) -> Result<IndexMap<u32, Entity>, Memory>
    ensures { IfOk result (λ declared. noted.AreDeclared declared.entries
        (noted.declarations uses.now entities.now)) }
{
    let mut declared = IndexMap::new(alloc);
    for (name, entity) in uses.iter().zip(entities) {
        declare(&mut declared, name.name.start, entity)?;
    }
    Ok(declared)
}

// Notes what a name means that begins there, unless one is noted.
fn declare(declared: &mut IndexMap<u32, Entity>, start: u32, entity: &Entity) -> Result<(), Memory>
    ensures { OnOk result (noted.IsDeclared start entity.now declared.old.entries
        declared.new.entries) }
{
    if declared.contains_key(&start) {
        return Ok(());
    }
    declared.insert(start, entity.copied()?)?;
    Ok(())
}

// Whether a fault is one of a name that means nothing.
fn is_unknown(fault: &Diagnostic) -> bool
    ensures { result ≡ arities.is_unknown_code fault.now.code }
{
    fault.code == 401 || fault.code == 405
}

// Where the names begin that mean nothing.
fn unknown_names(alloc: Global, faults: &[Diagnostic]) -> Result<IndexSet<u32>, Memory>
    ensures { IfOk result (λ unknown. noted.AreUnknown unknown.keys faults.now) }
{
    let mut unknown = IndexSet::new(alloc);
    for fault in faults {
        if is_unknown(fault) {
            unknown.insert(fault.span.start)?;
        }
    }
    Ok(unknown)
}

impl Meanings {
    /// What names mean, by the uses that are resolved, the entities that these mean, and the faults
    /// of names.
    pub fn new(
        alloc: Global,
        uses: &[Use],
        entities: &[Entity],
        faults: &[Diagnostic],
    ) -> Result<Meanings, Memory>
        ensures { IfOk result (λ meanings. (start : ℕ) → noted.told meanings start
            ≡ noted.meaning_by uses.now entities.now faults.now start) }
    {
        Ok(Meanings {
            declared: declared_names(alloc, uses, entities)?,
            unknown: unknown_names(alloc, faults)?,
            built_in: Entity::Constant { arity: 0 },
        })
    }

    /// What a name means that begins there; None where it means nothing.
    pub fn get(&self, start: u32) -> Option<&Entity>
        ensures { option_copied result ≡ noted.told self.now start }
    {
        if let Some(entity) = self.declared.get(&start) {
            return Some(entity);
        }
        if self.unknown.contains(&start) {
            return None;
        }
        Some(&self.built_in)
    }
}
