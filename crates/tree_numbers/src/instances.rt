// Instances with the same contents, by the first of them.
ghost use Rattle.std.specs.Prelude.{ℕ, IfOk, List, length};
ghost use Rattle.std.specs.List.{AllByRecursion};
ghost use Rattle.kind_text.specs.FlatModule.{FlatModule as Flat, UsesInstance};
ghost use Rattle.kind_table.specs.Flattened.{flat_of};
ghost use Rattle.resolved_trees.specs.Resolved.{resolved};
ghost use Rattle.tree_numbers.specs.Numbered.{AreApart, AreContents, AreInstances, AreKnown, IsFirst, IsNumber, IsSameInstance, IsSamePath, KeepsFirsts, KeepsKnown, NumberNodes};

use crate::keys::{Contents, contents_of};
use indexmap::IndexMap;
use kind_table::FlatModule;
use std::alloc::{AllocError, Global};

/// The instances that were met: those with the same contents are told by the first of them.
pub(crate) struct Instances {
    firsts: IndexMap<usize, usize>,
    known: IndexMap<Contents, usize>,
}

// By hand, so that a proof meets one call wherever a value ends.
impl Drop for Instances {
    fn drop(self) {
        let Instances {
            firsts: _,
            known: _,
        } = self;
    }
}

impl Instances {
    /// No instance was met.
    pub(crate) fn new(alloc: Global) -> Instances
        ensures { (flat : Flat) (numbers : List ℕ) → AreInstances flat numbers result }
    {
        Instances {
            firsts: IndexMap::new(alloc),
            known: IndexMap::new(alloc),
        }
    }

    /// The first instance with the same contents.
    pub(crate) fn first(
        &mut self,
        alloc: Global,
        flat: &FlatModule,
        numbers: &[usize],
        instance: usize,
    ) -> Result<usize, AllocError>
        requires numbers { NumberNodes (flat_of flat.now) numbers.now }
        requires apart { AreApart (resolved (flat_of flat.now)) (IsNumber numbers.now) }
        requires instances { AreInstances (flat_of flat.now) numbers.now self.old }
        requires instance { UsesInstance (flat_of flat.now) (length numbers.now) instance }
        ensures instances { AreInstances (flat_of flat.now) numbers.now self.new }
        ensures kept { KeepsFirsts self.old.known.entries self.new.known.entries }
        ensures same { IfOk result (λ first. IsSameInstance (flat_of flat.now) instance first) }
        ensures first { IfOk result (λ first. IsFirst self.new.known.entries first) }
    {
        if let Some(first) = self.firsts.get(&instance) {
            return Ok(*first);
        }
        let first = first_met(alloc, flat, numbers, &mut self.known, instance)?;
        self.firsts.insert(instance, first)?;
        Ok(first)
    }

    /// A path by the first instances with the same contents.
    pub(crate) fn path(
        &mut self,
        alloc: Global,
        flat: &FlatModule,
        numbers: &[usize],
        path: &[usize],
    ) -> Result<Vec<usize>, AllocError>
        requires numbers { NumberNodes (flat_of flat.now) numbers.now }
        requires apart { AreApart (resolved (flat_of flat.now)) (IsNumber numbers.now) }
        requires instances { AreInstances (flat_of flat.now) numbers.now self.old }
        requires path { AllByRecursion (UsesInstance (flat_of flat.now) (length numbers.now))
            path.now }
        ensures instances { AreInstances (flat_of flat.now) numbers.now self.new }
        ensures kept { KeepsFirsts self.old.known.entries self.new.known.entries }
        ensures same { IfOk result (λ v. IsSamePath (flat_of flat.now) path.now v.items) }
        ensures firsts { IfOk result (λ v. AllByRecursion (IsFirst self.new.known.entries)
            v.items) }
    {
        let mut firsts = Vec::with_capacity(alloc, path.len())?;
        for instance in path {
            let first = self.first(alloc, flat, numbers, *instance)?;
            firsts.push(first)?;
        }
        Ok(firsts)
    }
}

// The first instance with the contents of one that is met for the first time.
fn first_met(
    alloc: Global,
    flat: &FlatModule,
    numbers: &[usize],
    known: &mut IndexMap<Contents, usize>,
    instance: usize,
) -> Result<usize, AllocError>
    requires numbers { NumberNodes (flat_of flat.now) numbers.now }
    requires apart { AreApart (resolved (flat_of flat.now)) (IsNumber numbers.now) }
    requires known { AreKnown (flat_of flat.now) numbers.now known.old.entries }
    requires instance { UsesInstance (flat_of flat.now) (length numbers.now) instance }
    ensures known { AreKnown (flat_of flat.now) numbers.now known.new.entries }
    ensures kept { KeepsFirsts known.old.entries known.new.entries }
    ensures same { IfOk result (λ first. IsSameInstance (flat_of flat.now) instance first) }
    ensures first { IfOk result (λ first. IsFirst known.new.entries first) }
{
    match flat.instances.get(instance) {
        None => Ok(instance),
        Some(here) => {
            let contents = contents_of(alloc, numbers, here)?;
            let first = first_with(flat, known, contents, instance)?;
            Ok(first)
        }
    }
}

// The first instance with these contents, which this one has.
fn first_with(
    flat: &FlatModule,
    known: &mut IndexMap<Contents, usize>,
    contents: Contents,
    instance: usize,
) -> Result<usize, AllocError>
    requires known { AllByRecursion (λ e. AreContents (flat_of flat.now) e.0 e.1)
        known.old.entries }
    requires contents { AreContents (flat_of flat.now) contents instance }
    ensures known { KeepsKnown (flat_of flat.now) contents known.old.entries known.new.entries }
    ensures kept { KeepsFirsts known.old.entries known.new.entries }
    ensures same { IfOk result (λ first. IsSameInstance (flat_of flat.now) instance first) }
    ensures first { IfOk result (λ first. IsFirst known.new.entries first) }
{
    if let Some(first) = known.get(&contents) {
        return Ok(*first);
    }
    known.insert(contents, instance)?;
    Ok(instance)
}
