// What meanings are looked up by.
ghost use Rattle.std.specs.Prelude.{◌≡◌, IfOk};
ghost use Rattle.std.specs.Cmp.{partial_equiv_from_equiv};
ghost use Rattle.tla_model.specs.Keys.{meaning_input};
ghost use Rattle.tree_kinds.specs.Standing as standing;
ghost use Rattle.module_leads.specs.Keys.{meant_arity, same_arity, same_key, symbol_arity, symbol_key};
ghost use Rattle.module_leads.specs.Equal.{key-equivalence, key-fed, meaning-equivalence, standing-fed};

use std::hash::{Hash, Hasher};
use tla_model::{Entity, Meaning};
use tool_list::Memory;

/// Whether it is a name that a quantifier, a function or a set binds.
pub(crate) fn is_bound(meaning: &Meaning) -> bool
    ensures { result ≡ standing.is_bound meaning.now }
{
    match meaning {
        Meaning::Declared {
            entity: Entity::Bound { .. },
            ..
        } => true,
        _ => false,
    }
}

// Whether what stands for one stands for the other: they mean the same, and both are bound names or
// neither.
fn same_standing(left: &Meaning, right: &Meaning) -> bool
    ensures { result ≡ standing.same_standing left.now right.now }
{
    let bound = is_bound(right);
    left == right && (if is_bound(left) { bound } else { !bound })
}

/// A meaning as a key: those are equal for which the same stands.
pub struct MeaningKey {
    pub meaning: Meaning,
}

// By hand, so that a proof meets one call wherever a value ends.
impl Drop for MeaningKey {
    fn drop(self) {
        let MeaningKey { meaning: _ } = self;
    }
}

impl PartialEq for MeaningKey {
    ghost eq = { λ a b. standing.same_standing a.meaning b.meaning };

    ghost laws = { partial_equiv_from_equiv meaning-equivalence };

    fn eq(&self, other: &MeaningKey) -> bool {
        same_standing(&self.meaning, &other.meaning)
    }
}

impl Eq for MeaningKey {
    ghost laws = { meaning-equivalence };
}

impl Hash for MeaningKey {
    ghost hash_input = { λ key. meaning_input key.meaning };

    ghost respects_eq = { λ x y. standing-fed x.meaning y.meaning };

    fn hash<H: Hasher>(&self, state: &mut H) {
        self.meaning.hash(state);
    }
}

impl MeaningKey {
    /// The key of a meaning.
    pub fn new(meaning: &Meaning) -> Result<MeaningKey, Memory>
        ensures { IfOk result (λ key. key ≡ record { meaning = meaning.now }) }
    {
        Ok(MeaningKey {
            meaning: meaning.copied()?,
        })
    }
}

/// A symbol as a key: a constant with so many places, or a variable, that means the same is equal.
pub struct SymbolKey {
    /// The places of a constant.
    pub arity: Option<u32>,
    pub meaning: Meaning,
}

// By hand, so that a proof meets one call wherever a value ends.
impl Drop for SymbolKey {
    fn drop(self) {
        let SymbolKey {
            arity: _,
            meaning: _,
        } = self;
    }
}

// Whether both are variables, or constants with so many places.
fn same_arity(left: Option<u32>, right: Option<u32>) -> bool
    ensures { result ≡ same_arity left right }
{
    match (left, right) {
        (None, None) => true,
        (Some(left), Some(right)) => left == right,
        _ => false,
    }
}

impl PartialEq for SymbolKey {
    ghost eq = { same_key };

    ghost laws = { partial_equiv_from_equiv key-equivalence };

    fn eq(&self, other: &SymbolKey) -> bool {
        same_arity(self.arity, other.arity) && self.meaning == other.meaning
    }
}

impl Eq for SymbolKey {
    ghost laws = { key-equivalence };
}

impl Hash for SymbolKey {
    ghost hash_input = { λ key. meaning_input key.meaning };

    ghost respects_eq = { key-fed };

    fn hash<H: Hasher>(&self, state: &mut H) {
        self.meaning.hash(state);
    }
}

// The places of a constant, or that it is a variable.
fn symbol_arity(entity: &Entity) -> Option<Option<u32>>
    ensures { result ≡ symbol_arity entity.now }
{
    match entity {
        Entity::Constant { arity } => Some(Some(*arity)),
        Entity::Variable => Some(None),
        _ => None,
    }
}

// The same of what is meant.
fn meant_arity(meaning: &Meaning) -> Option<Option<u32>>
    ensures { result ≡ meant_arity meaning.now }
{
    match meaning {
        Meaning::BuiltIn => None,
        Meaning::Declared { entity, .. } => symbol_arity(entity),
    }
}

impl SymbolKey {
    /// The key of a symbol. What is no constant and no variable has none.
    pub fn new(meaning: &Meaning) -> Result<Option<SymbolKey>, Memory>
        ensures { IfOk result (λ key. key ≡ symbol_key meaning.now) }
    {
        let Some(arity) = meant_arity(meaning) else {
            return Ok(None);
        };
        let meaning = meaning.copied()?;
        Ok(Some(SymbolKey { arity, meaning }))
    }
}
