// Levels, by kinds that were found of the nodes from one on.
ghost use Rattle.std.specs.Prelude.{◌≡◌, is_some};
ghost use Rattle.std.specs.List.{list_all};
ghost use Rattle.kind_table.specs.Flattened.{flat_of};
ghost use Rattle.tree_kinds.specs.TreeLevels.{is_above, level_word};
ghost use Rattle.level_answers.specs.Found.{found_kind, is_refused as refuses};

use kind_table::FlatModule;
use level_rules::level;
use tla_model::Level;
use tla_symbols::Kind;

/// The level of a kind, as a user reads it.
pub fn level_of(kind: Option<Kind>) -> Level
    ensures { result ≡ level_word kind }
{
    match kind {
        None | Some(Kind::Const) => Level::Constant,
        Some(Kind::State) => Level::State,
        Some(Kind::Action | Kind::BoxAction | Kind::DiamondAction) => Level::Action,
        Some(Kind::Temporal) => Level::Temporal,
    }
}

/// Whether there is a kind of more than this level.
pub fn is_too_high(most: u8, kind: Option<Kind>) -> bool
    ensures { result ≡ is_above most kind }
{
    match kind {
        None => false,
        Some(kind) => level(kind) > most,
    }
}

/// The kind that was found of a node, where the first of these is of the node start.
pub fn kind_of(kinds: &[Option<Kind>], start: usize, node: usize) -> Option<Kind>
    ensures { result ≡ found_kind start kinds.now node }
{
    match kinds.get(node.saturating_sub(start)) {
        Some(kind) => *kind,
        None => None,
    }
}

/// Whether a node has no kind, though all that it is made of has one.
pub fn is_refused(flat: &FlatModule, kinds: &[Option<Kind>], start: usize, node: usize) -> bool
    ensures { result ≡ refuses (flat_of flat.now) start kinds.now node }
{
    if kind_of(kinds, start, node).is_some() {
        return false;
    }
    match flat.nodes.get(node) {
        Some(here) => have_kinds(kinds, start, &here.parts),
        None => false,
    }
}

// Whether all of these nodes have kinds.
fn have_kinds(kinds: &[Option<Kind>], start: usize, nodes: &[usize]) -> bool
    ensures { result ≡ list_all (λ i. is_some (found_kind start kinds.now i)) nodes.now }
{
    nodes
        .iter()
        .all(|node| kind_of(kinds, start, *node).is_some())
}
