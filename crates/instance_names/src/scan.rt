// Whether a tree may hold something, without a walk.
ghost use Rattle.std.specs.Prelude.{◌≡◌, false};
ghost use Rattle.module_model.specs.Instances.{named_instance, path_start as path_starts_at};
ghost use Rattle.instance_names.specs.Forms.{word_at};
ghost use Rattle.instance_names.specs.Named.{NamesNone};
ghost use Rattle.instance_names.specs.Collected.{HoldsNone};

use crate::forms::{defined_in, path_start, word_start};
use tla_tree::Tree;

/// Whether a path through an instance may stand in a tree.
pub fn may_hold_path(tree: &Tree) -> bool
    ensures { result ≡ false → HoldsNone path_starts_at tree.now }
{
    if tree.len() > 0xFFFF_FFFF {
        return true;
    }
    for node in 0..tree.len() as u32 {
        if path_start(tree, node).is_some() {
            return true;
        }
    }
    false
}

/// Whether the word INSTANCE may stand in a tree.
pub fn may_hold_word(tree: &Tree) -> bool
    ensures { result ≡ false → HoldsNone word_at tree.now }
{
    if tree.len() > 0xFFFF_FFFF {
        return true;
    }
    for node in 0..tree.len() as u32 {
        // The proof needs that the children of a node stand before it.
        let _children = tree.children(node);
        if word_start(tree.form(node)).is_some() {
            return true;
        }
    }
    false
}

// Whether an instance may be defined in a tree.
fn may_hold_definition(tree: &Tree) -> bool
    ensures { result ≡ false → HoldsNone named_instance tree.now }
{
    if tree.len() > 0xFFFF_FFFF {
        return true;
    }
    for node in 0..tree.len() as u32 {
        // The proof needs that the children of a node stand before it.
        let _children = tree.children(node);
        if defined_in(tree.form(node)).is_some() {
            return true;
        }
    }
    false
}

/// Whether a unit of a text may name an instance, by the tree of all units. Where none may, none has to
/// be asked.
pub fn may_name_instance(tree: &Tree) -> bool
    ensures { result ≡ false → NamesNone tree.now }
{
    may_hold_definition(tree)
}
