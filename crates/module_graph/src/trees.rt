// The names after INSTANCE in a tree.
ghost use Rattle.std.specs.Prelude.{◌≡◌, ◌<◌, ◌++◌, IfOk, OnOk, length, reverse};
ghost use Rattle.tla_tree.specs.Arena.{tree_at};
ghost use Rattle.tla_model.specs.ModuleNames as names_of;

use std::alloc::Global;
use tla_symbols::Lexeme;
use tla_tree::{Form, Tree};
use tool_list::{List, Memory};

// Appends the name that a node of this form has after INSTANCE.
fn push_instantiated(names: &mut List<Lexeme>, form: Form) -> Result<(), Memory>
    ensures { OnOk result (names.new ≡ names.old ++ names_of.instantiated form) }
{
    if let Form::Instance(name) = form {
        names.push(name)?;
    }
    Ok(())
}

// Appends numbers, the last one first.
fn push_reversed(todo: &mut Vec<u32>, numbers: &[u32]) -> Result<(), Memory>
    ensures { OnOk result (todo.new.items ≡ todo.old.items ++ reverse numbers.now) }
{
    for number in numbers.iter().rev().copied() {
        todo.push(number)?;
    }
    Ok(())
}

/// The names after INSTANCE in the tree below a node, in the order of the text.
pub fn instances(alloc: Global, tree: &Tree, root: u32) -> Result<List<Lexeme>, Memory>
    requires { root < length tree.now }
    ensures { IfOk result (λ names. names ≡ names_of.instances (tree_at tree.now root)) }
{
    let mut names = List::new(alloc);
    // The nodes that are due, the first one last.
    let mut todo = Vec::new(alloc);
    todo.push(root)?;
    while let Some(node) = todo.pop() {
        push_instantiated(&mut names, tree.form(node))?;
        push_reversed(&mut todo, tree.children(node))?;
    }
    Ok(names)
}
