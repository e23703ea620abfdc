// What the node of a form gives.
ghost use Rattle.std.specs.Prelude.{◌≡◌, ◌<◌, length, map};
ghost use Rattle.std.specs.List.{AllByRecursion};
ghost use Rattle.tla_tree.specs.Arena.{AreThere, node_at, tree_at};
ghost use Rattle.tla_tree.specs.Syntax.{trees};
ghost use Rattle.tla_model.specs.Stretches.{one_of};
ghost use Rattle.module_model.specs.Instances as instances;
ghost use Rattle.instance_names.specs.Forms as forms;
ghost use Rattle.instance_names.specs.Collected.{parts_of};

use tla_symbols::Lexeme;
use tla_tree::{Form, Tree};

fn is_identifier(form: Form) -> bool
    ensures { result ≡ forms.is_identifier form }
{
    match form {
        Form::Identifier => true,
        _ => false,
    }
}

// Where a segment begins.
fn segment_start(form: Form) -> Option<u32>
    ensures { one_of result ≡ forms.segment_start form }
{
    match form {
        Form::Segment(name) => Some(name.span.start),
        _ => None,
    }
}

// The module name behind INSTANCE.
fn module_in(form: Form) -> Option<Lexeme>
    ensures { result ≡ forms.module_in form }
{
    match form {
        Form::Instance(name) => Some(name),
        _ => None,
    }
}

/// The name of an instance that a form defines.
pub fn defined_in(form: Form) -> Option<Lexeme>
    ensures { result ≡ forms.defined_in form }
{
    match form {
        Form::ModuleDefinition(name) => Some(name),
        _ => None,
    }
}

/// Where the module name behind INSTANCE begins.
pub fn word_start(form: Form) -> Option<u32>
    ensures { one_of result ≡ forms.word_start form }
{
    match form {
        Form::Instance(name) => Some(name.span.start),
        _ => None,
    }
}

/// Where a path through an instance begins, if it does so at this node. Its children stand before it.
pub fn path_start(tree: &Tree, node: u32) -> Option<u32>
    requires { node < length tree.now }
    ensures start { one_of result
        ≡ instances.path_start (node_at tree.now node).form (trees (parts_of tree.now node)) }
    ensures before { AllByRecursion (λ child. child < node) (node_at tree.now node).children }
{
    let children = tree.children(node);
    if !is_identifier(tree.form(node)) {
        return None;
    }
    if children.len() < 2 {
        return None;
    }
    segment_start(tree.form(children[0]))
}

/// The module name behind the first INSTANCE among nodes.
pub fn instance_among(tree: &Tree, nodes: &[u32]) -> Option<Lexeme>
    requires { AreThere tree.now nodes.now }
    ensures { result ≡ instances.instance_among (trees (map (tree_at tree.now) nodes.now)) }
{
    for node in nodes {
        if let Some(name) = module_in(tree.form(*node)) {
            return Some(name);
        }
    }
    None
}
