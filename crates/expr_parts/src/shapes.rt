// What the tables tell apart of a finished part.
ghost use Rattle.std.specs.Prelude.{◌≡◌, ◌<◌, length, map};
ghost use Rattle.tla_tree.specs.Arena.{AreThere, tree_at};
ghost use Rattle.tla_tree.specs.Forms.{helps};
ghost use Rattle.tla_tree.specs.Lexemes.{one};
ghost use Rattle.tla_tree.specs.Syntax.{trees};
ghost use Rattle.expr_grammar.specs.Tables as tables;

use expr_grammar::Shape;
use expr_kinds::is_member;
use tla_symbols::Lexeme;
use tla_tree::{Form, Tree, helps};

/// What the tables tell apart of the part at the node.
pub fn shape(tree: &Tree, node: u32) -> Shape
    requires { node < length tree.now }
    ensures { result ≡ tables.shape (tree_at tree.now node) }
{
    match tree.form(node) {
        Form::Identifier => plain_shape(tree, tree.children(node)),
        Form::Infix(symbol) => infix_shape(tree, symbol, tree.children(node)),
        Form::Names | Form::TupleNames => Shape::Names,
        Form::Bound | Form::TupleBound => Shape::Bound,
        Form::Arm => Shape::Arm,
        Form::OtherArm => Shape::OtherArm,
        Form::Instance(_) => Shape::Instance,
        Form::Symbol(_) => Shape::Symbol,
        form => helper_shape(form),
    }
}

// The shape of a form that nothing else tells apart.
fn helper_shape(form: Form) -> Shape
    ensures { result ≡ tables.shape_by (helps form) }
{
    if helps(form) {
        Shape::Helper
    } else {
        Shape::Expression
    }
}

// The shape of an identifier of these segments: a plain name has one segment without arguments.
fn plain_shape(tree: &Tree, segments: &[u32]) -> Shape
    requires { AreThere tree.now segments.now }
    ensures { result ≡ tables.plain_shape (trees (map (tree_at tree.now) segments.now)) }
{
    match segments {
        [segment] => lone_segment_shape(tree, *segment),
        _ => Shape::Expression,
    }
}

fn lone_segment_shape(tree: &Tree, segment: u32) -> Shape
    requires { segment < length tree.now }
    ensures { result ≡ tables.plain_shape (one (tree_at tree.now segment)) }
{
    match tree.form(segment) {
        Form::Segment(name) => {
            if tree.children(segment).is_empty() {
                Shape::Plain(name)
            } else {
                Shape::Expression
            }
        }
        _ => Shape::Expression,
    }
}

// The shape of an infix form: the bare form `x \in e` has a name or a tuple of names on the left.
fn infix_shape(tree: &Tree, symbol: Lexeme, operands: &[u32]) -> Shape
    requires { AreThere tree.now operands.now }
    ensures { result ≡ tables.infix_shape symbol (trees (map (tree_at tree.now) operands.now)) }
{
    match operands {
        [left, _] => {
            if is_member(symbol.kind) && is_binder(tree, *left) {
                Shape::Member
            } else {
                Shape::Expression
            }
        }
        _ => Shape::Expression,
    }
}

// Whether the part is a name or a tuple of names.
fn is_binder(tree: &Tree, node: u32) -> bool
    requires { node < length tree.now }
    ensures { result ≡ tables.is_binder (tree_at tree.now node) }
{
    match tree.form(node) {
        Form::Identifier => is_plain(plain_shape(tree, tree.children(node))),
        Form::Tuple => are_plain_names(tree, tree.children(node)),
        _ => false,
    }
}

fn is_plain(shape: Shape) -> bool
    ensures { result ≡ tables.is_plain shape }
{
    matches!(&shape, Shape::Plain(_))
}

fn is_plain_name(tree: &Tree, node: u32) -> bool
    requires { node < length tree.now }
    ensures { result ≡ tables.is_plain_name (tree_at tree.now node) }
{
    match tree.form(node) {
        Form::Identifier => is_plain(plain_shape(tree, tree.children(node))),
        _ => false,
    }
}

// Whether there are parts, and each is a name.
fn are_plain_names(tree: &Tree, parts: &[u32]) -> bool
    requires { AreThere tree.now parts.now }
    ensures { result ≡ tables.are_plain_names (trees (map (tree_at tree.now) parts.now)) }
{
    for part in parts {
        if !is_plain_name(tree, *part) {
            return false;
        }
    }
    !parts.is_empty()
}
