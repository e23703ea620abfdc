// Parts that turn out to be something else than they were read as.
ghost use Rattle.std.specs.Prelude.{◌≡◌, ◌<◌, List, [], ◌∷◌, ◌++◌, ◌↔◌, IfOk, IsTrue, length, slice_index_or};
ghost use Rattle.tla_symbols.specs.declared.lexeme.Lexeme.{Lexeme};
ghost use Rattle.tla_tree.specs.declared.form.Form.TheVariants as Form;
ghost use Rattle.tla_tree.specs.Arena.{tree_at, node_at};
ghost use Rattle.tla_tree.specs.Syntax as syntax;
ghost use Rattle.tla_tree.specs.Lexemes.{built, one};
ghost use Rattle.expr_grammar.specs.Tables as tables;
ghost use Rattle.expr_grammar.specs.Machine as machine;
ghost use Rattle.expr_grammar.specs.Counting as counting;
ghost use Rattle.expr_grammar.specs.declared.wait.Conversion.TheVariants as Conversion;
ghost use Rattle.tree_parts.specs.Parts.{parts_of, IsPart, IsThere, span_of};
ghost use Rattle.expr_stack.specs.StackMeaning.{Opens};
ghost use Rattle.expr_parse.specs.TurnMeaning.{Becomes, Converts, Renamed, AreNames, AreOperands, AreTwo};

use expr_grammar::{Conversion, Shape};
use expr_parts::shape;
use expr_stack::{Opening, Stack};
use std::alloc::Global;
use tla_symbols::{Lexeme, Span};
use tla_tree::{Form, Tree};
use tool_list::Memory;
use tree_parts::{Part, add, covered, joined};

// A name that was read as an expression and binds.
fn name_node(tree: &mut Tree, node: u32) -> Result<u32, Memory>
    requires { node < length tree.old }
    ensures { IfOk result
        (λ name. Renamed tree.old tree.new name (tables.name_of (tree_at tree.old node))
        (counting.made_name (tree_at tree.old node))) }
{
    let Shape::Plain(name) = shape(tree, node) else {
        return Ok(node);
    };
    let name = add(tree, Form::Name(name), &[], name.span)?;
    Ok(name)
}

/// The same as a part.
pub(crate) fn name_of(tree: &mut Tree, part: Part) -> Result<Part, Memory>
    requires { IsThere tree.old part }
    ensures { IfOk result (λ name. (last : syntax.Tree) → (spelled : List Lexeme)
        → IsPart tree.old part last spelled
        → Becomes tree.old tree.new name (tables.name_of last) spelled (counting.made_name last)) }
{
    let node = name_node(tree, part.node)?;
    Ok(Part {
        node,
        span: part.span,
    })
}

// The names of a tuple that was read as an expression and binds.
fn names_of(alloc: Global, tree: &mut Tree, tuple: u32) -> Result<Vec<u32>, Memory>
    requires { tuple < length tree.old }
    ensures { IfOk result
        (λ names. AreNames tree.old tree.new names.items (parts_of (tree_at tree.old tuple))) }
{
    let mut names = Vec::new(alloc);
    let count = tree.children(tuple).len();
    let mut index: usize = 0;
    while index < count {
        let entry = child_at(tree, tuple, index);
        names.push(name_node(tree, entry)?)?;
        index += 1;
    }
    Ok(names)
}

fn child_at(tree: &Tree, node: u32, index: usize) -> u32
    requires there { node < length tree.now }
    requires index { index < length (node_at tree.now node).children }
    ensures child { result ≡ slice_index_or (node_at tree.now node).children index 0 }
    ensures before { result < node }
{
    tree.children(node)[index]
}

// The operands of an infix form.
#[derive(Clone, Copy)]
struct Operands {
    left: u32,
    right: u32,
}

fn operands_of(tree: &Tree, node: u32) -> Option<Operands>
    requires { node < length tree.now }
    ensures { AreOperands tree.now result (tree_at tree.now node) }
{
    match tree.form(node) {
        Form::Infix(_) => two(tree.children(node)),
        _ => None,
    }
}

fn two(children: &[u32]) -> Option<Operands>
    ensures { AreTwo result children.now }
{
    match children {
        [left, right] => Some(Operands {
            left: *left,
            right: *right,
        }),
        _ => None,
    }
}

// `x \in e` as a bound.
fn bound_of(
    alloc: Global,
    tree: &mut Tree,
    operands: Operands,
    span: Option<Span>,
) -> Result<u32, Memory>
    requires left { operands.left < length tree.old }
    requires right { operands.right < length tree.old }
    ensures { IfOk result (λ bound. (spelled : List Lexeme) → span ≡ span_of spelled
        → Renamed tree.old tree.new bound
        (tables.bound_of (tree_at tree.old operands.left) (tree_at tree.old operands.right) spelled)
        (counting.made_bound (tree_at tree.old operands.left))) }
{
    if is_tuple(tree.form(operands.left)) {
        let mut parts = names_of(alloc, tree, operands.left)?;
        parts.push(operands.right)?;
        let bound = add(tree, Form::TupleBound, parts.as_slice(), covered(span))?;
        return Ok(bound);
    }
    let name = name_node(tree, operands.left)?;
    let bound = add(tree, Form::Bound, &[name, operands.right], covered(span))?;
    Ok(bound)
}

fn is_tuple(form: Form) -> bool
    ensures { IsTrue result ↔ (form ≡ Form.Tuple) }
{
    matches!(&form, Form::Tuple)
}

// A bare form that turns out to be a bound.
fn as_bound(alloc: Global, tree: &mut Tree, part: Part) -> Result<Part, Memory>
    requires { IsThere tree.old part }
    ensures { IfOk result (λ bound. (last : syntax.Tree) → (spelled : List Lexeme)
        → IsPart tree.old part last spelled
        → Becomes tree.old tree.new bound (tables.as_bound last spelled) spelled
        (counting.made_converted Conversion.AsBound last)) }
{
    let Some(operands) = operands_of(tree, part.node) else {
        return Ok(part);
    };
    let node = bound_of(alloc, tree, operands, part.span)?;
    Ok(Part {
        node,
        span: part.span,
    })
}

// The value of a field, by the field's name and the mark after it, which were read before.
fn as_field(tree: &mut Tree, part: Part, name: Lexeme, mark: Lexeme) -> Result<Part, Memory>
    requires { IsThere tree.old part }
    ensures { IfOk result (λ field. (last : syntax.Tree) → (spelled : List Lexeme)
        → IsPart tree.old part last spelled
        → Becomes tree.old tree.new field
        (built (Form.Field name) (one last) (name ∷ mark ∷ spelled)) spelled 1) }
{
    let span = joined(Some(name.span), joined(Some(mark.span), part.span));
    let node = add(tree, Form::Field(name), &[part.node], covered(span))?;
    Ok(Part {
        node,
        span: part.span,
    })
}

/// The frame takes the part, as what the conversion makes of it.
pub(crate) fn convert(
    stack: &mut Stack,
    tree: &mut Tree,
    opening: Opening,
    conversion: Conversion,
    part: Part,
) -> Result<Opening, Memory>
    requires { IsThere tree.old part }
    ensures { IfOk result (λ more. (parts : List syntax.Tree) → (read : List Lexeme)
        → (below : List machine.Frame) → (last : syntax.Tree) → (spelled : List Lexeme)
        → Opens tree.old stack.old opening parts read below → IsPart tree.old part last spelled
        → Converts tree.old tree.new stack.new more
        (parts ++ tables.converted conversion last spelled) (read ++ spelled) below
        (counting.made_converted conversion last)) }
{
    match conversion {
        Conversion::Keep => {
            let more = stack.hold(opening, part)?;
            Ok(more)
        }
        Conversion::Drop => Ok(opening.reads(part.span)),
        Conversion::AsBound => {
            let bound = as_bound(stack.alloc(), tree, part)?;
            let more = stack.hold(opening, bound)?;
            Ok(more)
        }
        Conversion::AsField(name, mark) => {
            let field = as_field(tree, part, name, mark)?;
            let more = stack.hold(opening, field)?;
            Ok(more)
        }
    }
}
