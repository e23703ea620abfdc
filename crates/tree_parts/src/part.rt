// Parts of a tree that is read, and the spans of their lexemes.
ghost use Rattle.std.specs.Prelude.{◌≡◌, [], ◌∷◌, ◌++◌, IfOk, OnOk, length};
ghost use Rattle.tla_tree.specs.Arena.{AreThere};
ghost use Rattle.tla_tree.specs.Syntax.{Nil};
ghost use Rattle.tla_tree.specs.Lexemes.{built};
ghost use Rattle.tree_parts.specs.Parts as parts;
ghost use Rattle.tree_parts.specs.Parts.{Adds};

use tla_symbols::{Lexeme, Span};
use tla_tree::{Form, Tree};
use tool_list::Memory;

/// A part that was read: its node, and the span of its lexemes.
#[derive(Clone, Copy)]
pub struct Part {
    pub node: u32,
    /// From the first lexeme's first byte to the end of the last one, if the part has lexemes.
    pub span: Option<Span>,
}

/// The span of two stretches of lexemes, the one behind the other.
pub fn joined(first: Option<Span>, last: Option<Span>) -> Option<Span>
    ensures { result ≡ parts.joined first last }
{
    match first {
        None => last,
        Some(first) => match last {
            None => Some(first),
            Some(last) => Some(Span {
                start: first.start,
                end: last.end,
            }),
        },
    }
}

/// The part of the text in a span; without one, the part of no byte at the text's start.
pub fn covered(span: Option<Span>) -> Span
    ensures { result ≡ parts.covered span }
{
    match span {
        None => Span { start: 0, end: 0 },
        Some(span) => span,
    }
}

/// Adds a node and answers its number. `Memory` also where the tree can number no further node: it
/// has 2^32 - 1.
pub fn add(tree: &mut Tree, form: Form, children: &[u32], span: Span) -> Result<u32, Memory>
    requires there { AreThere tree.old children.now }
    ensures number { IfOk result (λ number. number ≡ length tree.old) }
    ensures ok { OnOk result (tree.new
        ≡ tree.old ++ record { form = form; span = span; children = children.now } ∷ []) }
{
    if tree.len() >= u32::MAX as usize {
        return Err(Memory);
    }
    tree.push(form, children, span)
}

/// Adds a node of one lexeme. `Memory` as in [`add`].
pub fn leaf(tree: &mut Tree, form: Form, lexeme: Lexeme) -> Result<Part, Memory>
    ensures { IfOk result (λ part. Adds tree.old tree.new part (built form Nil (lexeme ∷ []))
        (lexeme ∷ [])) }
{
    let node = add(tree, form, &[], lexeme.span)?;
    Ok(Part {
        node,
        span: Some(lexeme.span),
    })
}
