// What a lexeme does after a part.
ghost use Rattle.std.specs.Prelude.{◌≡◌, ◌<◌, cond, List, [], ◌∷◌, ◌++◌, Option, Some, None, IfOk};
ghost use Rattle.tla_symbols.specs.declared.lexeme.Lexeme.{Lexeme};
ghost use Rattle.tla_tree.specs.Arena.{Node};
ghost use Rattle.expr_grammar.specs.declared.wait.Wait.TheVariants as Wait;
ghost use Rattle.expr_grammar.specs.declared.wait.PartMove.TheVariants as PartMove;
ghost use Rattle.expr_grammar.specs.Tables as tables;
ghost use Rattle.expr_grammar.specs.Machine as machine;
ghost use Rattle.expr_grammar.specs.Counting as counting;
ghost use Rattle.expr_parse.specs.TurnMeaning.{IsReady, CanTake, Follows, FollowsFrame, continues};

use crate::begins::{complete, goes_on as frame_goes_on};
use crate::convert::{convert, name_of};
use crate::turn::Turn;
use expr_grammar::{Binding, Conversion, Handed, Lead, PartMove, Role, Shape, Wait};
use expr_kinds::{finishes, is_expression, list_of};
use expr_parts::{at_part, shape};
use expr_stack::{Frame, Stack};
use expr_starts::{choice, goes_on, lead, role, takes};
use precedence::Choice;
use tla_symbols::Lexeme;
use tla_tree::{Form, Tree};
use tool_list::Memory;
use tree_parts::Part;

// The frame takes the part and the lexeme, and waits for this; no part with a frame of its own is
// due.
fn take(
    stack: &mut Stack,
    frame: Frame,
    part: Part,
    wait: Wait,
    lexeme: Lexeme,
) -> Result<Turn, Memory>
    ensures { IfOk result (λ turn. (nodes : List Node)
        → FollowsFrame
        (λ top below tree spelled.
        Some
        (machine.State.At
        (machine.frame wait (top.parts ++ tree ∷ []) (top.read ++ (spelled ++ lexeme ∷ []))
        ∷ below))) (λ top below tree spelled. 0) nodes nodes stack.old stack.new frame part turn) }
{
    let opening = stack.hold(frame.opening, part)?;
    stack.put(wait, opening.reads(Some(lexeme.span)))?;
    Ok(Turn::Due)
}

// An operator after the part takes it as an operand, inside the frame.
fn lead_on(
    stack: &mut Stack,
    tree: &mut Tree,
    frame: Frame,
    part: Part,
    lead: Lead,
    lexeme: Lexeme,
) -> Result<Turn, Memory>
    requires { CanTake tree.old stack.old frame part }
    ensures { IfOk result
        (λ turn.
        FollowsFrame (λ top below last spelled. machine.led lead top below last spelled lexeme)
        (λ top below last spelled. counting.made_led lead) tree.old tree.new stack.old stack.new
        frame part turn) }
{
    stack.put(frame.wait, frame.opening)?;
    let opening = stack.opening(None);
    let opening = stack.hold(opening, part)?.reads(Some(lexeme.span));
    match lead {
        Lead::Push(wait) => {
            let turn = frame_goes_on(stack, wait, opening)?;
            Ok(turn)
        }
        Lead::Node(form) => {
            let part = stack.node(tree, form, opening)?;
            Ok(Turn::Read(part))
        }
        Lead::NoLead => Ok(Turn::Refused),
    }
}

// The frame waits for its operand while an operator takes the part.
fn wait_on(
    stack: &mut Stack,
    tree: &mut Tree,
    frame: Frame,
    part: Part,
    role: Role,
    lexeme: Lexeme,
) -> Result<Turn, Memory>
    requires { CanTake tree.old stack.old frame part }
    ensures { IfOk result
        (λ turn.
        FollowsFrame (λ top below last spelled. cond (tables.is_expression (tables.shape last))
        (machine.led (tables.lead role lexeme) top below last spelled lexeme) None)
        (λ top below last spelled. cond (tables.is_expression (tables.shape last))
        (counting.made_led (tables.lead role lexeme)) 0) tree.old tree.new stack.old stack.new frame
        part turn) }
{
    if !is_expression(shape(tree, part.node)) {
        return Ok(Turn::Refused);
    }
    let turn = lead_on(stack, tree, frame, part, lead(role, lexeme), lexeme)?;
    Ok(turn)
}

// `\X` takes one operand more.
fn take_factor(
    stack: &mut Stack,
    tree: &Tree,
    frame: Frame,
    part: Part,
    lexeme: Lexeme,
) -> Result<Turn, Memory>
    requires { CanTake tree.now stack.old frame part }
    ensures { IfOk result
        (λ turn.
        FollowsFrame (λ top below last spelled. cond (tables.is_expression (tables.shape last))
        (Some
        (machine.At
        (machine.frame Wait.Factor (top.parts ++ last ∷ []) (top.read ++ (spelled ++ lexeme ∷ []))
        ∷ below))) None) (λ top below last spelled. 0) tree.now tree.now stack.old stack.new frame
        part turn) }
{
    if !is_expression(shape(tree, part.node)) {
        return Ok(Turn::Refused);
    }
    let turn = take(stack, frame, part, Wait::Factor, lexeme)?;
    Ok(turn)
}

// What an operator does: it ends the frames that it does not stand in.
fn operate(
    stack: &mut Stack,
    tree: &mut Tree,
    operand: Part,
    lexeme: Lexeme,
) -> Result<Turn, Memory>
    requires { IsReady tree.old stack.old operand }
    ensures { IfOk result
        (λ turn. Follows (λ frames part spelled. machine.operator_step frames part spelled lexeme)
        (λ frames part spelled. counting.made_operator frames part spelled lexeme) tree.old tree.new
        stack.old stack.new operand turn) }
{
    let role = role(lexeme.kind);
    let mut part = operand;
    while let Some(frame) = stack.pop() {
        if takes(frame.wait, role) {
            let turn = take_factor(stack, tree, frame, part, lexeme)?;
            return Ok(turn);
        }
        match choice(frame.wait, role) {
            Choice::Ends => {
                let Some(form) = finishes(frame.wait, shape(tree, part.node)) else {
                    return Ok(Turn::Refused);
                };
                part = stack.close(tree, form, frame.opening, part)?;
            }
            Choice::Waits => {
                let turn = wait_on(stack, tree, frame, part, role, lexeme)?;
                return Ok(turn);
            }
            Choice::Clashes => return Ok(Turn::Refused),
        }
    }
    Ok(Turn::Refused)
}

// The frame ends with the lexeme.
fn done(
    stack: &mut Stack,
    tree: &mut Tree,
    frame: Frame,
    part: Part,
    form: Form,
    conversion: Conversion,
    lexeme: Lexeme,
) -> Result<Turn, Memory>
    requires { CanTake tree.old stack.old frame part }
    ensures { IfOk result
        (λ turn.
        FollowsFrame
        (λ top below last spelled. machine.moved (PartMove.Done form conversion) top below last
        spelled lexeme (λ f. None))
        (λ top below last spelled. counting.made_move (PartMove.Done form conversion) last (λ f. 0))
        tree.old tree.new stack.old stack.new frame part turn) }
{
    let opening = convert(stack, tree, frame.opening, conversion, part)?;
    let whole = stack.node(tree, form, opening.reads(Some(lexeme.span)))?;
    let turn = complete(stack, whole)?;
    Ok(turn)
}

// The frame goes on after the lexeme.
fn goes(
    stack: &mut Stack,
    tree: &mut Tree,
    frame: Frame,
    part: Part,
    wait: Wait,
    conversion: Conversion,
    lexeme: Lexeme,
) -> Result<Turn, Memory>
    requires { CanTake tree.old stack.old frame part }
    ensures { IfOk result
        (λ turn.
        FollowsFrame
        (λ top below last spelled. machine.moved (PartMove.Goes wait conversion) top below last
        spelled lexeme (λ f. None))
        (λ top below last spelled. counting.made_move (PartMove.Goes wait conversion) last (λ f. 0))
        tree.old tree.new stack.old stack.new frame part turn) }
{
    let opening = convert(stack, tree, frame.opening, conversion, part)?;
    let turn = frame_goes_on(stack, wait, opening.reads(Some(lexeme.span)))?;
    Ok(turn)
}

// The next part begins with the lexeme.
fn hand(
    stack: &mut Stack,
    frame: Frame,
    part: Part,
    kind: Handed,
    lexeme: Lexeme,
) -> Result<Turn, Memory>
    ensures { IfOk result (λ turn. (nodes : List Node)
        → FollowsFrame
        (λ top below last spelled. machine.moved (PartMove.Hand kind) top below last spelled lexeme
        (λ f. None)) (λ top below last spelled. 0) nodes nodes stack.old stack.new frame part
        turn) }
{
    let opening = stack.hold(frame.opening, part)?;
    let turn = frame_goes_on(stack, Wait::Handing(kind, lexeme), opening)?;
    Ok(turn)
}

// The part begins the first bound of a function.
fn bind(
    stack: &mut Stack,
    tree: &mut Tree,
    frame: Frame,
    part: Part,
    actions: bool,
    lexeme: Lexeme,
) -> Result<Turn, Memory>
    requires { CanTake tree.old stack.old frame part }
    ensures { IfOk result
        (λ turn.
        FollowsFrame
        (λ top below last spelled. machine.moved (PartMove.Convert actions) top below last spelled
        lexeme (λ f. None)) (λ top below last spelled. counting.made_name last) tree.old tree.new
        stack.old stack.new frame part turn) }
{
    let name = name_of(tree, part)?;
    stack.put(Wait::FunctionNames(actions), frame.opening)?;
    let opening = stack.opening(None);
    let opening = stack.hold(opening, name)?;
    stack.put(
        Wait::BindingComma(Binding::Bound),
        opening.reads(Some(lexeme.span)),
    )?;
    Ok(Turn::Due)
}

// Another lexeme than an operator ends the frames that may end, and the next frame takes it.
fn follow(stack: &mut Stack, tree: &mut Tree, operand: Part, lexeme: Lexeme) -> Result<Turn, Memory>
    requires { IsReady tree.old stack.old operand }
    ensures { IfOk result
        (λ turn. Follows (λ frames part spelled. machine.part_step frames part spelled lexeme)
        (λ frames part spelled. counting.made_part frames part spelled lexeme) tree.old tree.new
        stack.old stack.new operand turn) }
{
    let mut part = operand;
    while let Some(frame) = stack.pop() {
        match at_part(frame.wait, shape(tree, part.node), lexeme) {
            PartMove::Finish(form) => {
                part = stack.close(tree, form, frame.opening, part)?;
            }
            PartMove::Done(form, conversion) => {
                let turn = done(stack, tree, frame, part, form, conversion, lexeme)?;
                return Ok(turn);
            }
            PartMove::Goes(wait, conversion) => {
                let turn = goes(stack, tree, frame, part, wait, conversion, lexeme)?;
                return Ok(turn);
            }
            PartMove::Hand(kind) => {
                let turn = hand(stack, frame, part, kind, lexeme)?;
                return Ok(turn);
            }
            PartMove::Convert(actions) => {
                let turn = bind(stack, tree, frame, part, actions, lexeme)?;
                return Ok(turn);
            }
            PartMove::Refused => return Ok(Turn::Refused),
        }
    }
    Ok(Turn::Refused)
}

fn is_operator(role: Role) -> bool
    ensures { result ≡ machine.is_operator role }
{
    match role {
        Role::Mark => false,
        _ => true,
    }
}

// A lexeme that ends no list.
fn within(stack: &mut Stack, tree: &mut Tree, part: Part, lexeme: Lexeme) -> Result<Turn, Memory>
    requires { IsReady tree.old stack.old part }
    ensures { IfOk result
        (λ turn. Follows (λ frames last spelled. machine.within frames last spelled lexeme)
        (λ frames last spelled. counting.made_within frames last spelled lexeme) tree.old tree.new
        stack.old stack.new part turn) }
{
    if is_operator(role(lexeme.kind)) {
        let turn = operate(stack, tree, part, lexeme)?;
        return Ok(turn);
    }
    let turn = follow(stack, tree, part, lexeme)?;
    Ok(turn)
}

// The bullet of a list whose item the part ends, if the lexeme begins the next item.
fn next_item(wait: Wait, shape: Shape, lexeme: Lexeme) -> Option<Lexeme>
    ensures { result ≡ continues wait shape lexeme }
{
    if !is_expression(shape) {
        return None;
    }
    match list_of(wait) {
        Some(first) => {
            if goes_on(first, lexeme) {
                Some(first)
            } else {
                None
            }
        }
        None => None,
    }
}

// A lexeme that stands left of the innermost list's items ends that list, or is its bullet.
fn leave(stack: &mut Stack, tree: &mut Tree, operand: Part, lexeme: Lexeme) -> Result<Turn, Memory>
    requires { IsReady tree.old stack.old operand }
    ensures { IfOk result
        (λ turn. Follows (λ frames part spelled. machine.leave frames part spelled lexeme)
        (λ frames part spelled. counting.made_leave frames part spelled lexeme) tree.old tree.new
        stack.old stack.new operand turn) }
{
    let mut part = operand;
    while let Some(frame) = stack.pop() {
        let shape = shape(tree, part.node);
        if let Some(first) = next_item(frame.wait, shape, lexeme) {
            let turn = take(stack, frame, part, Wait::ListItem(first), lexeme)?;
            return Ok(turn);
        }
        let Some(form) = finishes(frame.wait, shape) else {
            return Ok(Turn::Refused);
        };
        part = stack.close(tree, form, frame.opening, part)?;
        if lexeme.col as u64 >= stack.inner() {
            let turn = within(stack, tree, part, lexeme)?;
            return Ok(turn);
        }
    }
    Ok(Turn::Refused)
}

/// What a lexeme does after a part.
pub(crate) fn have(
    stack: &mut Stack,
    tree: &mut Tree,
    part: Part,
    lexeme: Lexeme,
) -> Result<Turn, Memory>
    requires { IsReady tree.old stack.old part }
    ensures { IfOk result
        (λ turn. Follows (λ frames last spelled. machine.have frames last spelled lexeme)
        (λ frames last spelled. counting.made_have frames last spelled lexeme) tree.old tree.new
        stack.old stack.new part turn) }
{
    if (lexeme.col as u64) < stack.inner() {
        let turn = leave(stack, tree, part, lexeme)?;
        return Ok(turn);
    }
    let turn = within(stack, tree, part, lexeme)?;
    Ok(turn)
}
