//! The aligned lists that are open, by their columns.
//!
//! Answers which of them a column covers, and which lexeme is the innermost one's bullet. Knows
//! nothing of what stands in the items.
#![tactic(auto)]

ghost use Rattle.std.specs.Prelude.{◌≡◌, ◌↔◌, ◌-◌, ◌<◌, ◌≤◌, ◌^◌, [], ◌∷◌, ◌++◌, length, take, drop, IsTrue, OnOk, OnErr};
ghost use Rattle.junction_lists.specs.OpenLists.{covered, inner, IsInnermostBullet, IsBulletOf, IsJunction};

use std::alloc::Global;
use std::marker::Model;
use tla_symbols::{LexKind, Lexeme, Op};
use tool_list::Memory;

// An aligned list that is open: its bullet's symbol and its column.
#[derive(Clone, Copy)]
struct OpenList {
    bullet: Op,
    col: u32,
}

/// The aligned lists that are open (*Specifying Systems*, section 15.2.2), each in the items of
/// those before it. Contracts see them from the outermost.
#[derive(Drop)]
pub struct ListStack {
    lists: Vec<OpenList>,
}

impl Model for ListStack {
    ghost use Rattle.std.specs.Prelude.{List};
    ghost use Rattle.junction_lists.specs.declared.OpenList.{OpenList};

    ghost Value = { List OpenList };

    ghost use Rattle.junction_lists.specs.OpenLists.{IsNested};

    ghost view = { λ s. s.lists.items };

    ghost invariant = { λ s. IsNested 0 s.lists.items };
}

impl ListStack {
    /// No list is open. It takes no memory.
    pub fn new(alloc: Global) -> ListStack
        ensures { result ≡ [] }
    {
        ListStack {
            lists: Vec::new(alloc),
        }
    }

    /// Opens a list in the items of those that are open. After `Memory` all is as before.
    pub fn open(&mut self, bullet: Op, col: u32) -> Result<(), Memory>
        requires above { inner self.old ≤ col }
        requires below { col < 2 ^ 32 - 1 }
        ensures ok { OnOk result (self.new ≡ self.old ++ record { bullet = bullet; col = col }
            ∷ []) }
        ensures err { OnErr result (self.new ≡ self.old) }
    {
        self.lists.push(OpenList { bullet, col })?;
        Ok(())
    }

    /// How many open lists have the column or one right of it. They are the innermost ones.
    pub fn covers(&self, col: u32) -> u32
        ensures count { result ≡ length (covered col self.now) }
        ensures innermost { covered col self.now ≡ drop (length self.now - result) self.now }
    {
        let lists = self.lists.as_slice();
        let mut open = lists.len();
        while open > 0 && lists[open - 1].col >= col {
            open -= 1;
        }
        (lists.len() - open) as u32
    }

    /// Whether the lexeme is the innermost list's bullet, in its column.
    pub fn bullet(&self, lexeme: &Lexeme) -> bool
        ensures { IsTrue result ↔ IsInnermostBullet self.now lexeme.now }
    {
        match self.lists.as_slice().last() {
            Some(list) => is_bullet_of(*list, lexeme),
            None => false,
        }
    }

    /// Closes so many of the innermost lists.
    pub fn after(&mut self, lists: u32)
        requires { lists ≤ length self.old }
        ensures { self.new ≡ take (length self.old - lists) self.old }
    {
        let open = self.lists.as_slice().len() - lists as usize;
        self.lists.truncate(open);
    }
}

// Whether the lexeme is the list's bullet, in its column. A bullet is told from `\land` and `\lor`
// by its span.
fn is_bullet_of(list: OpenList, lexeme: &Lexeme) -> bool
    ensures { IsTrue result ↔ IsBulletOf list lexeme.now }
{
    lexeme.col == list.col
        && lexeme.span.end >= 2
        && lexeme.span.end - 2 == lexeme.span.start
        && is_junction(list.bullet, lexeme.kind)
}

// Whether the kind is that of `/\` or `\/`, and of this symbol.
fn is_junction(bullet: Op, kind: LexKind) -> bool
    ensures { IsTrue result ↔ IsJunction bullet kind }
{
    match kind {
        LexKind::Sym(Op::And) => matches!(&bullet, Op::And),
        LexKind::Sym(Op::Or) => matches!(&bullet, Op::Or),
        _ => false,
    }
}
