// What no clause says of trees: they cross threads, and each call that takes memory answers.
use std::alloc::Global;
use std::process::Abort;
use tla_symbols::{LexKind, Lexeme, Span};
use tla_tree::{Form, ModuleTree, Tree, Unit};
use tool_list::{Chars, List, Memory};

fn crosses_threads<T: Send + Sync>() {}

#[test]
fn crosses() {
    crosses_threads::<ModuleTree>();
    crosses_threads::<Form>();
}

fn lexeme(kind: LexKind, start: u32) -> Lexeme {
    Lexeme {
        kind,
        span: Span {
            start,
            end: start.saturating_add(1),
        },
        line: 0,
        col: start,
    }
}

fn has_count(rt: &impl Abort, found: usize, count: usize) {
    assert!(rt; found == count, "{found} for {count}");
}

// An identifier of one segment.
fn identifier(alloc: Global, name: Lexeme) -> Result<Tree, Memory> {
    let mut tree = Tree::new(alloc);
    let segment = tree.push(Form::Segment(name), &[], name.span)?;
    tree.push(Form::Identifier, &[segment], name.span)?;
    Ok(tree)
}

#[test]
fn pushes_nodes(rt: HostRuntime) {
    let name = lexeme(LexKind::Name, 0);
    let tree = identifier(rt.alloc(), name).expect(&rt, "a tree");
    has_count(&rt, tree.len(), 2);
}

#[test]
fn begins_empty(rt: HostRuntime) {
    let tree = Tree::new(rt.alloc());
    assert!(rt; tree.is_empty());
}

// A line of dashes.
fn line(rt: &impl Abort, alloc: Global) -> List<Unit> {
    let mut units = List::new(alloc);
    units
        .push(Unit::Line(lexeme(LexKind::Dashes, 20)))
        .expect(rt, "a line");
    units
}

#[test]
fn holds_units(rt: HostRuntime) {
    let alloc = rt.alloc();
    let module = ModuleTree {
        name: lexeme(LexKind::Name, 11),
        extends: List::new(alloc),
        units: line(&rt, alloc),
        tree: Tree::new(alloc),
        height: 1,
        source: Chars::from_str(alloc, "---- MODULE A ----").expect(&rt, "a source"),
    };
    has_count(&rt, module.units.len(), 1);
}
