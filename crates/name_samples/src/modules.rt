// Imports by name, tables and lists in stretches, faults in order.
use indexmap::IndexMap;
use module_model::{Bound, Face, Import, Imported, Parts, in_order};
use std::alloc::Global;
use std::process::Abort;
use std::sync::Arc;
use tla_model::{Callee, DeclId, Diagnostic, Entity, Meaning, NameTable};
use tla_symbols::Span;
use tool_list::{Chars, List, Memory, SharedList};

fn crosses_threads<T: Send + Sync>() {}

fn has_count(rt: &impl Abort, found: usize, count: usize) {
    assert!(rt; found == count, "{found} for {count}");
}

#[test]
fn crosses() {
    crosses_threads::<Imported>();
    crosses_threads::<Bound>();
}

// A module that exports nothing.
fn bare(rt: &impl Abort, alloc: Global, name: &str) -> Import {
    let exports = Arc::new(alloc, NameTable::new(alloc)).expect(rt, name);
    let face = Face {
        module: Chars::from_str(alloc, name).expect(rt, name),
        exports,
        parts: Parts::new(alloc),
    };
    Import::Module(Arc::new(alloc, face).expect(rt, name))
}

// The module's name, or a word for any other import.
fn shown<'a>(import: Option<&'a Import>) -> &'a str {
    match import {
        None => "none",
        Some(Import::Unknown) => "unknown",
        Some(Import::Cyclic) => "cyclic",
        Some(Import::Refused) => "refused",
        Some(Import::Module(face)) => face.module.as_str(),
    }
}

// Adds an import under a name that has none.
fn add(rt: &impl Abort, alloc: Global, imported: &mut Imported, name: &str, import: Import) {
    assert!(rt; imported.get(name).is_none());
    imported.add(alloc, name, import).expect(rt, name);
}

fn three_imports(rt: &impl Abort, alloc: Global) -> Imported {
    let mut imported = Imported::new(alloc);
    add(rt, alloc, &mut imported, "M", bare(rt, alloc, "M"));
    add(rt, alloc, &mut imported, "N", Import::Cyclic);
    add(rt, alloc, &mut imported, "", Import::Refused);
    imported
}

// Names, each with what is found under it.
static IMPORTS: [(&str, &str); 4] = [("M", "M"), ("N", "cyclic"), ("", "refused"), ("m", "none")];

fn has_imports(rt: &impl Abort, imported: &Imported) {
    for (name, import) in &IMPORTS {
        assert!(rt; shown(imported.get(*name)) == *import, "{name}");
    }
}

#[test]
fn finds_imports_by_name(rt: HostRuntime) {
    let imported = three_imports(&rt, rt.alloc());
    has_imports(&rt, &imported);
    has_count(&rt, imported.len(), 3);
}

#[test]
fn begins_with_no_import(rt: HostRuntime) {
    let imported = Imported::new(rt.alloc());
    assert!(rt; imported.is_empty());
}

// Faults over one byte.
static FAULTS: [Diagnostic; 4] = [
    Diagnostic {
        code: 303,
        span: Span { start: 5, end: 6 },
    },
    Diagnostic {
        code: 301,
        span: Span { start: 2, end: 3 },
    },
    Diagnostic {
        code: 301,
        span: Span { start: 5, end: 6 },
    },
    Diagnostic {
        code: 303,
        span: Span { start: 5, end: 6 },
    },
];

static IN_ORDER: [Diagnostic; 3] = [
    Diagnostic {
        code: 301,
        span: Span { start: 2, end: 3 },
    },
    Diagnostic {
        code: 301,
        span: Span { start: 5, end: 6 },
    },
    Diagnostic {
        code: 303,
        span: Span { start: 5, end: 6 },
    },
];

#[test]
fn puts_faults_in_order(rt: HostRuntime) {
    let faults = Vec::from_slice(rt.alloc(), &FAULTS).expect(&rt, "faults");
    let found = in_order(List::from_vec(faults));
    assert!(rt; found.as_slice() == IN_ORDER.as_slice());
}

// The constant that the module M declares at a place.
fn constant(alloc: Global, place: u32) -> Result<Meaning, Memory> {
    Ok(Meaning::Declared {
        entity: Entity::Constant { arity: 0 },
        callee: Callee {
            instance: 0,
            decl: DeclId {
                module: Chars::from_str(alloc, "M")?,
                place,
            },
            via: SharedList::new(),
        },
    })
}

// A table with one word more and its place, or an empty one where the word is there.
fn longer(alloc: Global, table: &NameTable, word: &str, place: u32) -> Result<NameTable, Memory> {
    if table.word_among(table.len(), word).is_some() {
        return Ok(NameTable::new(alloc));
    }
    let mut more = IndexMap::new(alloc);
    more.insert(String::from_str(alloc, word)?, constant(alloc, place)?)?;
    table.extended(alloc, more, List::new(alloc))
}

// Whether a word is found among the first so many, with its place.
fn finds(table: &NameTable, count: usize, word: &str, place: u32) -> bool {
    match table.word_among(count, word) {
        Some(Meaning::Declared { callee, .. }) => callee.decl.place == place,
        _ => false,
    }
}

// A table to which three words came one by one.
fn of_three(rt: &impl Abort, alloc: Global) -> NameTable {
    let one = longer(alloc, &NameTable::new(alloc), "a", 0).expect(rt, "a");
    let two = longer(alloc, &one, "b", 1).expect(rt, "b");
    longer(alloc, &two, "c", 2).expect(rt, "c")
}

// Words with their places, and whether each is found among so many.
static FINDS: [(usize, &str, u32, bool); 4] = [
    (1, "a", 0, true),
    (2, "b", 1, true),
    (3, "c", 2, true),
    (2, "c", 2, false),
];

fn has_words(rt: &impl Abort, table: &NameTable) {
    for (count, word, place, whether) in &FINDS {
        assert!(rt;
            finds(table, *count, *word, *place) == *whether,
            "{word} of {count}"
        );
    }
}

#[test]
fn finds_words_of_all_stretches(rt: HostRuntime) {
    let table = of_three(&rt, rt.alloc());
    has_words(&rt, &table);
    has_count(&rt, table.len(), 3);
    has_count(&rt, table.stretches().len(), 2);
}
