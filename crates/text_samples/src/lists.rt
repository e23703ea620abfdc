// Lists, texts and counts.
use std::alloc::Global;
use std::process::Abort;
use step_count::Steps;
use tool_list::{Chars, List, Memory};

fn crosses_threads<T: Send + Sync>() {}

fn crosses_with_its_items<T: Send + Sync>() {
    crosses_threads::<List<T>>();
}

#[test]
fn crosses() {
    crosses_with_its_items::<Chars>();
    crosses_threads::<Memory>();
}

fn chars(rt: &impl Abort, alloc: Global, text: &str) -> Chars {
    Chars::from_str(alloc, text).expect(rt, text)
}

// A list of two texts.
fn names(rt: &impl Abort, alloc: Global) -> List<Chars> {
    let mut names = List::new(alloc);
    names.push(chars(rt, alloc, "hr")).expect(rt, "hr");
    names.push(chars(rt, alloc, "")).expect(rt, "");
    names
}

fn are_names(rt: &impl Abort, names: &[Chars]) {
    for name in names {
        assert!(rt;
            name.as_str() == "hr" || name.as_str() == "",
            "{}",
            name.as_str()
        );
    }
}

fn has_count(rt: &impl Abort, found: usize, count: usize) {
    assert!(rt; found == count, "{found} for {count}");
}

#[test]
fn keeps_contents(rt: HostRuntime) {
    let names = names(&rt, rt.alloc());
    has_count(&rt, names.len(), 2);
    let names = List::from_vec(names.into_vec());
    has_count(&rt, names.as_slice().len(), 2);
    are_names(&rt, names.as_slice());
}

#[test]
fn begins_empty(rt: HostRuntime) {
    let names: List<Chars> = List::new(rt.alloc());
    assert!(rt; names.is_empty());
}

fn is_below(rt: &impl Abort, alloc: Global, one: &str, other: &str) -> bool {
    chars(rt, alloc, one) < chars(rt, alloc, other)
}

fn is_same(rt: &impl Abort, alloc: Global, one: &str, other: &str) -> bool {
    chars(rt, alloc, one) == chars(rt, alloc, other)
}

#[test]
fn orders_texts_by_bytes(rt: HostRuntime) {
    let alloc = rt.alloc();
    assert!(rt; is_below(&rt, alloc, "Zeta", "alpha"));
    assert!(rt; is_below(&rt, alloc, "alpha", "alphabet"));
    assert!(rt; is_same(&rt, alloc, "Zeta", "Zeta"));
}

#[test]
fn counts_ticks(rt: HostRuntime) {
    let mut steps = Steps::new(());
    steps.tick();
    steps.tick();
    assert!(rt; steps.count() == 2);
}
