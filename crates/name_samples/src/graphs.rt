// Names that need each other.
use name_graph::{Graph, GraphError};
use std::alloc::Global;
use std::process::Abort;
use tool_list::{Chars, List};

// What is done to a graph, or has to be true of it.
enum Step {
    // A name is put, with what it needs.
    Put(&'static str, &'static str),
    // These are the names in order.
    Order(&'static str),
    // This is the first name on a cycle.
    Cycle(&'static str),
    // Whether needs lead from one name to another.
    Reaches(&'static str, &'static str, bool),
}

use Step::{Cycle, Order, Put, Reaches};

static CHAIN: [Step; 6] = [
    Put("A", "N B B"),
    Put("B", "C"),
    Put("C", "N"),
    Order("CBA"),
    Reaches("A", "N", true),
    Reaches("C", "A", false),
];

static CYCLES: [Step; 6] = [
    Put("A", "Z D"),
    Put("Z", "X"),
    Put("X", "Y Z"),
    Cycle("X"),
    Put("D", "D"),
    Cycle("D"),
];

// The names that are parted by blanks.
fn names_of(rt: &impl Abort, alloc: Global, words: &str) -> List<Chars> {
    let mut names = List::new(alloc);
    for word in words.split(' ') {
        let name = Chars::from_str(alloc, word).expect(rt, word);
        names.push(name).expect(rt, word);
    }
    names
}

// The names behind each other.
fn joined(rt: &impl Abort, alloc: Global, names: &[Chars]) -> String {
    let mut text = String::new(alloc);
    for name in names {
        text.push_str(name.as_str()).expect(rt, name.as_str());
    }
    text
}

fn put(rt: &impl Abort, alloc: Global, graph: &mut Graph, name: &str, needs: &str) {
    let needs = names_of(rt, alloc, needs);
    graph.put(alloc, name, &needs).expect(rt, name);
}

fn has_order(rt: &impl Abort, alloc: Global, graph: &Graph, order: &str) -> bool {
    match graph.order(alloc) {
        Ok(names) => joined(rt, alloc, names.as_slice()).as_str() == order,
        Err(_) => false,
    }
}

fn has_cycle(alloc: Global, graph: &Graph, first: &str) -> bool {
    match graph.order(alloc) {
        Err(GraphError::Cyclic { name }) => name.as_str() == first,
        _ => false,
    }
}

// Takes a step, and tells whether what has to be true is.
fn take(rt: &impl Abort, alloc: Global, graph: &mut Graph, step: &Step) -> bool {
    match step {
        Put(name, needs) => put(rt, alloc, graph, *name, *needs),
        Order(order) => return has_order(rt, alloc, graph, *order),
        Cycle(first) => return has_cycle(alloc, graph, *first),
        Reaches(from, to, whether) => return graph.reaches(alloc, *from, *to) == Ok(*whether),
    }
    true
}

fn follow(rt: &impl Abort, alloc: Global, graph: &mut Graph, steps: &[Step]) {
    for (place, step) in steps.iter().enumerate() {
        assert!(rt; take(rt, alloc, graph, step), "step {place}");
    }
}

#[test]
fn orders_a_chain(rt: HostRuntime) {
    let alloc = rt.alloc();
    follow(&rt, alloc, &mut Graph::new(alloc), &CHAIN);
}

#[test]
fn names_the_first_on_a_cycle(rt: HostRuntime) {
    let alloc = rt.alloc();
    follow(&rt, alloc, &mut Graph::new(alloc), &CYCLES);
}
