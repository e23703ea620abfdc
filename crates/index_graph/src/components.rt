// Indices in an order in which each stands behind those that it needs, those that reach themselves,
// and the groups of those that reach each other.
//
// The open indices are in groups that reach one another. A need that leads back to an open index
// joins the groups from there on. A group is closed once all its needs were followed: they are closed
// then. So groups are closed one behind the other, each numbered by where it begins in the order.
ghost use Rattle.std.specs.Prelude.{◌≡◌, ◌<◌, ◌≤◌, ◌+◌, ℕ, false, Some, List, [], ◌∷◌, ◌++◌, All, IfOk, OnOk, drop, take, if◌then◌else◌, length, slice_get, slice_set, vec_len};
ghost use Rattle.index_graph.specs.Indices.{HasIndices, IsOrdered, AreGrouped};
ghost use Rattle.index_graph.specs.SearchState.{AreWalk, AreJoined, IsPopped, IsTop, WentOn, KeepsFound, work, set_all};
ghost use Rattle.index_graph.specs.declared.components.Mark.{Mark as MarkOf};
ghost use Rattle.index_graph.specs.declared.components.Group.{Group as GroupOf};

use std::alloc::Global;
use tool_list::{List, Memory};

/// Where an index stands in a walk.
#[derive(Clone, Copy)]
pub enum Mark {
    New,
    /// It is open, at this index of the path.
    Open(usize),
    Closed,
}

/// Open indices that reach one another.
#[derive(Clone, Copy)]
pub struct Group {
    /// Where it begins in the path.
    pub first: usize,
    /// Where its needs begin in what is to be followed.
    pub pending: usize,
    /// Whether a need led back to it.
    pub cyclic: bool,
}

/// A walk along needs.
#[derive(Drop)]
pub struct Walk {
    pub marks: Vec<Mark>,
    /// The open indices.
    pub path: Vec<usize>,
    /// Needs of open indices that are to be followed.
    pub todo: Vec<usize>,
    pub groups: Vec<Group>,
    /// The closed indices, each group behind those that it needs.
    pub order: Vec<usize>,
    /// The closed indices that reach themselves.
    pub cyclic: Vec<usize>,
    /// For each closed index where its group begins in the order.
    pub numbers: Vec<usize>,
}

/// Joins the groups from that of the index that is open here in the path on.
fn join(groups: &mut Vec<Group>, index: usize)
    requires some { 0 < vec_len groups.old }
    requires base { (group : GroupOf) → slice_get groups.old.items 0 ≡ Some group
        → group.first ≡ 0 }
    ensures { AreJoined groups.old.items index groups.new.items }
{
    let mut top = groups.len() - 1;
    while groups[top].first > index {
        top -= 1;
    }
    groups.truncate(top + 1);
    groups[top].cyclic = true;
}

// Puts one item at all of these indices.
fn put_all<T: Copy>(items: &mut Vec<T>, indices: &[usize], item: T)
    requires { All (λ index. index < vec_len items.old) indices.now }
    ensures { items.new.items ≡ set_all items.old.items indices.now item }
{
    for &index in indices {
        items[index] = item;
    }
}

impl Walk {
    fn new(alloc: Global, len: usize) -> Result<Walk, Memory>
        ensures marks { IfOk result (λ walk. (index : ℕ) (mark : MarkOf)
            → slice_get walk.marks.items index ≡ Some mark → mark ≡ Mark.New) }
        ensures long { IfOk result (λ walk. vec_len walk.marks ≡ len) }
        ensures numbers { IfOk result (λ walk. vec_len walk.numbers ≡ len) }
        ensures rest { IfOk result (λ walk. (walk.path.items ≡ []) × (walk.todo.items ≡ [])
            × (walk.groups.items ≡ []) × (walk.order.items ≡ []) × (walk.cyclic.items ≡ [])) }
    {
        let mut marks = Vec::with_capacity(alloc, len)?;
        let mut numbers = Vec::with_capacity(alloc, len)?;
        for _ in 0..len {
            marks.push(Mark::New)?;
            numbers.push(0)?;
        }
        Ok(Walk {
            marks,
            path: Vec::new(alloc),
            todo: Vec::new(alloc),
            groups: Vec::new(alloc),
            order: Vec::new(alloc),
            cyclic: Vec::new(alloc),
            numbers,
        })
    }

    // Opens an index, in a group of its own.
    fn open(&mut self, edges: &[List<usize>], index: usize) -> Result<(), Memory>
        requires index { index < length edges.now }
        requires long { vec_len self.old.marks ≡ length edges.now }
        ensures marks { OnOk result (self.new.marks.items
            ≡ slice_set self.old.marks.items index (Mark.Open (length self.old.path.items))) }
        ensures path { OnOk result (self.new.path.items ≡ self.old.path.items ++ index ∷ []) }
        ensures todo { OnOk result ((row : List ℕ) → slice_get edges.now index ≡ Some row
            → self.new.todo.items ≡ self.old.todo.items ++ row) }
        ensures groups { OnOk result (self.new.groups.items
            ≡ self.old.groups.items
            ++ record {
              first = length self.old.path.items;
              pending = length self.old.todo.items;
              cyclic = false;
            } ∷ []) }
        ensures order { self.new.order.items ≡ self.old.order.items }
        ensures cyclic { self.new.cyclic.items ≡ self.old.cyclic.items }
        ensures numbers { self.new.numbers.items ≡ self.old.numbers.items }
    {
        let first = self.path.len();
        let pending = self.todo.len();
        self.groups.push(Group {
            first,
            pending,
            cyclic: false,
        })?;
        self.marks[index] = Mark::Open(first);
        self.path.push(index)?;
        self.todo.extend_from_slice(edges[index].as_slice())?;
        Ok(())
    }

    // Closes the indices of a group that was the last one.
    fn close(&mut self, group: Group) -> Result<(), Memory>
        requires first { group.first ≤ length self.old.path.items }
        requires marks { All (λ index. index < length self.old.marks.items) self.old.path.items }
        requires numbers { All (λ index. index < length self.old.numbers.items)
            self.old.path.items }
        ensures marks { OnOk result (self.new.marks.items
            ≡ set_all self.old.marks.items (drop group.first self.old.path.items) Mark.Closed) }
        ensures path { OnOk result (self.new.path.items ≡ take group.first self.old.path.items) }
        ensures todo { self.new.todo.items ≡ self.old.todo.items }
        ensures groups { self.new.groups.items ≡ self.old.groups.items }
        ensures order { OnOk result (self.new.order.items
            ≡ self.old.order.items ++ drop group.first self.old.path.items) }
        ensures cyclic { OnOk result (self.new.cyclic.items
            ≡ (if group.cyclic then self.old.cyclic.items ++ drop group.first self.old.path.items
            else self.old.cyclic.items)) }
        ensures numbers { OnOk result (self.new.numbers.items
            ≡ set_all self.old.numbers.items (drop group.first self.old.path.items)
            (length self.old.order.items)) }
    {
        let number = self.order.len();
        put_all(&mut self.marks, &self.path[group.first..], Mark::Closed);
        put_all(&mut self.numbers, &self.path[group.first..], number);
        self.order.extend_from_slice(&self.path[group.first..])?;
        if group.cyclic {
            self.cyclic.extend_from_slice(&self.path[group.first..])?;
        }
        self.path.truncate(group.first);
        Ok(())
    }

    // Follows a need that was taken out of those to be followed.
    fn follow(&mut self, edges: &[List<usize>], need: usize) -> Result<(), Memory>
        requires indices { HasIndices edges.now }
        requires need { need < length edges.now }
        requires walk { IsPopped edges.now need self.old }
        ensures { OnOk result (WentOn edges.now (work edges.now self.old + 1) self.old self.new) }
    {
        match self.marks[need] {
            Mark::New => self.open(edges, need),
            Mark::Open(index) => {
                join(&mut self.groups, index);
                Ok(())
            }
            Mark::Closed => Ok(()),
        }
    }

    // Follows one need of the last group, or closes it.
    fn step(&mut self, edges: &[List<usize>], top: Group) -> Result<(), Memory>
        requires indices { HasIndices edges.now }
        requires walk { AreWalk edges.now [] self.old }
        requires top { IsTop self.old.groups.items top }
        ensures { OnOk result (WentOn edges.now (work edges.now self.old) self.old self.new) }
    {
        if self.todo.len() > top.pending {
            let Some(need) = self.todo.pop() else {
                unreachable!();
            };
            self.follow(edges, need)
        } else {
            self.groups.pop();
            self.close(top)
        }
    }

    // Closes all that is open.
    fn run(&mut self, edges: &[List<usize>]) -> Result<(), Memory>
        requires indices { HasIndices edges.now }
        requires walk { AreWalk edges.now [] self.old }
        ensures walk { OnOk result (AreWalk edges.now [] self.new) }
        ensures none { OnOk result (length self.new.groups.items ≡ 0) }
        ensures keeps { OnOk result (KeepsFound self.old.marks.items self.new.marks.items) }
    {
        while let Some(&top) = self.groups.last() {
            self.step(edges, top)?;
        }
        Ok(())
    }
}

/// The indices in an order in which each stands behind those that it needs, unless it reaches
/// itself.
pub struct Ordered {
    pub order: Vec<usize>,
    /// The indices that reach themselves.
    pub cyclic: Vec<usize>,
    /// A number for each index, one for those that reach each other.
    pub groups: Vec<usize>,
}

// By hand, so that a proof meets one call wherever a value ends.
impl Drop for Ordered {
    fn drop(self) {
        let Ordered {
            order: _,
            cyclic: _,
            groups: _,
        } = self;
    }
}

impl Ordered {
    /// The order, and the numbers of the groups.
    pub fn into_groups(self) -> (Vec<usize>, Vec<usize>)
        ensures { result ≡ (self.order, self.groups) }
    {
        let Ordered {
            order,
            cyclic: _,
            groups,
        } = self;
        (order, groups)
    }
}

/// Opens and closes an index that is new, and what it reaches.
fn visit(walk: &mut Walk, edges: &[List<usize>], index: usize) -> Result<(), Memory>
    requires indices { HasIndices edges.now }
    requires index { index < length edges.now }
    requires walk { AreWalk edges.now [] walk.old }
    requires none { length walk.old.groups.items ≡ 0 }
    ensures walk { OnOk result (AreWalk edges.now [] walk.new) }
    ensures none { OnOk result (length walk.new.groups.items ≡ 0) }
    ensures keeps { OnOk result (KeepsFound walk.old.marks.items walk.new.marks.items) }
    ensures found { OnOk result (slice_get walk.new.marks.items index ≡ Some Mark.New → ⊥) }
{
    match walk.marks[index] {
        Mark::New => {
            walk.open(edges, index)?;
            walk.run(edges)
        }
        Mark::Open(_) | Mark::Closed => Ok(()),
    }
}

/// Arranges the indices, tells which of them reach themselves, and numbers the groups of those that
/// reach each other.
pub fn arrange(alloc: Global, edges: &[List<usize>]) -> Result<Ordered, Memory>
    requires { HasIndices edges.now }
    ensures order { IfOk result
        (λ found. IsOrdered edges.now found.order.items found.cyclic.items) }
    ensures groups { IfOk result
        (λ found. AreGrouped edges.now found.order.items found.groups.items) }
{
    let mut walk = Walk::new(alloc, edges.len())?;
    for index in 0..edges.len() {
        visit(&mut walk, edges, index)?;
    }
    Ok(Ordered {
        order: walk.order,
        cyclic: walk.cyclic,
        groups: walk.numbers,
    })
}
