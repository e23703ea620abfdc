// Names that were put, with what they need.
ghost use Rattle.std.specs.Prelude.{◌≡◌, ◌↔◌, ℕ, List as ListOf, IsTrue, IfOk, IfErr, OnOk, OnErr};
ghost use Rattle.std.specs.FinMap as map;
ghost use Rattle.name_graph.specs.Family.{Reaches, IsOrder, HasFault};

use crate::GraphError;
use crate::rows::{Rows, edges_of, first_of, name_at, names_of, some_needs};
use index_graph::{arrange, reached};
use indexmap::IndexMap;
use std::alloc::Global;
use std::marker::Model;
use tool_list::{Chars, List, Memory};

/// Names with the names that they need. Contracts see a map of those that were put.
pub struct Graph {
    rows: Rows,
}

// By hand, so that a proof meets one call wherever a value ends.
impl Drop for Graph {
    fn drop(self) {
        let Graph { rows: _ } = self;
    }
}

impl Model for Graph {
    ghost use Rattle.name_graph.specs.Family.{Family, family_code};
    ghost use Rattle.name_graph.specs.Rows.{family_of};

    ghost Value = { Family };

    ghost coded = { family_code };

    ghost view = { λ g. family_of g.rows.entries };
}

// The same names.
fn copied(alloc: Global, names: &[Chars]) -> Result<List<Chars>, Memory>
    ensures { IfOk result (λ copy. copy ≡ names.now) }
{
    let mut copy = List::new(alloc);
    for name in names {
        copy.push(Chars::from_str(alloc, name.as_str())?)?;
    }
    Ok(copy)
}

impl Graph {
    /// No names. It takes no memory.
    pub fn new(alloc: Global) -> Graph
        ensures { result ≡ map.empty }
    {
        Graph {
            rows: IndexMap::new(alloc),
        }
    }

    /// Puts a name with what it needs, in the place of what it needed before. After `Memory` all is as
    /// before.
    pub fn put(&mut self, alloc: Global, name: &str, needs: &List<Chars>) -> Result<(), Memory>
        ensures ok { OnOk result (self.new ≡ map.insert self.old name.now needs.now) }
        ensures err { OnErr result (self.new ≡ self.old) }
    {
        let needs = copied(alloc, needs.as_slice())?;
        let name = String::from_str(alloc, name)?;
        self.rows.insert(name, needs)?;
        Ok(())
    }

    /// Whether one or more needs lead from one name to another.
    pub fn reaches(&self, alloc: Global, from: &str, to: &str) -> Result<bool, Memory>
        ensures { IfOk result (λ answer. IsTrue answer ↔ Reaches self.now from.now to.now) }
    {
        let Some(start) = self.rows.get_index_of(from) else {
            return Ok(false);
        };
        let edges = edges_of(alloc, &self.rows)?;
        let seen = reached(alloc, &edges, start)?;
        Ok(some_needs(&self.rows, &seen, to))
    }

    /// The names that were put, each behind those that it needs.
    ///
    /// `Cyclic` comes exactly where some name reaches itself, with the first such in byte order.
    pub fn order(&self, alloc: Global) -> Result<List<Chars>, GraphError>
        ensures order { IfOk result (λ names. IsOrder self.now names) }
        ensures acyclic { IfOk result (λ _. (name : ListOf ℕ) → Reaches self.now name name → ⊥) }
        ensures fault { IfErr result (λ fault. HasFault self.now fault) }
    {
        let edges = edges_of(alloc, &self.rows)?;
        let found = arrange(alloc, &edges)?;
        match first_of(&self.rows, &found.cyclic) {
            Some(index) => Err(GraphError::Cyclic {
                name: Chars::from_str(alloc, name_at(&self.rows, index))?,
            }),
            None => Ok(names_of(alloc, &self.rows, &found.order)?),
        }
    }
}
