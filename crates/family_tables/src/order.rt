// The order in which modules are checked.
ghost use Rattle.std.specs.Prelude.{◌↔◌, List as ListOf, IsTrue, IfOk};
ghost use Rattle.name_graph.specs.Family as graphs;
ghost use Rattle.index_graph.specs.Leading.{LeadsBack};
ghost use Rattle.family_tables.specs.Modules.{Entry};
ghost use Rattle.family_tables.specs.Tables.{names_in};
ghost use Rattle.family_tables.specs.Plans as plans;
ghost use Rattle.family_tables.specs.Plans.{AreOnce, IsGraph, AreKept, IsOrder, IsPlan};

use crate::reading::Module;
use crate::table::Table;
use name_graph::{Graph, GraphError};
use std::alloc::Global;
use tool_list::{Chars, List, Memory};

/// How modules are checked.
pub struct Plan {
    /// The names of the modules, each behind what it needs, but for cyclic needs.
    pub order: List<Chars>,
    /// The needs of the modules, where some module reaches itself.
    pub cycles: Option<Graph>,
}

// By hand, so that a proof meets one call wherever a value ends.
impl Drop for Plan {
    fn drop(self) {
        let Plan {
            order: _,
            cycles: _,
        } = self;
    }
}

// The modules with what they need.
fn graph_of(alloc: Global, modules: &Table<Module>) -> Result<Graph, Memory>
    requires { AreOnce (names_in modules.now) }
    ensures { IfOk result (IsGraph (names_in modules.now) (plans.Needs modules.now)) }
{
    let mut graph = Graph::new(alloc);
    for index in 0..modules.len() {
        let (name, module) = modules.at(index);
        graph.put(alloc, name, &module.needs)?;
    }
    Ok(graph)
}

// Whether a need of a name is that name or reaches it.
fn is_cyclic_in(alloc: Global, graph: &Graph, name: &str, need: &str) -> Result<bool, Memory>
    ensures { IfOk result
        (λ answer. IsTrue answer ↔ LeadsBack (graphs.Needs graph.now) name.now need.now) }
{
    if need == name {
        return Ok(true);
    }
    graph.reaches(alloc, need, name)
}

// Those of the needs of a name that are not cyclic.
fn kept_needs(
    alloc: Global,
    graph: &Graph,
    name: &str,
    needs: &[Chars],
) -> Result<List<Chars>, Memory>
    ensures { IfOk result (AreKept graph.now name.now needs.now) }
{
    let mut kept = List::new(alloc);
    for need in needs {
        if !is_cyclic_in(alloc, graph, name, need.as_str())? {
            kept.push(Chars::from_str(alloc, need.as_str())?)?;
        }
    }
    Ok(kept)
}

// The modules with those of their needs that are not cyclic.
fn graph_without(alloc: Global, modules: &Table<Module>, graph: &Graph) -> Result<Graph, Memory>
    requires once { AreOnce (names_in modules.now) }
    requires graph { IsGraph (names_in modules.now) (plans.Needs modules.now) graph.now }
    ensures { IfOk result (IsGraph (names_in modules.now) (plans.NeedsBefore modules.now)) }
{
    let mut without = Graph::new(alloc);
    for index in 0..modules.len() {
        let (name, module) = modules.at(index);
        let needs = kept_needs(alloc, graph, name, module.needs.as_slice())?;
        without.put(alloc, name, &needs)?;
    }
    Ok(without)
}

// The order of modules some of which reach themselves.
fn order_without(
    alloc: Global,
    modules: &Table<Module>,
    graph: &Graph,
) -> Result<List<Chars>, Memory>
    requires once { AreOnce (names_in modules.now) }
    requires graph { IsGraph (names_in modules.now) (plans.Needs modules.now) graph.now }
    ensures { IfOk result (IsOrder modules.now) }
{
    let without = graph_without(alloc, modules, graph)?;
    match without.order(alloc) {
        Ok(order) => Ok(order),
        Err(GraphError::Cyclic { name: _ }) => unreachable!(),
        Err(GraphError::Memory) => Err(Memory),
    }
}

// The plan of modules some of which reach themselves.
fn plan_of_cycles(alloc: Global, modules: &Table<Module>, graph: Graph) -> Result<Plan, Memory>
    requires once { AreOnce (names_in modules.now) }
    requires graph { IsGraph (names_in modules.now) (plans.Needs modules.now) graph }
    ensures { IfOk result (IsPlan modules.now) }
{
    let order = order_without(alloc, modules, &graph)?;
    Ok(Plan {
        order,
        cycles: Some(graph),
    })
}

/// How to check modules: each once, and behind what it needs, but for cyclic needs.
pub fn plan_of(alloc: Global, modules: &Table<Module>) -> Result<Plan, Memory>
    requires { AreOnce (names_in modules.now) }
    ensures { IfOk result (IsPlan modules.now) }
{
    let graph = graph_of(alloc, modules)?;
    match graph.order(alloc) {
        Ok(order) => Ok(Plan {
            order,
            cycles: None,
        }),
        Err(GraphError::Cyclic { name: _ }) => {
            let plan = plan_of_cycles(alloc, modules, graph)?;
            Ok(plan)
        }
        Err(GraphError::Memory) => Err(Memory),
    }
}

impl Plan {
    /// Whether a need of a module is that module or reaches it.
    pub fn is_cyclic(&self, alloc: Global, name: &str, need: &str) -> Result<bool, Memory>
        ensures { (modules : ListOf Entry) → IsPlan modules self.now
            → plans.Needs modules name.now need.now
            → IfOk result
            (λ answer. IsTrue answer ↔ LeadsBack (plans.Needs modules) name.now need.now) }
    {
        match &self.cycles {
            Some(graph) => is_cyclic_in(alloc, graph, name, need),
            None => Ok(false),
        }
    }
}
