// What is kept of modules that became nodes.
ghost use Rattle.std.specs.Prelude.{◌≡◌, IfOk, IsTrue};
ghost use Rattle.kind_text.specs.FlatModule.{IsOrdered};
ghost use Rattle.kind_table.specs.Flattened.{flat_of};
ghost use Rattle.flat_builder.specs.Building.{empty};
ghost use Rattle.module_leads.specs.Alike.{AreFacesAlike, FindsAlike};
ghost use Rattle.module_leads.specs.Leading.{leading_in, nothing_led};
ghost use Rattle.module_levels.specs.Kept.{AreKept};

use kind_table::FlatModule;
use level_facts::KindFacts;
use module_leads::ModuleLeads;
use node_depths::Depths;
use std::alloc::Global;
use tool_list::Memory;
use tree_flattener::Flattening;
use unit_flattener::Tables;

/// What modules are to their instances, the one flat module that their nodes are in, and what was
/// found of the kinds and depths of these. Between modules nothing is asked, and no frame is kept.
#[derive(Drop)]
pub struct LevelTables {
    pub tables: Tables,
    pub facts: KindFacts,
    pub depths: Depths,
}

impl LevelTables {
    /// No module became nodes.
    pub fn new(alloc: Global) -> Result<LevelTables, Memory>
        ensures kept { IfOk result (λ known. AreKept known) }
        ensures flat { IfOk result (λ known. known.tables.state.flat ≡ empty) }
        ensures leads { IfOk result (λ known. leading_in known.tables.leads ≡ nothing_led) }
    {
        let state = Flattening::new(alloc);
        let facts = KindFacts::new(alloc, state.flat.as_flat())?;
        let depths = Depths::new(alloc, state.flat.as_flat())?;
        Ok(LevelTables {
            tables: Tables {
                leads: ModuleLeads::new(alloc),
                state,
            },
            facts,
            depths,
        })
    }

    /// The flat module so far.
    pub fn as_flat(&self) -> &FlatModule
        ensures tables { flat_of result.now ≡ self.now.tables.state.flat }
        ensures ordered { IsOrdered self.now.tables.state.flat }
    {
        self.tables.state.flat.as_flat()
    }

    /// Whether two modules lead alike, as far as numbers of all nodes tell: whether they are the same to
    /// their instances, up to resolved trees.
    pub fn are_alike(
        &self,
        alloc: Global,
        numbers: &[usize],
        one: usize,
        other: usize,
    ) -> Result<bool, Memory>
        ensures same { IfOk result (λ same. IsTrue same
            → AreFacesAlike self.now.tables.state.flat numbers.now
            ((leading_in self.now.tables.leads).faces one)
            ((leading_in self.now.tables.leads).faces other)) }
        ensures found { IfOk result (FindsAlike self.now.tables.state.flat numbers.now
            ((leading_in self.now.tables.leads).faces one)
            ((leading_in self.now.tables.leads).faces other)) }
    {
        self.tables
            .leads
            .are_alike(alloc, self.as_flat(), numbers, one, other)
    }
}
