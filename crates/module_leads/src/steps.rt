// Ways, as they are compared.
ghost use Rattle.std.specs.Prelude.{◌≡◌};
ghost use Rattle.face_views.specs.Exact.{Tells};
ghost use Rattle.flattened_trees.specs.declared.End.TheVariants as end;
ghost use Rattle.module_leads.specs.declared.ways.Way.TheVariants as ways;
ghost use Rattle.module_leads.specs.Alike.{step_way};
ghost use Rattle.module_leads.specs.Ways.{found_way};

use crate::ways::{FoundWay, Way};
use flattened_trees::End;
use name_context::Named;

/// An instance, with the number of its module's face.
#[derive(Clone, Copy)]
pub struct Passage {
    pub instance: usize,
    pub face: Option<usize>,
}

/// A way as it is compared.
#[derive(Clone, Copy)]
pub enum Step<'a> {
    To(End),
    Behind(Passage),
    Through(Passage, Named<'a>),
}

// A way that was put, as it is compared.
fn put_step(way: &Way) -> Step<'_>
    ensures { step_way result ≡ way.now }
{
    match way {
        Way::To(end) => Step::To(*end),
        Way::Behind { instance, face } => Step::Behind(Passage {
            instance: *instance,
            face: *face,
        }),
        Way::Through {
            instance,
            face,
            name,
        } => Step::Through(
            Passage {
                instance: *instance,
                face: *face,
            },
            name.named(),
        ),
    }
}

/// A way as it is compared.
pub(crate) fn step_of(way: FoundWay<'_>) -> Step<'_>
    ensures { step_way result ≡ found_way way.entry }
{
    match way {
        FoundWay::Put(way) => put_step(way),
        FoundWay::To(end) => Step::To(end),
        FoundWay::Through {
            instance,
            face,
            name,
        } => Step::Through(Passage { instance, face }, name),
    }
}

// Whether a way leads nowhere.
fn is_nowhere(step: Step<'_>) -> bool
    ensures { Tells result (step_way step.entry ≡ ways.To end.Nowhere) }
{
    match step {
        Step::To(End::Nowhere) => true,
        _ => false,
    }
}

/// Whether a way leads nowhere.
pub(crate) fn leads_nowhere(way: FoundWay<'_>) -> bool
    ensures { Tells result (found_way way.entry ≡ ways.To end.Nowhere) }
{
    is_nowhere(step_of(way))
}
