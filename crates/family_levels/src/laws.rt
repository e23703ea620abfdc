// Laws of crates below, together: so that a proof has three premises, and not fifteen.
ghost use Rattle.family_levels.specs.Laws.{AlikeLaws, FamilyLaws, KnownLaws};

use alike_modules::{
    faces_are_known_alike, faces_are_made_alike, known_files_stay_known, made_modules_answer,
    made_modules_are_known, modules_are_foreign, modules_are_found_alike,
    refused_modules_are_found_alike,
};
use leveled_facts::{declarations_have_places, leveled_is};
use module_facts::{in_order, none_in_order};
use viewed_modules::made_modules_need_views;

/// Laws on modules that are known, on what is found of members of families, and on modules over
/// others that are to them what those before were.
pub(crate) fn laws_below()
    ensures known { KnownLaws }
    ensures family { FamilyLaws }
    ensures alike { AlikeLaws }
{
    made_modules_answer();
    made_modules_are_known();
    known_files_stay_known();
    modules_are_foreign();
    leveled_is();
    declarations_have_places();
    in_order();
    none_in_order();
    faces_are_known_alike();
    made_modules_need_views();
    modules_are_found_alike();
    refused_modules_are_found_alike();
    faces_are_made_alike();
}
