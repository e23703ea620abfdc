// Where what is said and found of files stands, as a function of their bytes.
ghost use Rattle.std.specs.Prelude.{Bool, Contains, List};
ghost use Rattle.std.specs.List.{All};
ghost use Rattle.family_facts.specs.Facts.{texts_of};
ghost use Rattle.family_facts.specs.Verdicts.{AreDistinct, family_of};
ghost use Rattle.family_facts.specs.declared.verdict.File.{File};
ghost use Rattle.family_tables.specs.Modules.{AreModules, Entry};
ghost use Rattle.leveled_facts.specs.Families.{leveled};
ghost use Rattle.fact_lines.specs.Reports.{IsReportPlaced, reports_on};
ghost use Rattle.family_levels.specs.Leveling.{AreNames, AreOutcomes};
ghost use Rattle.family_levels.specs.Telling.{AreFound, Stands};
ghost use Rattle.family_levels.specs.declared.findings.Findings.{Findings};

use level_spans::level_faults_stand_in_text;
use module_facts::faults_stand_in_text;
use name_spans::{decls_stand_in_text, modules_are_texts, uses_stand_in_text};
use span_laws::{front_nodes_placed, front_words_lie};

// What is found of files stands in their texts.
fn files_stand_in_text()
    ensures { (files : List File) (modules : List Entry) → AreDistinct files
        → AreModules (family_of files) modules → (file : File) → Contains files file
        → Stands file.bytes (leveled (texts_of (family_of files)) file.name) }
{
    front_laws::one_front();
    faults_stand_in_text();
    level_faults_stand_in_text();
    uses_stand_in_text();
    decls_stand_in_text();
    modules_are_texts();
    front_nodes_placed();
    front_words_lie();
}

/// The faults and the uses of files stand in their texts.
pub(crate) fn reports_stand_in_text()
    ensures { (facts : Bool) (files : List File) (modules : List Entry) → AreDistinct files
        → AreModules (family_of files) modules → All IsReportPlaced (reports_on facts files) }
{
    files_stand_in_text();
}

/// What is found of all modules of files is what the function of their texts gives: the faults and
/// the names of the files stand in them.
pub(crate) fn findings_stand_in_text()
    ensures { (files : List File) (modules : List Entry) (found : Findings) → AreDistinct files
        → AreModules (family_of files) modules → AreOutcomes (family_of files) found.outcomes
        → AreNames (family_of files) found.names → AreFound files found }
{
    files_stand_in_text();
}
