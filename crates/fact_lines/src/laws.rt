// Where declaring names stand, as a function of texts.
ghost use Rattle.std.specs.Prelude.{◌≡◌, List as ListOf, map};
ghost use Rattle.tla_model.specs.declared.entity.Use.{Use};
ghost use Rattle.family_facts.specs.Facts.{texts_of};
ghost use Rattle.family_facts.specs.Family.{AreMembersDistinct, Member};
ghost use Rattle.family_tables.specs.Modules.{AreModules, Entry};
ghost use Rattle.fact_lines.specs.Rows.{line_by, row_of};
ghost use Rattle.fact_lines.specs.Lines.{fact_line};

/// A use is shown as the texts of a family say, by where the declaring names of its modules begin.
pub fn places_are_declared()
    ensures { (family : ListOf Member) (modules : ListOf Entry) (found : Use)
        → AreMembersDistinct family → AreModules family modules
        → line_by (map row_of modules) found ≡ fact_line (texts_of family) found }
{
    front_laws::one_front();
}
