//! Laws of families of identifiers, which are tied by delegation: as the contracts of empty functions.
ghost use Rattle.export_core.specs.ExportLaws.Families.{FamilyLaw, NamedFamilyLaw};
ghost use Rattle.export_core.specs.ExportLaws.FamilyQuestions.{FamilyQuestionsLaw, FamilyRegularLaw};
ghost use Rattle.export_core.specs.ExportLaws.FamilyReport.{FamilyReportLaw};

/// What is accepted of identifiers and their delegators depends on their own entries alone.
pub fn families_are_accepted_alone()
    ensures { FamilyLaw }
{}

/// So it is where the inceptions that came name no delegator outside.
pub fn named_families_are_accepted_alone()
    ensures { NamedFamilyLaw }
{}

/// And so is what is asked.
pub fn families_ask_alone()
    ensures { FamilyQuestionsLaw }
{}

/// The part of a journal in which each verdict was asked for is one, too.
pub fn families_are_regular()
    ensures { FamilyRegularLaw }
{}

/// Why events wait, and which bodies count for conflicts, depends on the family's own entries alone.
pub fn families_report_alone()
    ensures { FamilyReportLaw }
{}
