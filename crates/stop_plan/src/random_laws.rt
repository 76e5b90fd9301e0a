//! Laws of the definitions, each the contract of a function that does nothing.
ghost use Rattle.stop_plan.specs.RandomLaws.{RandomIsPlan, RandomSparesOne, RandomTextSpells};
ghost use Rattle.stop_plan.specs.RandomLaws.{TextSpellsPlan};

/// The text of a plan's rows is read as that plan.
pub fn text_spells_plan()
    ensures { TextSpellsPlan }
{}

/// The rows of a seed are a plan.
pub fn random_is_plan()
    ensures { RandomIsPlan }
{}

/// The text of a seed's rows is read as the seed's plan.
pub fn random_text_spells()
    ensures { RandomTextSpells }
{}

/// The plan of a seed stops not every worker.
pub fn random_spares_one()
    ensures { RandomSparesOne }
{}
