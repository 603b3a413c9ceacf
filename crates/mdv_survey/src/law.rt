//! What holds of every two surveys of a site, as the contracts of functions that do nothing.
ghost use Rattle.mdv_survey.specs.Laws.{CountsAreOne, LettersAreOne};

/// On the site of a sound table of drives: two surveys that have the same blocks, and whose drives all answered, tell the same letters of each place.
pub fn letters_are_one()
    ensures { LettersAreOne }
{}

/// Two looks at the same slices that have the same blocks, and whose drives all answered, take the same number of calls.
pub fn counts_are_one()
    ensures { CountsAreOne }
{}
