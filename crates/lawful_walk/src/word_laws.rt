//! Laws of lawful words: each function here does nothing, and its contract is the law.
ghost use Rattle.lawful_walk.specs.WordLaws.{SettledWordsTell, StartWordsAreLawful};
ghost use Rattle.lawful_walk.specs.WordLaws.{WritesKeepWordsLawful};
ghost use Rattle.lawful_walk.specs.WordLaws.{FinishedStepsAreHeld, LastFinishedStepIsHeld};
ghost use Rattle.lawful_walk.specs.WordLaws.{BackedIsFaithful, SoundIsFaithful};

/// The settled word of a place tells what the place holds: of a processor's own place in the wide
/// form, what it held when the processor last settled.
pub fn settled_words_tell()
    ensures { SettledWordsTell }
{}

/// The words that a board starts with are lawful.
pub fn start_words_are_lawful()
    ensures { StartWordsAreLawful }
{}

/// What a worker writes while the words stand leaves words that stand and have grown. Where its
/// phase is over it changes none but its own position, and in the wide form marks, which rise.
#[tactic(auto, using(crate::proofs::Effects::writes_keep))]
pub fn writes_keep_words_lawful()
    ensures { WritesKeepWordsLawful }
{}

/// Lawful words tell what a place held after a finished step, as long as one of its two words has
/// a stamp up to that step: the newest such word tells it. Of an older step both may have been
/// written since.
pub fn finished_steps_are_held()
    ensures { FinishedStepsAreHeld }
{}

/// After the last finished step one of the two words of each place has such a stamp, so lawful
/// words tell the machine's whole state after it: of a processor's own places in the wide form,
/// that in which it last settled.
#[tactic(auto, using(crate::proofs::Places::last_held))]
pub fn last_finished_step_is_held()
    ensures { LastFinishedStepIsHeld }
{}

/// A record that the words bear out is faithful: what it heard from a word, or left in it, remains
/// in each later answer and in the word as it now stands, and its request words and places have
/// what the machine asks for and gives in the steps of their stamps.
#[tactic(auto, using(crate::proofs::Faithful::backed_faithful))]
pub fn backed_is_faithful()
    ensures { BackedIsFaithful }
{}

/// The answers of a sound record are faithful to those before them and to the machine, for good.
#[tactic(auto, using(crate::proofs::Faithful::sound_faithful))]
pub fn sound_is_faithful()
    ensures { SoundIsFaithful }
{}
