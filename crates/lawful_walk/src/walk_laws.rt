//! Laws of workers and readers: each function here does nothing, and its contract is the law.
ghost use Rattle.lawful_walk.specs.WalkLaws.{WorkersKeepWordsLawful, LateWorkersChangeNothing};
ghost use Rattle.lawful_walk.specs.WalkLaws.{KnownWorkersStayKnown, HistoriesAreKept};
ghost use Rattle.lawful_walk.specs.WalkLaws.{RecordedStepsAreBounded, EndsAreTrue};
ghost use Rattle.lawful_walk.specs.WalkLaws.{RecordsOutliveGrowth, LoadsKeepRecords};
ghost use Rattle.lawful_walk.specs.WalkLaws.{BackedRecordsAreSound, KnownStepsAreReached};
ghost use Rattle.lawful_walk.specs.WalkLaws.{KnownStepsLast};
ghost use Rattle.lawful_walk.specs.WalkLaws.{ReadsAreLawful, ProgressIsTrue};
ghost use Rattle.lawful_walk.specs.WalkLaws.{FinalValuesAreHeld, ConflictRequestsAreHeld};

/// Whatever a worker that a record knows does next, lawful words stay lawful and grow, and bear out
/// the record with this step.
pub fn worker_keeps_words_lawful()
    ensures { WorkersKeepWordsLawful }
{}

/// A late worker, whose phase is at most the root, changes no word but its own position, and in the
/// wide form marks, which rise.
#[tactic(auto, using(crate::proofs::Staying::late_changes_nothing))]
pub fn late_worker_changes_nothing()
    ensures { LateWorkersChangeNothing }
{}

/// A worker that hears what lawful words answer still fits the job, and the record with this step
/// knows it, and whomever it knew.
pub fn known_workers_stay_known()
    ensures { KnownWorkersStayKnown }
{}

/// A record that knew a worker, and has its steps since, has all that the worker has heard.
#[tactic(auto, using(crate::proofs::Bounding::history_known))]
pub fn histories_are_kept()
    ensures { HistoriesAreKept }
{}

/// A worker that is still going has made fewer than 300 L T + 8 steps, L being the least power of
/// two that is at least the number of processors and T the steps of the job, whatever other workers
/// do.
#[tactic(auto, using(crate::proofs::Sounding::sound_steps))]
pub fn own_steps_are_bounded()
    ensures { RecordedStepsAreBounded }
{}

/// A worker that is over tells the truth: the last step is reached, or the step that it names is
/// the first conflict.
#[tactic(auto, using(crate::proofs::Sounding::sound_ends))]
pub fn ends_are_true()
    ensures { EndsAreTrue }
{}

/// A record that the words bear out is borne out by whatever they grow to, and so it is joined with
/// another one.
#[tactic(auto, using(crate::proofs::Staying::records_outlive))]
pub fn records_outlive_growth()
    ensures { RecordsOutliveGrowth }
{}

/// A record that lawful words bear out is borne out with a load of any word, too.
#[tactic(auto, using(crate::proofs::Staying::loads_keep))]
pub fn loads_keep_records()
    ensures { LoadsKeepRecords }
{}

/// A record that lawful words bear out is sound, for good.
#[tactic(auto, using(crate::proofs::Sounding::sound_of))]
pub fn backed_records_are_sound()
    ensures { BackedRecordsAreSound }
{}

/// A step that a sound record knows is reached: no step up to it is a conflict.
pub fn known_steps_are_reached()
    ensures { KnownStepsAreReached }
{}

/// A step that a record knows stays finished while the words grow, and known while the record does.
pub fn known_steps_last()
    ensures { KnownStepsLast }
{}

/// A read makes at most five loads, and its answer is what the cell held after a step that is
/// reached, none that was known before being later.
pub fn reads_are_lawful()
    ensures { ReadsAreLawful }
{}

/// A load of the root and then one of word 0 show a step that is reached, none that was known
/// before being later, and name no conflict but the first.
pub fn progress_is_true()
    ensures { ProgressIsTrue }
{}

/// Where the last step is known, the newer of a place's two words, loaded one after the other,
/// tells what the place holds in the end, or of a processor's own place in the wide form what it
/// held when the processor last settled.
pub fn final_values_are_held()
    ensures { FinalValuesAreHeld }
{}

/// Where word 0 was heard as a step, a request word of the compact form has its part of the request
/// that its processor makes in that step.
pub fn conflict_requests_are_held()
    ensures { ConflictRequestsAreHeld }
{}
