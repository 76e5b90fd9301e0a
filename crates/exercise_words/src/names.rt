//! The names of what is wrong with an exercise.
use exercise_judge::{ExerciseKind, UnfitKind};

/// The name of what is wrong with a text that is no exercise.
pub fn fault_name(kind: ExerciseKind) -> &'static str {
    match kind {
        ExerciseKind::NotAscii => "NotAscii",
        ExerciseKind::BadHeader => "BadHeader",
        ExerciseKind::UnknownKey => "UnknownKey",
        ExerciseKind::BadLine => "BadLine",
        ExerciseKind::Duplicate => "Duplicate",
        ExerciseKind::Missing(_) => "Missing",
        ExerciseKind::NoAnswer => "NoAnswer",
        ExerciseKind::Memory => "Memory",
    }
}

/// The name of what is wrong with an input that nothing can be judged by.
pub fn unfit_name(kind: &UnfitKind) -> &'static str {
    match kind {
        UnfitKind::Given(_) => "Given",
        UnfitKind::Answer(_) => "Answer",
        UnfitKind::Bar(_) => "Bar",
        UnfitKind::Reference(_) => "Reference",
        UnfitKind::Conflict => "Conflict",
        UnfitKind::Unknown(_) => "Unknown",
        UnfitKind::Contradiction => "Contradiction",
        UnfitKind::Memory => "Memory",
    }
}
