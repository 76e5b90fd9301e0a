//! The models of the PRAM.
ghost use Rattle.std.specs.Prelude.{◌≡◌};
ghost use Rattle.pram_cost.specs.Beyond.{model_named};
ghost use Rattle.pram_cost.specs.Printed.{name_of};

/// A model of the PRAM. Each accepts what those before it accept.
#[derive(Clone, Copy, Debug, PartialEq, Eq)]
pub enum Pram {
    /// In a step no two processors read one cell, and no two write one.
    Erew,
    /// In a step no two processors write one cell.
    Crew,
    /// In a step no two processors write different values to one cell.
    CommonCrcw,
    /// Any step. Of several processors that write one cell the least one's value counts.
    PriorityCrcw,
}

impl Pram {
    /// The model that a word names: `EREW` or `CREW`, in capitals or without, `common`, `priority`.
    pub fn named(word: &str) -> Option<Pram>
        ensures { result ≡ model_named word.now }
    {
        if word == "EREW" || word == "erew" {
            Some(Pram::Erew)
        } else if word == "CREW" || word == "crew" {
            Some(Pram::Crew)
        } else if word == "common" {
            Some(Pram::CommonCrcw)
        } else if word == "priority" {
            Some(Pram::PriorityCrcw)
        } else {
            None
        }
    }

    /// The model's name.
    pub fn name(self) -> &'static str
        ensures { result.now ≡ name_of self }
    {
        match self {
            Pram::Erew => "EREW",
            Pram::Crew => "CREW",
            Pram::CommonCrcw => "CRCW common",
            Pram::PriorityCrcw => "CRCW priority",
        }
    }
}
