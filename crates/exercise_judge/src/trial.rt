//! What a submission has to do under one input.
use exercise_text::Wanted;
use pram_cost::Pram;
use std::marker::Model;

/// The header as the input sets it, what is wanted at the end, the bars, the weakest model that is
/// allowed, whether processors may leave, and whether the input is hidden.
#[derive(Drop)]
pub struct Trial {
    pub header: Vec<u8>,
    pub wanted: Vec<Wanted>,
    pub time: Option<u32>,
    pub operations: Option<u32>,
    pub steps: Option<u32>,
    pub lines: Option<u64>,
    pub model: Option<Pram>,
    pub may_leave: bool,
    pub hidden: bool,
}

impl Model for Trial {
    ghost use Rattle.exercise_judge.specs.Trials.{TrialData};

    ghost Value = { TrialData };

    ghost view = { λ t. record {
      header = t.header.items;
      wanted = t.wanted.items;
      time = t.time;
      operations = t.operations;
      steps = t.steps;
      lines = t.lines;
      model = t.model;
      may_leave = t.may_leave;
      hidden = t.hidden;
    } };
}
