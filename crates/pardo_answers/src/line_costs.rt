//! What the counted lines of a program cost in its run, and how many rounds its loops have.
ghost use Rattle.std.specs.Prelude.{◌≡◌, IfOk, map, sum_by};
ghost use Rattle.pardo_answers.specs.Costs.{AreSmall, operations_in, time_in};
ghost use Rattle.pardo_answers.specs.Inner.Lines.{line_by, steps_by};

use pardo_job::CountedLine;
use pram_cost::{Cost, Profile};
use std::alloc::{AllocError, Global};

/// What a counted line of a program costs in its run.
#[derive(Clone, Copy, Debug, PartialEq, Eq)]
pub struct LineCost {
    /// The number of the line in the text.
    pub line: u64,
    /// How often it is executed.
    pub times: u32,
    /// How often some processor takes part in it.
    pub time: u32,
    /// How often a processor does.
    pub operations: u64,
    /// The most processors that do at once.
    pub most: u32,
}

/// What the run of a program costs, what each of its counted lines does, and how often the `end` of
/// a loop is made.
#[derive(Drop)]
pub struct Costs {
    pub cost: Cost,
    pub lines: Vec<LineCost>,
    pub rounds: u64,
    pub ghost small: { AreSmall lines.items },
}

/// The time of a program.
pub fn total_time(lines: &[LineCost]) -> u64
    requires { AreSmall lines.now }
    ensures { result ≡ time_in lines.now }
{
    let mut time = 0;
    for line in lines {
        time += u64::from(line.time);
    }
    time
}

/// The operations of a program.
pub fn total_operations(lines: &[LineCost]) -> u64
    requires { AreSmall lines.now }
    ensures { result ≡ operations_in lines.now }
{
    let mut operations = 0;
    for line in lines {
        operations += line.operations;
    }
    operations
}

/// What the counted lines of a program cost, by how often their instructions were executed.
pub(crate) fn costs_of(
    alloc: Global,
    counted: &[CountedLine],
    profile: &Profile,
) -> Result<Vec<LineCost>, AllocError>
    ensures { IfOk result (λ lines.
        lines.items ≡ map (line_by profile.now.rows.items) counted.now) }
{
    let mut lines = Vec::with_capacity(alloc, counted.len())?;
    for line in counted {
        lines.push(cost_by(line, profile))?;
    }
    Ok(lines)
}

/// How often the `end` of a loop was made, by how often the first instructions of these were
/// executed. A number beyond 64 bits would take more lines than there is memory for.
pub(crate) fn rounds_of(ends: &[u32], profile: &Profile) -> Result<u64, AllocError>
    ensures { IfOk result (λ rounds.
        rounds ≡ sum_by (steps_by profile.now.rows.items) ends.now) }
{
    let mut rounds: u64 = 0;
    for first in ends {
        let steps = profile.at(*first as usize).steps;
        rounds = match rounds.checked_add(u64::from(steps)) {
            Some(sum) => sum,
            None => return Err(AllocError),
        };
    }
    Ok(rounds)
}

fn cost_by(counted: &CountedLine, profile: &Profile) -> LineCost
    ensures { result ≡ line_by profile.now.rows.items counted.now }
{
    let executed = profile.at(counted.own as usize);
    LineCost {
        line: counted.number,
        times: profile.at(counted.first as usize).steps,
        time: executed.steps,
        operations: executed.times,
        most: executed.most,
    }
}
