//! A replay by the random plan of a seed.
ghost use Rattle.std.specs.Prelude.{◌≡◌, Some, IfOk, IfSome, false, map, option_map, string_bytes};
ghost use Rattle.command_data.specs.declared.line.Ask.TheVariants.{Alone};
ghost use Rattle.naming.specs.Writing.{writing};
ghost use Rattle.pram_commands.specs.Files.{MayFail};
ghost use Rattle.command_answers.specs.Random.{AnswersByPlan, ServesByPlan, TellsPlan};
ghost use Rattle.command_answers.specs.Random.{random_text};

use crate::setting::set_text;
use command_line::Asked;
use pram_commands::{
    Ask, AskAlone, Bytes, Console, Explanation, Folder, Line, Reasons, Sources, do_alone,
    tell_unset,
};
use pram_streams::{Reason, Sink, Source, put};
use refusals::tell_fault;
use std::alloc::{AllocError, Global};
use stop_plan::{plan_text, random_rows};

/// A replay, and the text of the random plan that it follows.
#[derive(Drop)]
pub(crate) struct Random {
    pub ask: AskAlone,
    pub plan: String,
}

/// The replay by a random plan that is asked for, if one is.
pub(crate) fn random_of(alloc: Global, asked: &Asked<'_>) -> Result<Option<Random>, AllocError>
    ensures text { IfOk result (λ random. option_map (λ r. string_bytes r.plan) random
        ≡ random_text asked.now.line.ask asked.now.random) }
    ensures ask { IfOk result (λ random. IfSome random (λ r. asked.now.line.ask ≡ Alone r.ask)) }
{
    let Some(seed) = asked.random else {
        return Ok(None);
    };
    let Ask::Alone(AskAlone::Replay { workers, alone }) = asked.line.ask else {
        return Ok(None);
    };
    let rows = random_rows(alloc, workers.count, seed)?;
    Ok(Some(Random {
        ask: AskAlone::Replay { workers, alone },
        plan: plan_text(alloc, rows.as_slice())?,
    }))
}

/// Does a replay by its random plan, with the text of the line's file as these words set names.
pub(crate) fn answer_by_plan<'a, F: Folder, O: Sink, E: Sink>(
    alloc: Global,
    folder: &F,
    line: &Line<'a>,
    settings: &[&'a str],
    random: &Random,
    console: &mut Console<O, E>,
) -> u8
    requires alone { line.now.ask ≡ Alone random.now.ask }
    requires out { O.has_failed console.old.out ≡ false }
    requires err { E.has_failed console.old.err ≡ false }
    ensures { AnswersByPlan (F.holds folder.now) (MayFail F.File.Source) line.now
        (map (λ word. word.now) settings.now) (string_bytes random.now.plan)
        (writing O.Sink console.old.out console.new.out) result }
{
    match settings {
        [] => serve_by_plan(alloc, line, folder.open(line.file), random, console),
        given => match set_text(alloc, folder, line.file, given) {
            Ok(text) => {
                let job = Bytes::new(text.as_slice());
                serve_by_plan(alloc, line, job, random, console)
            }
            Err(unset) => tell_unset(alloc, &unset, console.explains, &mut console.err),
        },
    }
}

// Does a replay by its random plan, and tells the plan on standard error once it was made.
fn serve_by_plan<J: Source + Drop, O: Sink, E: Sink>(
    alloc: Global,
    line: &Line<'_>,
    job: J,
    random: &Random,
    console: &mut Console<O, E>,
) -> u8
    requires alone { line.now.ask ≡ Alone random.now.ask }
    requires job { J.has_failed job ≡ false }
    requires out { O.has_failed console.old.out ≡ false }
    requires err { E.has_failed console.old.err ≡ false }
    ensures served { ServesByPlan (λ bytes. bytes ≡ J.remaining job) (MayFail J.Source)
        line.now (string_bytes random.now.plan)
        (writing O.Sink console.old.out console.new.out) result }
    ensures told { TellsPlan (string_bytes random.now.plan)
        (writing E.Sink console.old.err console.new.err) result }
{
    let plan = random.plan.as_bytes();
    let mut sources = Sources {
        job,
        plan: Bytes::new(plan),
        text: None,
        unplanned: false,
    };
    match do_alone(alloc, random.ask, &mut sources, &mut console.out) {
        Ok(status) => {
            let _ = put(&mut console.err, plan);
            status
        }
        Err(fault) => {
            let explanation = Explanation {
                line: *line,
                fault,
                reasons: Reasons {
                    job: sources.job.reason(),
                    plan: Reason::Unknown,
                },
                text: match &sources.text {
                    Some(text) => text.as_slice(),
                    None => b"",
                },
            };
            let look = if console.explains {
                Some(console.look)
            } else {
                None
            };
            tell_fault(alloc, &explanation, look, &mut console.err)
        }
    }
}
