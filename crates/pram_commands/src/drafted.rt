//! Runs of a program whose steps nobody has counted.
ghost use Rattle.std.specs.Prelude.{◌≡◌, ◌*◌, false, IfErr, IfOk, IfSome};
ghost use Rattle.pram_board.specs.Stops.{StopsThere};
ghost use Rattle.pram_step.specs.Runs.{IsAnswer};
ghost use Rattle.pram_step.specs.declared.answer.RunAnswer.TheVariants.{Final};
ghost use Rattle.naming.specs.BadTexts.{IsBadOrMemory};
ghost use Rattle.naming.specs.Drafted.{IsCounted, IsDrafted};
ghost use Rattle.naming.specs.Writing.{writing};
ghost use Rattle.pardo_job.specs.Refusals.{most_steps};
ghost use Rattle.pram_commands.specs.Inner.Drafted.{HasToldDrafted, IsLongerRunOf, RanDrafted};

use crate::printing::{outcome, take_back};
use crate::sources::{Drafted, Refused};
use crate::threads::{open, run_at_pace};
use crate::why::put_told;
use command_data::{AskRun, Style};
use naming::{Naming, Spelled, Stop, counted, stopped};
use pardo_job::Draft;
use pram_board::Board;
use pram_job::Job;
use pram_run::{Bell, Listener, ReadsNothing, Shared};
use pram_step::RunAnswer;
use pram_streams::{PrintFault, Sink};
use refusals::CommandFault;
use std::alloc::{AllocError, Global};
use std::rt::Clock;
use std::sync::Wait;
use std::thread::Threads;
use stop_plan::Open;

/// How many steps a program has at most, and of all its processors together.
const MOST_STEPS: u32 = 1_048_576;

const MOST_WORK: u32 = 1_073_741_824;

/// Runs a program by workers of its plan, and prints its answer: for as many steps as a program may
/// take, since its workers are done once all its processors have stopped. After which step that
/// was the board tells; where some processor left by an index out of range, or a step is against
/// the rule, the plain machine finds the steps and the lines.
pub(crate) fn put_drafted<R: Threads + Wait + Clock + Eprint + Sync, O: Sink>(
    rt: &R,
    alloc: Global,
    ask: AskRun,
    drafted: Drafted,
    out: &mut O,
) -> Result<(Spelled, Result<RunAnswer, PrintFault>), Refused>
    requires program { IsDrafted drafted.text.items drafted.draft }
    requires output { O.has_failed out.old ≡ false }
    ensures { RanDrafted ask.style drafted (writing O.Sink out.old out.new) result }
{
    let Drafted { text, draft, plan } = drafted;
    let Ok(longer) = longest(&draft.job) else {
        return Err(out_of_memory(text));
    };
    let Ok((board, seat)) = open(alloc, &longer, plan.workers(), ask.manner.block) else {
        return Err(out_of_memory(text));
    };
    let listener = PrintingDrafted {
        alloc,
        style: ask.style,
        text,
        draft,
        longer: &longer,
        board: &board,
        out,
    };
    let bell = Bell::new();
    let shared = Shared::new(alloc, &longer, &board, &plan, &Open, &bell);
    let reader = ReadsNothing { listener };
    let (ended, (out, told)) = run_at_pace(rt, &shared, ask.manner, seat, reader);
    take_back(out);
    let (spelled, put) = told?;
    Ok((spelled, outcome(put, ended)))
}

fn out_of_memory(text: Vec<u8>) -> Refused
    ensures { result.fault ≡ CommandFault.Memory }
{
    Refused {
        fault: CommandFault::Memory,
        text,
    }
}

// The job with as many steps as are made at most to find out when a program is over.
#[tactic(auto, unfolding(pardo_job::specs::Refusals::most_steps))]
fn longest(job: &Job) -> Result<Job, AllocError>
    ensures { IfOk result (λ longer. longer ≡ record job.now { steps = most_steps job.now }) }
{
    job.limits_hold();
    let steps = MOST_STEPS.min(MOST_WORK / job.procs());
    Ok(job.try_clone()?.with_steps(steps))
}

/// Prints the answer of a drafted program to an output in a style, once its job is known. It hands
/// the output back with what came of that.
#[derive(Drop)]
struct PrintingDrafted<'a, O> {
    alloc: Global,
    style: Style,
    text: Vec<u8>,
    draft: Draft,
    longer: &'a Job,
    board: &'a Board,
    out: &'a mut O,
}

impl<'a, O: Sink> Listener for PrintingDrafted<'a, O> {
    type Heard = (
        &'a mut O,
        Result<(Spelled, Result<(), PrintFault>), Refused>,
    );

    ghost can_hear = { λ p. (O.has_failed p.out.now ≡ false) × IsDrafted p.text.items p.draft
        × (p.board.now.task.job ≡ p.longer.now)
        × (p.longer.now ≡ record p.draft.job { steps = most_steps p.draft.job }) };

    ghost hears = { λ p ended heard. (heard.0.ghost_name ≡ p.out.ghost_name)
        × HasToldDrafted p.style p.text.items p.longer.now (writing O.Sink p.out.now heard.0.now)
        ended heard.1 };

    fn hear(self, ended: &Result<RunAnswer, AllocError>) -> Self::Heard {
        let PrintingDrafted {
            alloc,
            style,
            text,
            draft,
            longer,
            board,
            out,
        } = self;
        let answer = match ended {
            Ok(RunAnswer::Unfinished { .. }) | Err(AllocError) => {
                return (out, Err(out_of_memory(text)));
            }
            Ok(answer) => answer,
        };
        match spelled_by(alloc, longer, board, text, draft) {
            Ok(spelled) => {
                let put = put_told(alloc, out, style, &spelled, answer);
                (out, Ok((spelled, put)))
            }
            Err(refused) => (out, Err(refused)),
        }
    }
}

// The text with its job as that needs to be run, by a board on which a longer one was.
fn spelled_by(
    alloc: Global,
    longer: &Job,
    board: &Board,
    text: Vec<u8>,
    draft: Draft,
) -> Result<Spelled, Refused>
    requires drafted { IsDrafted text.items draft }
    requires board { board.now.task.job ≡ longer.now }
    requires longer { longer.now ≡ record draft.job { steps = most_steps draft.job } }
    ensures ok { IfOk result (IsLongerRunOf text.items longer.now) }
    ensures refused { IfErr result (λ refused. IsBadOrMemory text.items refused.fault) }
{
    match counted_by(alloc, longer, board, text.as_slice(), draft) {
        Ok((job, naming)) => {
            // No program needs more steps than were made.
            if longer.steps() < job.steps() {
                return Err(out_of_memory(text));
            }
            let names = Some(naming);
            Ok(Spelled { text, job, names })
        }
        Err(fault) => Err(Refused { fault, text }),
    }
}

// The job with its steps: the board tells them, or the plain machine finds them.
fn counted_by(
    alloc: Global,
    longer: &Job,
    board: &Board,
    text: &[u8],
    draft: Draft,
) -> Result<(Job, Naming), CommandFault>
    requires drafted { IsDrafted text.now draft }
    requires board { board.now.task.job ≡ longer.now }
    requires longer { longer.now ≡ record draft.job { steps = longer.now.steps } }
    ensures counted { IfOk result (λ found. IsCounted text.now draft found.0 found.1) }
    ensures bad { IfErr result (IsBadOrMemory text.now) }
{
    match end_of(alloc, longer, board)? {
        Some(stop) => Ok(stopped(alloc, text, draft, stop)),
        None => counted(alloc, text, draft),
    }
}

// After which step all processors stopped, each at its end, and what the cells hold then, if the
// board tells it.
fn end_of<'a>(alloc: Global, longer: &'a Job, board: &Board) -> Result<Option<Stop<'a>>, AllocError>
    requires { board.now.task.job ≡ longer.now }
    ensures { IfOk result (λ found. IfSome found (λ stop. (stop.longer.now ≡ longer.now)
        × StopsThere longer.now stop.step × IsAnswer longer.now (Final stop.cells.items))) }
{
    let mut seat = board.new_seat();
    let progress = board.progress(&mut seat);
    if progress.conflict.is_some() || progress.step != longer.steps() {
        return Ok(None);
    }
    let cells = board.memory(alloc, &mut seat)?;
    match board.stop(&mut seat) {
        Some(step) => Ok(Some(Stop {
            longer,
            step,
            cells,
        })),
        None => Ok(None),
    }
}
