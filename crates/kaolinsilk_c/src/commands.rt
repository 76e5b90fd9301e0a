//! Calls of commands, from bytes to bytes.
ghost use Rattle.std.specs.Prelude.{◌≡◌, ◌+◌, ◌*◌, []};
ghost use Rattle.library_core.specs.Calls.{IsCall};
ghost use Rattle.library_core.specs.Cells.{AreCells, MeansNoJob};
ghost use Rattle.library_core.specs.Commands.{checking, compiling, costing_by, in_lines};
ghost use Rattle.library_core.specs.Commands.{plainly, replaying, stepping};
ghost use Rattle.library_core.specs.Judging.{IsExerciseFault, TellsVerdict};
ghost use Rattle.library_core.specs.Plans.{AreRows, IsNoPlan};
ghost use Rattle.library_core.specs.Requests.{is_set, window_of, wrong_in};
ghost use Rattle.library_core.specs.Serving.{ServesRequest};
ghost use Rattle.library_core.specs.Settings.{IsNotSet, IsTextSet};
ghost use Rattle.library_core.specs.declared.request.Call.TheVariants.{Check, Compile, Cost};
ghost use Rattle.library_core.specs.declared.request.Call.TheVariants.{Plain, Replay, Steps};

use library_core::answer::Answer;
use library_core::call::{Asked, serve_call};
use library_core::cells::tell_cells;
use library_core::judging::tell_verdict;
use library_core::plan::{PlanRow, tell_plan};
use library_core::request::{Call, Request};
use library_core::setting::tell_set;
use std::alloc::Global;

/// The version of the library, 0.9.0: 65536 times the first number, 256 times the second, and the
/// third.
#[unsafe(no_mangle)]
pub extern "C" fn ks_version() -> u32
    ensures { result ≡ 65536 * 0 + 256 * 9 + 0 }
{
    9 << 8
}

/// The version of these calls, which grows where a program that calls them has to change.
#[unsafe(no_mangle)]
pub extern "C" fn ks_abi_version() -> u32
    ensures { result ≡ 1 }
{
    1
}

/// Judges a text, and says how large its job is.
#[unsafe(no_mangle)]
pub extern "C" fn ks_check(
    alloc: Global,
    text: &[u8],
    request: &Request,
    out: &mut [u8],
    answer: &mut Answer,
) -> u32
    ensures { ServesRequest checking (wrong_in Check request.now) text.now [] out.old out.new
        answer.old
        answer.new result }
{
    let asked = Asked {
        call: Call::Check,
        text,
        plan: b"",
        request,
    };
    serve_call(alloc, &asked, out, answer)
}

/// Prints the job of a text as a text of the machine.
#[unsafe(no_mangle)]
pub extern "C" fn ks_compile(
    alloc: Global,
    text: &[u8],
    request: &Request,
    out: &mut [u8],
    answer: &mut Answer,
) -> u32
    ensures { ServesRequest compiling (wrong_in Compile request.now) text.now [] out.old out.new
        answer.old
        answer.new result }
{
    let asked = Asked {
        call: Call::Compile,
        text,
        plan: b"",
        request,
    };
    serve_call(alloc, &asked, out, answer)
}

/// Runs the job of a text step by step, processor by processor.
#[unsafe(no_mangle)]
pub extern "C" fn ks_plain(
    alloc: Global,
    text: &[u8],
    request: &Request,
    out: &mut [u8],
    answer: &mut Answer,
) -> u32
    ensures { ServesRequest (plainly (in_lines (is_set request.now.why)))
        (wrong_in Plain request.now) text.now
        []
        out.old out.new answer.old answer.new result }
{
    let asked = Asked {
        call: Call::Plain,
        text,
        plan: b"",
        request,
    };
    serve_call(alloc, &asked, out, answer)
}

/// Says what the run of a text's job costs, and which model of the PRAM it needs; or what each
/// counted line of its program costs.
#[unsafe(no_mangle)]
pub extern "C" fn ks_cost(
    alloc: Global,
    text: &[u8],
    request: &Request,
    out: &mut [u8],
    answer: &mut Answer,
) -> u32
    ensures { ServesRequest (costing_by (is_set request.now.lines)) (wrong_in Cost request.now)
        text.now [] out.old out.new answer.old answer.new result }
{
    let asked = Asked {
        call: Call::Cost,
        text,
        plan: b"",
        request,
    };
    serve_call(alloc, &asked, out, answer)
}

/// Runs the job of a text, and shows what each processor asks for in some of its steps.
#[unsafe(no_mangle)]
pub extern "C" fn ks_steps(
    alloc: Global,
    text: &[u8],
    request: &Request,
    out: &mut [u8],
    answer: &mut Answer,
) -> u32
    ensures { ServesRequest (stepping (is_set request.now.rows_alone) (window_of request.now))
        (wrong_in Steps request.now) text.now [] out.old out.new answer.old answer.new result }
{
    let asked = Asked {
        call: Call::Steps,
        text,
        plan: b"",
        request,
    };
    serve_call(alloc, &asked, out, answer)
}

/// Runs the job of a text by so many workers, one atomic step at a time, in the order of a plan.
#[unsafe(no_mangle)]
pub extern "C" fn ks_replay(
    alloc: Global,
    text: &[u8],
    plan: &[u8],
    request: &Request,
    out: &mut [u8],
    answer: &mut Answer,
) -> u32
    ensures { ServesRequest (replaying (is_set request.now.rows_alone) request.now.workers)
        (wrong_in Replay request.now) text.now plan.now out.old out.new answer.old answer.new
        result }
{
    let asked = Asked {
        call: Call::Replay,
        text,
        plan,
        request,
    };
    serve_call(alloc, &asked, out, answer)
}

/// Tells what the cells hold after the last step of a text's job.
#[unsafe(no_mangle)]
pub extern "C" fn ks_cells(
    alloc: Global,
    text: &[u8],
    cells: &mut [u32],
    answer: &mut Answer,
) -> u32
    ensures { IsCall (AreCells text.now) (MeansNoJob text.now) cells.old cells.new answer.old
        answer.new result }
{
    tell_cells(alloc, text, cells, answer)
}

/// Tells the rows of the plan that a text spells for so many workers.
#[unsafe(no_mangle)]
pub extern "C" fn ks_plan(
    alloc: Global,
    plan: &[u8],
    workers: u32,
    rows: &mut [PlanRow],
    answer: &mut Answer,
) -> u32
    ensures { IsCall (AreRows workers plan.now) (IsNoPlan workers plan.now) rows.old rows.new
        answer.old answer.new result }
{
    tell_plan(alloc, plan, workers, rows, answer)
}

/// Writes a text as another one sets constants and shared arrays and scalars of it, by lines
/// `NAME=V,V,..`. All other calls take what it writes. Each line keeps its number. If a setting is
/// refused, the answer tells its number in place of the line.
#[unsafe(no_mangle)]
pub extern "C" fn ks_set(
    alloc: Global,
    text: &[u8],
    settings: &[u8],
    out: &mut [u8],
    answer: &mut Answer,
) -> u32
    ensures { IsCall (IsTextSet text.now settings.now) (IsNotSet text.now settings.now) out.old
        out.new answer.old answer.new result }
{
    tell_set(alloc, text, settings, out, answer)
}

/// Judges a submission by an exercise, and writes one record, `yes,,` or `no,INPUT,WHAT`: whether
/// it passed, and if not, under which input, counted from 1, and what is wrong. The status is then
/// `NOT_PASSED`. If the exercise is refused, the answer tells the line of its text.
#[unsafe(no_mangle)]
pub extern "C" fn ks_judge(
    alloc: Global,
    exercise: &[u8],
    submission: &[u8],
    out: &mut [u8],
    answer: &mut Answer,
) -> u32
    ensures { IsCall (TellsVerdict exercise.now submission.now) (IsExerciseFault exercise.now)
        out.old out.new answer.old answer.new result }
{
    tell_verdict(alloc, exercise, submission, out, answer)
}
