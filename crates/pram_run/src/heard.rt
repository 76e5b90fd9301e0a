//! Runs with a reader beside the workers, which hears the answer before their threads are joined.
ghost use Rattle.std.specs.Prelude.{◌≡◌, ◌⊎◌, ◌↔◌, ◌<◌, ◌≤◌, All, IfOk, IsTrue, vec_capacity};
ghost use Rattle.std.specs.Prelude.{vec_len};
ghost use Rattle.lawful_walk.specs.Seen.{BeginsWith};
ghost use Rattle.pram_run.specs.Inner.Hearing.{RunHasEnded, HasTold, IsJoined, TellsEnd, ToldEnd};
ghost use Rattle.pram_run.specs.Inner.Obeying.{IsContinued};
ghost use Rattle.pram_run.specs.Inner.Sharing.{board_of, plan_of, shared_task};
ghost use Rattle.pram_run.specs.Inner.Teams.{IsAtWork};
ghost use Rattle.pram_run.specs.Obeyed.{HasLooked};
ghost use Rattle.pram_run.specs.Running.{IsBoardFor, IsUnfinished, Tells};
ghost use Rattle.pram_run.specs.Watching.{ReadsUnlessRefused, most_waiting};
ghost use Rattle.pram_step.specs.declared.answer.RunAnswer.{RunAnswer};

use crate::ending::answer;
use crate::listener::{Listener, Reads};
use crate::runner::{Team, join_all};
use crate::shared::Shared;
use crate::sight::Sight;
use crate::stand_by::start_few;
use pram_board::Seat;
use pram_step::RunAnswer;
use std::alloc::{AllocError, Global};
use std::sync::Wait;
use std::thread;
use std::thread::{Scope, Threads};
use stop_plan::Gate;

/// Does what `run` does, with a reader beside the workers, which reads on the calling thread and
/// then hears the answer as soon as a worker knows it: before the threads are joined, though some
/// of them may be kept from going on. A thread that is refused is a worker that takes no part: the
/// reader then waits until the others come to the end. Where they do not, that is out of memory;
/// the reader hears it, and does not read. Where nobody is held or stopped and nothing is read,
/// workers beyond the machine's processors or the board's leaves take part only once the others
/// stand still.
pub fn run_heard<R: Threads + Wait, G: Gate + Sync, H, P: Reads<Heard = H>>(
    rt: &R,
    shared: &Shared<'_, G>,
    seat: Seat,
    reader: P,
) -> (Seat, Result<RunAnswer, AllocError>, H)
    requires reader { P.can_read reader }
    requires listener { P.can_hear reader }
    requires seat { seat.desk ≡ shared.now.board.now }
    ensures ran { let seen = shared.now in let task = seen.board.now.task in
        ReadsUnlessRefused task seen.plan.now seat reader
        (P.reads reader task seen.cells.now seen.rounds) P.hears result.0 result.1 result.2 }
    ensures begins { BeginsWith seat.record_of result.0.record_of }
    ensures desk { result.0.desk ≡ shared.now.board.now }
{
    let (job, board, plan) = (shared.job, shared.board, shared.plan);
    let (alloc, gate, bell) = (shared.alloc, shared.gate, shared.bell);
    let (cells, rounds, piece) = (shared.cells, shared.rounds, shared.piece);
    thread::scope(
        thread::scope_env(),
        rt,
        |scope| -> (Seat, Result<RunAnswer, AllocError>, H)
            requires within { All (λ c. c < board.now.task.job.cells) cells.now }
            requires given { IsBoardFor job.now plan.now board.now seat }
            requires reader { P.can_read reader }
            requires listener { P.can_hear reader }
            ensures ran { ReadsUnlessRefused board.entry.now.task plan.entry.now seat reader
                (P.reads reader board.entry.now.task cells.entry.now rounds)
                P.hears result.0 result.1 result.2 }
            ensures goes_on { IsContinued seat result.0 }
        {
            let shared = Shared::new(alloc, job, board, plan, gate, bell);
            run_beside(
                scope,
                rt,
                &shared.reading(cells, rounds, piece),
                seat,
                reader,
            )
        },
    )
}

/// Does what `run_heard` does, on threads of this scope.
pub fn run_beside<'s, E, R: Threads + Wait, G: Gate + Sync, H, P: Reads<Heard = H>>(
    scope: &Scope<'s, E>,
    rt: &R,
    shared: &Shared<'s, G>,
    seat: Seat,
    reader: P,
) -> (Seat, Result<RunAnswer, AllocError>, H)
    requires reader { P.can_read reader }
    requires listener { P.can_hear reader }
    requires seat { seat.desk ≡ shared.now.board.now }
    ensures ran { let seen = shared.now in let task = seen.board.now.task in
        ReadsUnlessRefused task seen.plan.now seat reader
        (P.reads reader task seen.cells.now seen.rounds) P.hears result.0 result.1 result.2 }
    ensures goes_on { IsContinued seat result.0 }
{
    let refused = Err(AllocError);
    let Ok(mut sights) = room_for_pieces(shared) else {
        let heard = reader.hear(&refused);
        return (seat, refused, heard);
    };
    let (seat, theirs) = shared.board.split(seat);
    let team = start_few(scope, rt, shared, seat);
    let (mut theirs, answers) = await_missing(rt, shared, &team, theirs);
    if !answers {
        let heard = reader.hear(&refused);
        let seat = join_beside(rt, shared, team, theirs);
        return (seat, refused, heard);
    }
    let reader = reader.read(shared, &mut theirs, &mut sights);
    hear_end(rt, shared, team, theirs, reader)
}

// An empty list with room for the reads that wait, and for a round.
fn room_for_pieces<G>(shared: &Shared<'_, G>) -> Result<Vec<Sight>, AllocError>
    ensures empty { IfOk result (λ v. vec_len v ≡ 0) }
    ensures room { IfOk result (λ v. most_waiting shared.now ≤ vec_capacity v) }
{
    let waiting = shared.piece.checked_add(shared.cells.len());
    Vec::with_capacity(shared.alloc, waiting.ok_or(AllocError)?)
}

// Where a worker is missing, looks at the board until the others have come to the end. Whether
// there is sure to be an answer.
fn await_missing<R: Wait, G>(
    rt: &R,
    shared: &Shared<'_, G>,
    team: &Team<'_>,
    seat: Seat,
) -> (Seat, bool)
    requires { seat.desk ≡ board_of shared.now }
    ensures looked { HasLooked seat result.0 }
    ensures whole { vec_len team.now.threads ≡ (plan_of shared.now).workers → result.0 ≡ seat }
    ensures answers { IsTrue result.1 → (vec_len team.now.threads ≡ (plan_of shared.now).workers)
        ⊎ ToldEnd (shared_task shared.now) result.0.record_of }
{
    if team.is_whole(shared) {
        return (seat, true);
    }
    let (seat, told) = await_end(rt, shared, team, seat);
    let ends = tells_end(&told);
    (seat, ends)
}

// Has the reader hear how the run ended, before the threads are joined if the board tells the end
// by then, and joins them all.
fn hear_end<'s, R: Threads + Wait, G: Gate + Sync, L: Listener>(
    rt: &R,
    shared: &Shared<'s, G>,
    team: Team<'s>,
    seat: Seat,
    listener: L,
) -> (Seat, Result<RunAnswer, AllocError>, L::Heard)
    requires listener { L.can_hear listener }
    requires team { IsAtWork (plan_of shared.now) team.seat team }
    requires desk { team.seat.desk ≡ board_of shared.now }
    requires seat { IsContinued team.seat seat }
    requires answers { (vec_len team.threads ≡ (plan_of shared.now).workers)
        ⊎ ToldEnd (shared_task shared.now) seat.record_of }
    ensures ended { RunHasEnded (shared_task shared.now) (plan_of shared.now) team.entry.seat
        (vec_len team.entry.threads) seat result.0 result.1 }
    ensures heard { L.hears listener result.1 result.2 }
    ensures goes_on { IsContinued team.entry.seat result.0 }
{
    let (looker, early) = await_end(rt, shared, &team, seat);
    if tells_end(&early) {
        let heard = listener.hear(&early);
        let seat = join_beside(rt, shared, team, looker);
        return (seat, early, heard);
    }
    let whole = team.is_whole(shared);
    let seat = join_beside(rt, shared, team, looker);
    let (seat, ended) = last_answer(shared, seat, whole);
    let heard = listener.hear(&ended);
    (seat, ended, heard)
}

// Looks at the board whenever a worker has left, until it tells the end, memory is refused, or all
// that were started have left.
fn await_end<R: Wait, G>(
    rt: &R,
    shared: &Shared<'_, G>,
    team: &Team<'_>,
    mut seat: Seat,
) -> (Seat, Result<RunAnswer, AllocError>)
    requires { seat.desk ≡ board_of shared.now }
    ensures told { IfOk result.1 (Tells (shared_task shared.now) result.0.record_of) }
    ensures looked { HasLooked seat result.0 }
{
    let workers = team.threads.len() as u64;
    for _ in rt.forever() {
        let all_left = shared.bell.left() >= workers;
        let told = answer(shared.alloc, shared.job, shared.board, &mut seat);
        if all_left || !may_end_yet(&told) {
            return (seat, told);
        }
        shared.bell.wait(rt);
    }
    unreachable!()
}

// Whether the board did not tell the end so far.
fn may_end_yet(told: &Result<RunAnswer, AllocError>) -> bool {
    matches!(told, Ok(RunAnswer::Unfinished { .. }))
}

/// Whether this is the job's one answer, and not how far it was seen.
fn tells_end(ended: &Result<RunAnswer, AllocError>) -> bool
    ensures { IsTrue result ↔ TellsEnd ended.now }
{
    match ended {
        Ok(RunAnswer::Unfinished { .. }) | Err(_) => false,
        Ok(_) => true,
    }
}

// Joins the threads, and then the seat that looked at the board beside them.
fn join_beside<'s, R: Threads, G: Gate + Sync>(
    rt: &R,
    shared: &Shared<'s, G>,
    team: Team<'s>,
    looker: Seat,
) -> Seat
    requires team { IsAtWork (plan_of shared.now) team.seat team }
    requires desk { team.seat.desk ≡ board_of shared.now }
    requires looker { IsContinued team.seat looker }
    ensures { IsJoined (shared_task shared.now) (plan_of shared.now) team.entry.seat looker
        (vec_len team.entry.threads) result }
{
    let seat = join_all(rt, shared, team);
    let seat = shared.board.join(seat, looker);
    seat.facts();
    seat
}

// What the board tells after the last join. Where a worker is missing, an end that was not reached
// is out of memory.
fn last_answer<G>(
    shared: &Shared<'_, G>,
    mut seat: Seat,
    all_started: bool,
) -> (Seat, Result<RunAnswer, AllocError>)
    requires { seat.desk ≡ board_of shared.now }
    ensures told { IfOk result.1 (HasTold (shared_task shared.now) seat result.0) }
    ensures looked { HasLooked seat result.0 }
    ensures all { IfOk result.1 (λ answer. IsUnfinished answer → IsTrue all_started) }
    ensures some { (answer : RunAnswer) × HasTold (shared_task shared.now) seat result.0 answer }
{
    let told = answer(shared.alloc, shared.job, shared.board, &mut seat);
    if all_started {
        return (seat, told);
    }
    if tells_end(&told) {
        return (seat, told);
    }
    (seat, Err(AllocError))
}
