//! Workers beyond the machine's processors or the board's leaves: they take part where the others
//! stand still.
ghost use Rattle.std.specs.Prelude.{◌≡◌, ◌≤◌, IsTrue, []};
ghost use Rattle.pram_run.specs.Inner.Sharing.{board_of, plan_of};
ghost use Rattle.pram_run.specs.Inner.Teams.{IsAtWork};

use crate::runner::{Team, start_to};
use crate::shared::Shared;
use pram_board::Seat;
use std::sync::Wait;
use std::thread;
use std::thread::{Scope, Threads};
use std::time::Duration;
use stop_plan::Gate;

// How long the first ones may stand still before the others take part, in milliseconds.
const STILL: u64 = 20;

/// Starts threads for as many workers as the machine has processors and the board has leaves, and
/// for the others where these stand still: threads that take turns on a processor, or at a leaf,
/// forget each other's blocks, and each has a memory of its own. Where a worker is held or stopped,
/// or a reader reads, all start at once.
pub(crate) fn start_few<'s, E, R: Threads + Wait, G: Gate + Sync>(
    scope: &Scope<'s, E>,
    rt: &R,
    shared: &Shared<'s, G>,
    seat: Seat,
) -> Team<'s>
    requires { seat.desk ≡ board_of shared.now }
    ensures { IsAtWork (plan_of shared.now) seat result }
{
    let all = shared.plan.workers();
    let few = if is_free(shared) {
        first_ones(rt, shared)
    } else {
        all
    };
    let team = start_to(scope, shared, Team::new(shared, seat), few);
    if few == all || stand_by(rt, shared) {
        team
    } else {
        start_to(scope, shared, team, all)
    }
}

// Whether nobody is held or stopped, and nothing is read.
fn is_free<G: Gate>(shared: &Shared<'_, G>) -> bool
    ensures plan { IsTrue result → (plan_of shared.now).rows ≡ [] }
    ensures reads { IsTrue result → shared.now.rounds ≡ 0 }
{
    shared.gate.is_open() && shared.plan.rows().is_empty() && shared.rounds == 0
}

// How many workers start at once where all are free: no more than there are processors or leaves.
fn first_ones<R: Threads, G>(rt: &R, shared: &Shared<'_, G>) -> u32
    ensures some { 1 ≤ result }
    ensures workers { result ≤ (plan_of shared.now).workers }
    ensures leaves { result ≤ (board_of shared.now).task.layout.leaves }
{
    shared.board.facts();
    let most = shared.plan.workers().min(shared.board.leaves());
    match thread::available_parallelism(rt) {
        Ok(count) => count.get().min(most as usize) as u32,
        Err(_) => most,
    }
}

// Waits until a worker leaves, or none gets on for a while: whether the job is over.
fn stand_by<R: Wait, G>(rt: &R, shared: &Shared<'_, G>) -> bool {
    for _ in rt.forever() {
        let mut seat = shared.board.new_seat();
        let before = shared.board.hint(&mut seat);
        shared.bell.wait_for(rt, Duration::from_millis(STILL));
        if 0 < shared.bell.left() || shared.board.hint(&mut seat) == before {
            return shared.bell.is_over();
        }
    }
    unreachable!()
}
