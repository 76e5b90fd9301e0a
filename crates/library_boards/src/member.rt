//! Whoever takes part in the work on a board.
ghost use Rattle.std.specs.Prelude.{◌≡◌};
ghost use Rattle.library_boards.specs.Members.{limit_of};

use crate::job::{OpenFault, job_of, uncounted_job_of};
use crate::shared::{Shared, new_board};
use pram_board::{Progress, Seat, Stay};
use pram_job::Job;
use pram_step::Fault;
use std::alloc::{AllocError, Global};
use std::sync::Arc;
use stop_plan::Open;
use walkx::{Reading, Worker};

/// A reader or a worker at a board, with a seat of its own. All members of a board keep it alive.
#[derive(Drop)]
pub struct Member {
    pub shared: Arc<Shared, Global>,
    pub seat: Seat,
    pub worker: Option<Worker>,
}

impl Member {
    ghost use Rattle.std.specs.Prelude.{◌<◌, ◌≤◌, IfErr, IfNone, IfOk, IfSome};
    ghost use Rattle.pram_board.specs.Seats.{HasSeen, KnowsConflict, Progressed, WasRead};
    ghost use Rattle.library_boards.specs.Grains.{IsGrainAsked};
    ghost use Rattle.library_boards.specs.Jobs.{IsJobOf, IsNoJob, IsUncountedJobOf};
    ghost use Rattle.pram_board.specs.Stops.{StopsThere};
    ghost use Rattle.library_boards.specs.Members.{MemberGoesOn, IsBack, IsKnownFault};
    ghost use Rattle.library_boards.specs.Members.{IsLastMemory};
    ghost use Rattle.library_boards.specs.Members.{IsMember, IsOpenedAt, IsOpenedFor, IsReaderAt};
    ghost use Rattle.library_boards.specs.Members.{IsMembersWork, by_limit, by_turns};
    ghost use Rattle.library_boards.specs.Members.{IsWorkerAt, NoStopIsKnown, NoneIsKnown};
    ghost use Rattle.library_boards.specs.Members.{StepsAreLeft, job_at, shared_at, member_task};

    /// A reader at a new board for the job of a text, and so many workers. A leaf stands for so
    /// many processors; at 0 the board chooses.
    #[tactic(auto, using(crate::proofs::Seated::opened_for))]
    pub fn open(alloc: Global, text: &[u8], workers: u32, grain: u32) -> Result<Member, OpenFault>
        requires some { 1 ≤ workers }
        requires most { workers ≤ 64 }
        requires grain { IsGrainAsked grain }
        ensures opened { IfOk result (IsOpenedFor (IsJobOf text.now) workers grain) }
        ensures none { IfErr result (IsNoJob text.now) }
    {
        let job = job_of(alloc, text)?;
        Ok(Member::of_job(alloc, &job, workers, grain)?)
    }

    /// The same, where a program has as many steps as one may take: it is not run. Its workers are
    /// done once all its processors have stopped, and `stop` tells after which step that was.
    #[tactic(auto, using(crate::proofs::Seated::opened_for))]
    pub fn open_uncounted(
        alloc: Global,
        text: &[u8],
        workers: u32,
        grain: u32,
    ) -> Result<Member, OpenFault>
        requires some { 1 ≤ workers }
        requires most { workers ≤ 64 }
        requires grain { IsGrainAsked grain }
        ensures opened { IfOk result (IsOpenedFor (IsUncountedJobOf text.now) workers grain) }
        ensures none { IfErr result (IsNoJob text.now) }
    {
        let job = uncounted_job_of(alloc, text)?;
        Ok(Member::of_job(alloc, &job, workers, grain)?)
    }

    // A reader at a new board for a job.
    pub(crate) fn of_job(
        alloc: Global,
        job: &Job,
        workers: u32,
        grain: u32,
    ) -> Result<Member, AllocError>
        requires some { 1 ≤ workers }
        requires most { workers ≤ 64 }
        requires grain { IsGrainAsked grain }
        ensures { IfOk result (IsOpenedAt job.now workers grain) }
    {
        let (board, seat) = new_board(alloc, job, workers, grain)?;
        let shared = Shared {
            board,
            workers,
            cells: job.cells(),
            steps: job.steps(),
        };
        match Arc::new(alloc, shared) {
            Ok(shared) => Ok(Member {
                shared,
                seat,
                worker: None,
            }),
            Err(_) => Err(AllocError),
        }
    }

    /// A reader at the same board. It fails where there are too many members.
    pub fn reader(&self) -> Result<Member, AllocError>
        ensures { IfOk result (IsReaderAt (shared_at self.now)) }
    {
        let seat = self.shared.board.new_seat();
        Ok(Member {
            shared: Arc::try_clone(&self.shared)?,
            seat,
            worker: None,
        })
    }

    /// A worker at the same board, at its first leaf, with a memory if there is room for one. It
    /// fails where there are too many members.
    pub fn worker(&self, alloc: Global, number: u32) -> Result<Member, AllocError>
        requires { number < (shared_at self.now).workers }
        ensures { IfOk result (IsWorkerAt (shared_at self.now) number) }
    {
        let seat = self.shared.board.new_seat();
        let memory = self.shared.board.worker_memory(alloc);
        Ok(Member {
            shared: Arc::try_clone(&self.shared)?,
            seat,
            worker: Some(Worker::start_with(number, memory)),
        })
    }

    /// Makes at most so many atomic steps of the worker, or all that are left if the limit is the
    /// greatest number, and says how that ended; nothing where there is no worker.
    pub fn work(&mut self, limit: u64) -> Option<Stay>
        requires { IsMember self.old }
        ensures { IsMembersWork (by_limit limit) self.old self.new result }
    {
        match &mut self.worker {
            None => None,
            Some(worker) => {
                let board = &self.shared.board;
                Some(board.work(&mut self.seat, worker, &Open, limit_of(limit)))
            }
        }
    }

    /// Goes on by whole turns, at full speed, until the worker is over or has made at least so many
    /// atomic steps, and says how that ended; nothing where there is no worker.
    pub fn turns(&mut self, least: u64) -> Option<Stay>
        requires { IsMember self.old }
        ensures { IsMembersWork (by_turns least) self.old self.new result }
    {
        match &mut self.worker {
            None => None,
            Some(worker) => {
                let board = &self.shared.board;
                Some(board.work_turns(&mut self.seat, worker, &Open, least))
            }
        }
    }

    /// The worker, if there is one, loses all that it knew, and comes back: it will stand where its
    /// position word says, with an empty memory if there is room for one. Says whether there is
    /// one.
    pub fn back(&mut self, alloc: Global) -> bool
        requires { IsMember self.old }
        ensures { IsBack self.old self.new result }
    {
        match &self.worker {
            None => false,
            Some(worker) => {
                let memory = self.shared.board.worker_memory(alloc);
                self.worker = Some(Worker::back_with(worker.number(), memory));
                true
            }
        }
    }

    /// How far the steps are finished. It is no step below those that the member has seen.
    pub fn progress(&mut self) -> Progress
        requires { IsMember self.old }
        ensures progressed { Progressed (member_task self.old) self.old.seat self.new.seat result }
        ensures knows { HasSeen (member_task self.old).layout self.new.seat.record_of result.step }
        ensures conflict { IfSome result.conflict
            (λ step. KnowsConflict (member_task self.old).layout
            self.new.seat.record_of) }
        ensures goes_on { MemberGoesOn self.old self.new }
    {
        self.shared.board.progress(&mut self.seat)
    }

    /// What a cell held after a step, which is no step below those that the member has seen.
    pub fn read(&mut self, cell: u32) -> Reading
        requires member { IsMember self.old }
        requires cell { cell < (shared_at self.old).cells }
        ensures read { WasRead (member_task self.old) self.old.seat self.new.seat cell result }
        ensures goes_on { MemberGoesOn self.old self.new }
    {
        self.shared.board.read(&mut self.seat, cell)
    }

    /// What each cell holds after the last step, if it is known to be finished.
    pub fn memory(&mut self, alloc: Global) -> Result<Option<Vec<u32>>, AllocError>
        requires { IsMember self.old }
        ensures cells { IfOk result (λ found. IfSome found
            (λ cells. IsLastMemory self.old self.new cells.items)) }
        ensures left { IfOk result (λ found. IfNone found (StepsAreLeft self.old self.new)) }
        ensures goes_on { MemberGoesOn self.old self.new }
    {
        if self.progress().step != self.shared.steps {
            return Ok(None);
        }
        Ok(Some(self.shared.board.memory(alloc, &mut self.seat)?))
    }

    /// After which step all processors had stopped, each at its end, if the board tells that: it
    /// does once the last step is known to be finished, unless one left by an index out of range.
    pub fn stop(&mut self) -> Option<u32>
        requires { IsMember self.old }
        ensures stops { IfSome result (StopsThere (job_at self.old)) }
        ensures none { IfNone result (NoStopIsKnown self.old self.new) }
        ensures goes_on { MemberGoesOn self.old self.new }
    {
        if self.progress().step != self.shared.steps {
            return None;
        }
        self.shared.board.stop(&mut self.seat)
    }

    /// The first step that is against the rule, and who disputes what in it, if one is known.
    pub fn fault(&mut self, alloc: Global) -> Result<Option<Fault>, AllocError>
        requires { IsMember self.old }
        ensures fault { IfOk result (λ found. IfSome found (IsKnownFault self.old self.new)) }
        ensures none { IfOk result (λ found. IfNone found (NoneIsKnown self.old self.new)) }
        ensures goes_on { MemberGoesOn self.old self.new }
    {
        if self.progress().conflict.is_none() {
            return Ok(None);
        }
        Ok(Some(self.shared.board.fault(alloc, &mut self.seat)?))
    }
}

// A worker without a limit plays whole turns as straight code, in about a tenth of the time.
fn limit_of(limit: u64) -> Option<u64>
    ensures { result ≡ limit_of limit }
{
    if limit == u64::MAX {
        return None;
    }
    Some(limit)
}
