//! Replays of random plans: what is told is the plan that was followed.
use crate::table::{AMPLE, Answered, Room, Shelf, answer};
use std::alloc::{AllocError, Global};
use std::process::Abort;
use std::rt::Clock;
use std::sync::Wait;
use std::test::Fail;
use std::thread::Threads;

const JOB: &[u8] = b"pram 1\ncells 5\nprocs 4\nsteps 5\ninit 1 1\ninit 3 1\ncode\n\
    pid r0\nld r1 r0\njz r1 end\nset r2 4\nst r2 r1\nend: halt\n";

/// The plan of seed 7 for two workers.
const PLAN: &[u8] = b"worker,act,ticks\n0,stop,0\n1,sleep,508\n1,back,0\n1,go,755\n1,go,473\n\
    1,go,498\n1,go,998\n";

// What is answered to words, over this plan.
fn answered<R: Threads + Wait + Clock + Eprint + Sync>(
    rt: &R,
    alloc: Global,
    words: &str,
    plan: &[u8],
    room: Room,
) -> Result<Answered, AllocError> {
    answer(rt, alloc, &Shelf { job: JOB, plan }, words, room)
}

#[test]
fn a_random_plan_is_told(rt: HostRuntime) -> Result<(), Fail> {
    let words = "pramx replay job --workers 2 --random 7";
    let told = answered(&rt, rt.alloc(), words, b"", AMPLE)?;
    assert!(rt; told.status == 0 && told.err.as_slice() == PLAN);
    assert!(rt;
        told.out
            .as_slice()
            .ends_with(b"done steps=5\n0: 0\n1: 1\n2: 0\n3: 1\n4: 1\n")
    );
    Ok(())
}

#[test]
fn a_plan_that_was_told_gives_the_same_replay(rt: HostRuntime) -> Result<(), Fail> {
    let alloc = rt.alloc();
    for rows in ["", " --csv"] {
        let words = format!(in alloc; "pramx replay job --workers 3 --random 8{rows}")?;
        let told = answered(&rt, alloc, words.as_str(), b"", AMPLE)?;
        let words = format!(in alloc; "pramx replay job --workers 3 --plan plan{rows}")?;
        let again = answered(&rt, alloc, words.as_str(), told.err.as_slice(), AMPLE)?;
        assert!(rt; again.status == told.status && again.err.is_empty());
        assert!(rt; again.out.as_slice() == told.out.as_slice());
    }
    Ok(())
}

#[test]
fn seeds_differ(rt: HostRuntime) -> Result<(), Fail> {
    let alloc = rt.alloc();
    let one = "pramx replay job --workers 3 --random 0";
    let other = "pramx replay job --workers 3 --random 4294967295";
    let one = answered(&rt, alloc, one, b"", AMPLE)?;
    let other = answered(&rt, alloc, other, b"", AMPLE)?;
    assert!(rt; one.err.as_slice() != other.err.as_slice());
    assert!(rt; one.out.as_slice() != other.out.as_slice());
    Ok(())
}

#[test]
fn the_status_stays_where_no_plan_can_be_told(rt: HostRuntime) -> Result<(), Fail> {
    let room = Room { err: 20, ..AMPLE };
    let words = "pramx replay job --workers 2 --random 7";
    let told = answered(&rt, rt.alloc(), words, b"", room)?;
    assert!(rt; told.status == 0 && told.err.as_slice() == &PLAN[..20]);
    Ok(())
}
