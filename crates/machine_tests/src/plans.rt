//! Plans that are read and made, and gates.
use crate::table::expect;
use std::alloc::{AllocError, Global};
use std::io;
use std::process::Abort;
use std::sync::atomic::{AtomicU64, Ordering};
use std::test::Fail;
use std::time::{Clock, Duration};
use stop_plan::{Act, Gate, Open, Paced, Plan, PlanFault, PlanKind, Row, read_plan};

// How many workers a plan has, and its rows.
fn plan_text(alloc: Global, plan: &Plan) -> Result<String, AllocError> {
    format!(in alloc; "{} {:?}", plan.workers(), plan.rows())
}

/// A plan for so many workers, or the record and the kind of its fault.
pub fn plan(alloc: Global, workers: &str, text: &str) -> Result<String, Fail> {
    Ok(match read_plan(alloc, text.as_bytes(), workers.parse()?) {
        Ok(plan) => plan_text(alloc, &plan)?,
        Err(PlanFault { row, kind }) => format!(in alloc; "{row} {kind:?}")?,
    })
}

// Plans that are read, and each kind of fault.
const PLANS: &str = "\
-- rows for so many workers
$ plan: worker,act,ticks~
4 : 4,go,1~ -> 2 BadWorker
4 : ,go,1~ -> 2 BadWorker
4 : +1,go,1~ -> 2 BadWorker
4 : 0,back,1~ -> 2 BadNumber
4 : 0,go,4294967296~ -> 2 BadNumber
4 : 0,go,99999999999999999999999~ -> 2 BadNumber
4 : 0,run,1~ -> 2 BadAct
4 : 0,Go,1~ -> 2 BadAct
4 : 9,run,x~ -> 2 BadWorker
4 : 0,go~ -> 2 BadRow
4 : 0,go,1,~ -> 2 BadRow
4 : 0,stop,0~0,go,1~ -> 3 AfterStop
4 : 0,stop,0~1,go,1~0,go,x~ -> 4 BadNumber
4 : 0,stop,0~1,stop,0~3,sleep,0~2,go,1~ \
    -> 4 [Row { worker: 0, act: Stop, ticks: 0 }, Row { worker: 1, act: Stop, ticks: 0 }, Row { \
    worker: 3, act: Sleep, ticks: 0 }, Row { worker: 2, act: Go, ticks: 1 }]
4 : 0{9999 ,0} -> 2 BadRow
0 : 0,go,1~ -> 2 BadWorker
$ plan
4 : 0,go,1~ -> 1 BadRow
4 : worker,act,tick~ -> 1 BadRow
4 : worker,act,ticks,~ -> 1 BadRow
4 : \u{feff}worker,act,ticks -> 4 []
4 :  -> 4 []
4 : \r~~ -> 4 []
3 : \u{feff}worker,act,ticks\r~\"0\",\"go\",\"0004\"\r~2,sleep,4294967295~~2,back,00~2,stop,0 \
    -> 3 [Row { worker: 0, act: Go, ticks: 4 }, Row { worker: 2, act: Sleep, ticks: 4294967295 \
    }, Row { worker: 2, act: Back, ticks: 0 }, Row { worker: 2, act: Stop, ticks: 0 }]
";

#[test]
fn plans_are_read(rt: HostRuntime) -> Result<(), Fail> {
    expect(&rt, rt.alloc(), PLANS)
}

fn row(worker: u32, act: Act, ticks: u32) -> Row {
    Row { worker, act, ticks }
}

// No plan has these rows, by the record and the kind of the fault.
fn is_refused(alloc: Global, workers: u32, rows: &[Row], row: u64, kind: PlanKind) -> bool {
    Plan::new(alloc, workers, rows).err() == Some(PlanFault { row, kind })
}

#[test]
fn plans_from_rows(rt: HostRuntime) -> Result<(), Fail> {
    let alloc = rt.alloc();
    let rows = [
        row(2, Act::Go, u32::MAX),
        row(0, Act::Sleep, 3),
        row(2, Act::Back, 0),
        row(0, Act::Stop, 0),
        row(2, Act::Go, 0),
    ];
    let plan = Plan::new(alloc, 3, &rows)?;
    assert!(rt; plan.workers() == 3 && plan.rows() == rows.as_slice());
    assert!(rt; is_refused(alloc, 2, &rows, 2, PlanKind::BadWorker));
    // The fourth row stops the worker of the second, and would be record 5 of a text.
    let late = [rows[0], rows[1], rows[2], rows[3], rows[1]];
    assert!(rt; is_refused(alloc, 3, &late, 6, PlanKind::AfterStop));
    assert!(rt; is_refused(alloc, 2, &[row(0, Act::Stop, 1)], 2, PlanKind::BadNumber));
    let empty = Plan::empty(alloc, 7);
    assert!(rt; empty.workers() == 7 && empty.rows().is_empty());
    Ok(())
}

fn pass_once<G: Gate>(gate: &G) {
    gate.pass(0, 0);
}

// A clock that stands still but for its sleeps.
#[derive(Drop)]
struct Slept {
    micros: AtomicU64,
}

impl Clock for Slept {
    fn monotonic(&self) -> io::Result<Duration> {
        Ok(Duration::from_micros(self.micros.load(Ordering::SeqCst)))
    }

    fn since_1970(&self) -> io::Result<Duration> {
        self.monotonic()
    }

    fn sleep(&self, duration: Duration) {
        let micros = u64::try_from(duration.as_micros()).unwrap_or(u64::MAX);
        self.micros.fetch_add(micros, Ordering::SeqCst);
    }
}

#[test]
fn each_pass_of_a_paced_gate_takes_its_pause(rt: HostRuntime) -> Result<(), Fail> {
    let clock = Slept {
        micros: AtomicU64::new(0),
    };
    pass_once(&Open);
    let gate = Paced::new(&clock, Duration::from_micros(250));
    assert!(rt; gate.pause() == Duration::from_micros(250));
    for _ in 0..3 {
        pass_once(&gate);
    }
    assert!(rt; clock.monotonic()? == Duration::from_micros(750));
    Ok(())
}
