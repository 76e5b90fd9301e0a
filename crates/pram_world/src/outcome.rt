//! What the words of a board answer.
ghost use Rattle.std.specs.Prelude.{◌≡◌, ◌≢◌, ◌*◌, ◌<◌, length, IfOk};
ghost use Rattle.pram_step.specs.Runs.{IsAnswer, IsFault};
ghost use Rattle.pram_step.specs.declared.answer.RunAnswer.TheVariants.{Conflict as Disputed};
ghost use Rattle.pram_words.specs.Words.{length_of, places_of};
ghost use Rattle.pram_words.specs.declared.layout.Form.TheVariants.{Compact};
ghost use Rattle.pram_words.specs.declared.words.Word.TheVariants.{Asked, Stored};
ghost use Rattle.lawful_walk.specs.Board.{Stands, conflict as conflict_in, held, root};
ghost use Rattle.lawful_walk.specs.Walks.{IsConflict};
ghost use Rattle.pram_world.specs.Inner.Telling.{AreNamed, Says, last_cells, newest_payload};
ghost use Rattle.pram_world.specs.Outcomes.{IsTold};

use pram_job::Job;
use pram_machine::Request;
use pram_step::{Arrival, Cells, Fault, RunAnswer, fault_of, go_to};
use pram_words::{Form, Layout, newer_payload, stamp};
use std::alloc::{AllocError, Global};
use walkx::request_of;

pub(crate) fn answer(
    alloc: Global,
    job: &Job,
    layout: &Layout,
    words: &[u64],
) -> Result<RunAnswer, AllocError>
    requires { Stands job.now layout.now words.now }
    ensures { IfOk result (IsTold job.now layout.now words.now) }
{
    let (named, root) = glance(layout, words);
    match progress_of(job, named, root) {
        Progress::Disputed => Ok(RunAnswer::Conflict(conflict(alloc, job, layout, words)?)),
        Progress::Finished => Ok(RunAnswer::Final(cells(alloc, job, layout, words)?)),
        Progress::Going => Ok(RunAnswer::Unfinished {
            step: (root / 3) as u32,
        }),
    }
}

/// What word 0 and the root say of a run.
#[derive(Clone, Copy)]
pub enum Progress {
    Disputed,
    Finished,
    Going,
}

fn progress_of(job: &Job, named: u64, root: u64) -> Progress
    ensures { Says job.now named root result }
{
    if named != 0 {
        Progress::Disputed
    } else if root == 3 * u64::from(job.steps()) {
        Progress::Finished
    } else {
        Progress::Going
    }
}

// What each cell holds after the last step.
fn cells(alloc: Global, job: &Job, layout: &Layout, words: &[u64]) -> Result<Cells, AllocError>
    requires stands { Stands job.now layout.now words.now }
    requires clear { conflict_in layout.now words.now ≡ 0 }
    requires done { root layout.now words.now ≡ 3 * job.now.steps }
    ensures { IfOk result (λ cells. cells ≡ last_cells job.now) }
{
    let mut values = Vec::with_capacity(alloc, job.cells() as usize)?;
    for cell in 0..job.cells() {
        values.push(newest(layout, words, cell))?;
    }
    Ok(Cells::new(values))
}

// The payload of the newer of the two words of a place.
fn newest(layout: &Layout, words: &[u64], place: u32) -> u32
    requires words { length words.now ≡ length_of layout.now }
    requires place { place < places_of layout.now }
    ensures { result ≡ newest_payload layout.now words.now place }
{
    let (first, second) = place_words(layout, words, place);
    newer_payload(first, second)
}

// The two words of a place.
pub(crate) fn place_words(layout: &Layout, words: &[u64], place: u32) -> (u64, u64)
    requires words { length words.now ≡ length_of layout.now }
    requires place { place < places_of layout.now }
    ensures first { result.0 ≡ held layout.now words.now (Stored place 0) }
    ensures second { result.1 ≡ held layout.now words.now (Stored place 1) }
{
    let word = layout.place_word(place) as usize;
    (words[word], words[word + 1])
}

// The conflict that word 0 names.
fn conflict(alloc: Global, job: &Job, layout: &Layout, words: &[u64]) -> Result<Fault, AllocError>
    requires stands { Stands job.now layout.now words.now }
    requires some { conflict_in layout.now words.now ≢ 0 }
    ensures { IfOk result (λ fault. IsAnswer job.now (Disputed fault)) }
{
    let (named, _) = glance(layout, words);
    match layout.form() {
        Form::Compact => {
            let requests = requests(alloc, job, layout, words)?;
            fault_of(alloc, job, named as u32, requests.as_slice())
        }
        Form::Wide(_) => replayed(alloc, job, named as u32),
    }
}

// The conflict of a step, as the plain machine comes upon it.
fn replayed(alloc: Global, job: &Job, step: u32) -> Result<Fault, AllocError>
    requires { IsConflict job.now step }
    ensures { IfOk result (IsFault job.now) }
{
    match go_to(alloc, job, step, job.steps())? {
        Arrival::Disputed(fault) => Ok(fault),
        Arrival::Reached(_) | Arrival::TooFar => unreachable!(),
    }
}

// The requests of the step that word 0 names, which the compact form has.
fn requests(
    alloc: Global,
    job: &Job,
    layout: &Layout,
    words: &[u64],
) -> Result<Vec<Request>, AllocError>
    requires stands { Stands job.now layout.now words.now }
    requires compact { layout.now.form ≡ Compact }
    ensures each { IfOk result (λ requests. length requests.items ≡ job.now.procs) }
    ensures are { IfOk result (λ requests. AreNamed job.now layout.now words.now requests.items) }
{
    let mut requests = Vec::with_capacity(alloc, job.procs() as usize)?;
    for i in 0..job.procs() {
        let place = asked(layout, words, i, 0);
        let value = asked(layout, words, i, 1);
        let next = asked(layout, words, i, 2);
        requests.push(request_of(place, value, next))?;
    }
    Ok(requests)
}

// The word of part j of the request of processor i.
fn asked(layout: &Layout, words: &[u64], i: u32, j: u32) -> u64
    requires words { length words.now ≡ length_of layout.now }
    requires processor { i < layout.now.procs }
    requires part { j < 3 }
    ensures { result ≡ held layout.now words.now (Asked i j) }
{
    words[layout.request_word(i, j) as usize]
}

// Word 0 and the root.
fn glance(layout: &Layout, words: &[u64]) -> (u64, u64)
    requires { length words.now ≡ length_of layout.now }
    ensures conflict { result.0 ≡ conflict_in layout.now words.now }
    ensures root { result.1 ≡ root layout.now words.now }
{
    layout.limits_hold();
    let named = words[layout.conflict_word() as usize];
    let root = words[layout.node_word(1) as usize];
    (named, root)
}
