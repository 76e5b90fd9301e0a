//! Words of boards, worked out by hand.
ghost use Rattle.std.specs.Prelude.{◌≡◌, ◌≤◌};
ghost use Rattle.pram_words.specs.Words.{has_claims};

use crate::table::expect;
use pram_job::{Job, Rule};
use pram_text::read_job;
use pram_words::{
    Form, Kind, Layout, first_leaf, goes_right, height, kind_of, leaves, left, parent, payload,
    phase, right, stamp, stamped, step_of,
};
use std::alloc::{AllocError, Global};
use std::test::Fail;

// The layout of a job's board for so many workers: compact, or wide with blocks of one processor,
// of four, or of 64.
fn layout_of(job: &Job, form: &str, workers: u32) -> Layout
    requires some { 1 ≤ workers }
    requires most { workers ≤ 64 }
    ensures cells { result.cells ≡ job.now.cells }
    ensures procs { result.procs ≡ job.now.procs }
    ensures claims { result.claims ≡ has_claims job.now.rule }
{
    match form {
        "ones" => Layout::with_blocks(job, workers, 1),
        "fours" => Layout::with_blocks(job, workers, 4),
        "wide" => Layout::wide(job, workers),
        _ => Layout::new(job, workers),
    }
}

// What is said of a question that has no answer.
const NONE: u64 = u64::MAX;

// The first word of a place.
fn place(job: &Job, layout: &Layout, place: u32) -> u64
    requires cells { layout.now.cells ≡ job.now.cells }
    requires procs { layout.now.procs ≡ job.now.procs }
{
    let places = u64::from(job.cells()) + 5 * u64::from(job.procs());
    if u64::from(place) < places {
        u64::from(layout.place_word(place))
    } else {
        NONE
    }
}

// The claim word of a cell.
fn claim(job: &Job, layout: &Layout, cell: u32) -> u64
    requires cells { layout.now.cells ≡ job.now.cells }
    requires claims { layout.now.claims ≡ has_claims job.now.rule }
{
    if cell >= job.cells() {
        return NONE;
    }
    match job.rule() {
        Rule::Common => NONE,
        Rule::Priority | Rule::Crew => u64::from(layout.claim_word(cell)),
    }
}

// The word of a node.
fn node(layout: &Layout, node: u32) -> u64 {
    if 1 <= node && u64::from(node) < 2 * u64::from(layout.leaves()) {
        u64::from(layout.node_word(node))
    } else {
        NONE
    }
}

// The word of a part of a processor's request.
fn request(layout: &Layout, processor: u32, part: u32) -> u64 {
    if processor < layout.procs() && part < 3 {
        u64::from(layout.request_word(processor, part))
    } else {
        NONE
    }
}

// The word of a worker's position.
fn position(layout: &Layout, worker: u32) -> u64 {
    if worker < layout.workers() {
        u64::from(layout.position_word(worker))
    } else {
        NONE
    }
}

// Whether a worker goes to the right at a node.
fn turn(layout: &Layout, worker: u32, node: u32) -> u64 {
    if node < 1 || layout.leaves() <= node {
        NONE
    } else if layout.goes_right(worker, node) {
        1
    } else {
        0
    }
}

// What a word starts with.
fn start(job: &Job, layout: &Layout, number: u32) -> u64 {
    if number < layout.length() {
        layout.start_word(job, number)
    } else {
        NONE
    }
}

// A size of a layout.
fn size(layout: &Layout, name: &str) -> u32 {
    match name {
        "leaves" => layout.leaves(),
        "length" => layout.length(),
        "workers" => layout.workers(),
        "conflict" => layout.conflict_word(),
        "wide" => match layout.form() {
            Form::Compact => 0,
            Form::Wide(grain) => grain,
        },
        _ => layout.grain(),
    }
}

// A question: its name, and up to two numbers.
#[derive(Clone, Copy)]
struct Question<'a> {
    name: &'a str,
    number: u32,
    value: u64,
}

// The answer to a question, if it is a number.
fn number(job: &Job, layout: &Layout, question: Question<'_>) -> u64
    requires cells { layout.now.cells ≡ job.now.cells }
    requires procs { layout.now.procs ≡ job.now.procs }
    requires claims { layout.now.claims ≡ has_claims job.now.rule }
{
    let (number, value) = (question.number, question.value);
    let part = u32::try_from(value).unwrap_or(0);
    match question.name {
        "place" => place(job, layout, number),
        "claim" => claim(job, layout, number),
        "node" => node(layout, number),
        "request" => request(layout, number, part),
        "position" => position(layout, number),
        "leaf" => u64::from(layout.first_leaf(number)),
        "right" => turn(layout, number, part),
        "start" => start(job, layout, number),
        "admits" => if layout.admits(job, number, value) {
            1
        } else {
            0
        },
        name => u64::from(size(layout, name)),
    }
}

fn question_of(text: &str) -> Question<'_> {
    let (name, numbers) = text.split_once(' ').unwrap_or((text, ""));
    let (number, value) = numbers.split_once(' ').unwrap_or((numbers, ""));
    Question {
        name,
        number: number.parse().unwrap_or(0),
        value: value.parse().unwrap_or(0),
    }
}

// The answer to a question.
fn answer(alloc: Global, job: &Job, layout: &Layout, text: &str) -> Result<String, AllocError>
    requires cells { layout.now.cells ≡ job.now.cells }
    requires procs { layout.now.procs ≡ job.now.procs }
    requires claims { layout.now.claims ≡ has_claims job.now.rule }
{
    let question = question_of(text);
    if question.name == "word" && question.number < layout.length() {
        format!(in alloc; "{:?}", layout.word(question.number))
    } else {
        format!(in alloc; "{}", number(job, layout, question))
    }
}

// The answers to questions.
fn answers(alloc: Global, job: &Job, layout: &Layout, text: &str) -> Result<String, AllocError>
    requires cells { layout.now.cells ≡ job.now.cells }
    requires procs { layout.now.procs ≡ job.now.procs }
    requires claims { layout.now.claims ≡ has_claims job.now.rule }
{
    let mut told = String::new(alloc);
    for question in text.split(", ") {
        if !told.is_empty() {
            told.push_str(" ")?;
        }
        told.push_str(answer(alloc, job, layout, question)?.as_str())?;
    }
    Ok(told)
}

/// What is answered to `FORM WORKERS; QUESTIONS` of the board of the job of a text.
pub fn words(alloc: Global, given: &str, text: &str) -> Result<String, Fail> {
    let job = read_job(alloc, text.as_bytes())?;
    let (board, questions) = given.split_once("; ").unwrap_or((given, ""));
    let (form, workers) = board.split_once(' ').unwrap_or((board, ""));
    let workers = workers.parse().unwrap_or(0);
    if workers < 1 || 64 < workers {
        return Ok(String::new(alloc));
    }
    let layout = layout_of(&job, form, workers);
    Ok(answers(alloc, &job, &layout, questions)?)
}

const WORDS: &str = "\
-- the words of boards: of nodes, requests, positions, places and claims, by their numbers, and what
-- a word is by its number
$ board: pram 2~cells 3~procs 3~steps 4~rule common~init 0 7~code~
compact 2; leaves, length, wide, workers, conflict, node 7, request 0 0, request 2 2 : halt~ \
    -> 4 55 0 2 0 7 8 16
compact 2; position 0, position 1, place 0, place 1, place 2, place 3, place 14 : halt~ \
    -> 17 18 19 21 23 25 47
compact 2; place 15, place 17, word 54 : halt~ -> 49 53 Stored(17, 1)
ones 2; wide, leaves, length, conflict, node 1, node 3, node 4, node 5, node 7 : halt~ \
    -> 1 4 118 0 8 24 58 74 106
ones 2; request 0 0, request 2 2, position 0, position 1, place 0, place 2 : halt~ \
    -> 0 0 32 40 112 116
ones 2; place 3, place 6, place 14, place 15, place 17 : halt~ -> 50 56 88 48 80
ones 2; word 1, word 47, word 57, word 59, word 96, word 106, word 117 : halt~ \
    -> Spare(1) Spare(47) Stored(6, 1) Spare(59) Spare(96) Node(7) Stored(2, 1)
-- what words start with, and whether they may hold a value: phases, and stamps of step 4
compact 2; start 0, start 17, start 18, start 19, start 20, start 54 : halt~ -> 0 4 5 7 7 0
compact 2; admits 1 12, admits 1 13, admits 8 17179869199, admits 8 17179869200 : halt~ -> 1 0 1 0
compact 2; admits 49 17179869186, admits 49 17179869187, admits 55 0 : halt~ -> 1 0 0
-- ten processors in blocks of four: the third block has two, and a fourth leaf has none
$ board: pram 2~cells 3~procs 10~steps 4~rule common~init 0 7~code~
fours 2; leaves, length, grain, node 1, node 3, node 4, node 5, node 6, node 7 : halt~ \
    -> 4 246 4 8 24 88 136 184 232
fours 2; word 8, word 24, word 88, word 136, word 184, word 232 : halt~ \
    -> Node(1) Node(3) Node(4) Node(5) Node(6) Node(7)
fours 2; word 89, word 95, word 148, word 151, word 233, word 239 : halt~ \
    -> Spare(89) Spare(95) Spare(148) Spare(151) Spare(233) Spare(239)
fours 2; place 0, place 3, place 42, place 43, place 52 : halt~ -> 240 56 178 48 146
fours 2; word 241, word 57, word 179, word 49, word 147 : halt~ \
    -> Stored(0, 1) Stored(3, 1) Stored(42, 1) Stored(43, 1) Stored(52, 1)
-- blocks of 64, or of all; claims; and the largest boards
$ board: pram 2~cells 1~procs 31~steps 4~rule common~code~
wide 4; wide, leaves : halt~ -> 32 1
$ board: pram 2~cells 1~procs 1024~steps 4~rule common~code~
wide 64; leaves : halt~ -> 16
fours 8; leaves : halt~ -> 256
$ board: pram 2~cells 3~procs 3~steps 4~rule crew~code~
compact 2; claim 0, claim 2, length : halt~ -> 55 57 58
ones 2; claim 0, claim 2, length : halt~ -> 118 120 121
$ board: pram 2~cells 65536~procs 1024~steps 4~rule common~code~
compact 64; length : halt~ -> 146496
ones 64; length : halt~ -> 156160
$ board: pram 2~cells 65536~procs 1024~steps 4~rule priority~code~
compact 64; length : halt~ -> 212032
ones 64; length : halt~ -> 221696
$ board: pram 3~cells 1048576~procs 65536~steps 4~rule crew~code~
compact 64; leaves, length : halt~ -> 65536 4128832
ones 64; length : halt~ -> 4719104
wide 64; leaves, length : halt~ -> 1024 3817984
-- workers of a wide board start far apart, and turn by their numbers
$ board: pram 2~cells 1~procs 8~steps 4~rule common~code~
ones 4; leaf 0, leaf 1, leaf 2, leaf 3, leaves, right 1 1, right 1 6, right 3 3 : halt~ \
    -> 8 15 11 12 8 1 1 0
ones 1; leaf 0 : halt~ -> 8
compact 4; leaf 3 : halt~ -> 11
";

#[test]
fn words_of_boards(rt: HostRuntime) -> Result<(), Fail> {
    expect(&rt, rt.alloc(), WORDS)
}

#[test]
fn stamps_and_payloads(rt: HostRuntime) {
    let words = (stamped(3, 30), stamped(u32::MAX, u32::MAX));
    assert!(rt; words == (12884901918, u64::MAX));
    assert!(rt; (stamp(words.0), payload(words.0)) == (3, 30));
}

#[test]
fn phases_of_steps(rt: HostRuntime) {
    let phases = (phase(2, Kind::Apply), phase(u32::MAX, Kind::Verify));
    assert!(rt; phases == (5, 12884901885));
    assert!(rt; (step_of(9), step_of(12884901885)) == (3, u32::MAX));
    assert!(rt; (kind_of(9), kind_of(1)) == (Kind::Verify, Kind::Compute));
}

#[test]
fn tree_of_leaves(rt: HostRuntime) {
    assert!(rt; (leaves(1), leaves(3), leaves(1024)) == (1, 4, 1024));
    assert!(rt; (left(5), right(5), parent(11)) == (10, 11, 5));
    assert!(rt; (height(1024), first_leaf(4, 6)) == (10, 6));
    assert!(rt; (goes_right(4, 2, 1), goes_right(4, 2, 3)) == (true, false));
}
