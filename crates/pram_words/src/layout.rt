//! Where the words of a board lie.
ghost use Rattle.pram_job.specs.declared.limits.TheConstants.{MAX_CELLS, MAX_PROCS};
ghost use Rattle.std.specs.Prelude.{◌≡◌, ℕ, ◌+◌, ◌*◌, ◌<◌, ◌≤◌, ◌↔◌};
ghost use Rattle.std.specs.Prelude.{IsTrue, IfOk, [], if◌then◌else◌};
ghost use Rattle.pram_words.specs.declared.layout.Form.TheVariants.{Compact, Wide};
ghost use Rattle.pram_words.specs.declared.words.Word.TheVariants.{Asked, Claim, Conflict};
ghost use Rattle.pram_words.specs.declared.words.Word.TheVariants.{Node, Position, Stored};
ghost use Rattle.pram_words.specs.Phases.{has_phase, next_phase};
ghost use Rattle.pram_words.specs.Inner.Started.{HasStarted};
ghost use Rattle.pram_words.specs.Start.{start_of, start_words};
ghost use Rattle.pram_words.specs.Tree.{depth_of, leaves_of};
ghost use Rattle.pram_words.specs.Ways.{IsTurnInForm, first_leaf_in, turns_right_in, way_of};
ghost use Rattle.pram_words.specs.Words.{Admits, AreOwn, IsInRange, IsLayout, IsStamped};
ghost use Rattle.pram_words.specs.Words.{LayoutData, has_claims, layout_data, layout_of};
ghost use Rattle.pram_words.specs.Words.{length_of, most_length};
ghost use Rattle.pram_words.specs.Words.{number_of, places_of, word_at};
ghost use Rattle.pram_words.specs.Words.{claims_at, compact_word, places_at, positions_at};
ghost use Rattle.std.specs.Int.{div_ceil};
ghost use Rattle.pram_words.specs.Words.{IsGrain, grain_for, cells_at, grain, grain_of};
ghost use Rattle.pram_words.specs.Words.{block_at, block_word, block_words, blocks_at, line_word};
ghost use Rattle.pram_words.specs.Words.{row_at, row_place, row_word};
ghost use Rattle.pram_words.specs.Words.{wide_claims_at, wide_place, wide_word};

use crate::phases::LAST_PHASE;
use crate::stamps::{payload, stamp};
use crate::tree::{first_leaf, goes_right, goes_right_wide, leaves};
use crate::words::Word;
use pram_job::places::{counters_at, register_at};
use pram_job::{Job, Rule};
use std::alloc::{AllocError, Global};
use std::marker::Model;

/// How the words of a board lie, and which way its workers turn. Every result holds for both forms.
#[derive(Clone, Copy, Debug, PartialEq, Eq)]
pub enum Form {
    /// One kind after the other: the conflict (word 0), the nodes (1 to 2L - 1), three request
    /// words a processor, a position word a worker, two words a place, and, under the rules
    /// priority and crew, a claim word a cell. A worker turns by the high bits of its number. A
    /// step has three phases.
    Compact,
    /// On lines of 8 words: the conflict, each inner node and each position on a line of its own,
    /// then the leaves' blocks, the cells and the claims; the words between are spare. A leaf
    /// stands for a block of so many processors, a power of two up to 64, whose words lie
    /// together: two for each counter, then two for each register 0, then registers 1, 2 and 3,
    /// then the leaf's node. A worker turns by its number's low bits, so that workers start far
    /// apart and walk towards each other. A step has two phases, numbered as the first and the
    /// last of three, and there are no request words.
    Wide(u32),
}

impl Form {
    /// How many processors a leaf stands for.
    pub fn grain(self) -> u32
        ensures { result ≡ grain_of self }
    {
        match self {
            Form::Compact => 1,
            Form::Wide(grain) => grain,
        }
    }
}

/// Where the words of a board lie, for L leaves, M cells, N processors and W workers. Places are
/// the M cells, then four registers a processor, then a counter a processor.
#[derive(Clone, Copy, Debug, PartialEq, Eq)]
pub struct Layout {
    form: Form,
    leaves: u32,
    cells: u32,
    procs: u32,
    workers: u32,
    claims: bool,
}

impl Model for Layout {
    ghost Value = { LayoutData };

    ghost view = { λ y. layout_data y.form y.leaves y.cells y.procs y.workers y.claims };

    ghost invariant = { λ y. IsLayout
        (layout_data y.form y.leaves y.cells y.procs y.workers y.claims) };

    ghost inverse = { λ y. record {
      form = y.form;
      leaves = y.leaves;
      cells = y.cells;
      procs = y.procs;
      workers = y.workers;
      claims = y.claims;
    } };
}

/// Where the words of a processor begin: those of its counter, and those of its registers. From one
/// register's two words to the next one's it is `stride` words.
#[derive(Clone, Copy, Debug, PartialEq, Eq)]
pub struct OwnWords {
    pub counter: u32,
    pub registers: u32,
    pub stride: u32,
}

impl Layout {
    /// The compact layout of the board of a job for so many workers.
    pub fn new(job: &Job, workers: u32) -> Layout
        requires some { 1 ≤ workers }
        requires most { workers ≤ 64 }
        ensures value { result ≡ layout_of job.now Compact workers }
        ensures limits { IsLayout result }
    {
        Layout::of(Form::Compact, job.rule(), job.cells(), job.procs(), workers)
    }

    /// The wide layout of the board of a job for so many workers, with blocks of 64 processors,
    /// or one block where there are fewer.
    pub fn wide(job: &Job, workers: u32) -> Layout
        requires some { 1 ≤ workers }
        requires most { workers ≤ 64 }
        ensures value { result ≡ layout_of job.now (Wide (grain_for job.now.procs)) workers }
        ensures limits { IsLayout result }
    {
        Layout::with_blocks(job, workers, grain_for(job.procs()))
    }

    /// The wide layout with blocks of so many processors.
    pub fn with_blocks(job: &Job, workers: u32, grain: u32) -> Layout
        requires some { 1 ≤ workers }
        requires most { workers ≤ 64 }
        requires grain { IsGrain grain }
        ensures value { result ≡ layout_of job.now (Wide grain) workers }
        ensures limits { IsLayout result }
    {
        Layout::of(
            Form::Wide(grain),
            job.rule(),
            job.cells(),
            job.procs(),
            workers,
        )
    }

    // The layout from plain numbers.
    pub(crate) fn of(form: Form, rule: Rule, cells: u32, procs: u32, workers: u32) -> Layout
        requires cells { (1 ≤ cells) × (cells ≤ MAX_CELLS) }
        requires procs { (1 ≤ procs) × (procs ≤ MAX_PROCS) }
        requires workers { (1 ≤ workers) × (workers ≤ 64) }
        requires grain { IsGrain (grain_of form) }
        ensures value { result ≡ layout_data form (leaves_of (div_ceil procs (grain_of form))) cells
            procs workers (has_claims rule) }
        ensures limits { IsLayout result }
    {
        let claims = match rule {
            Rule::Common => false,
            Rule::Priority | Rule::Crew => true,
        };
        Layout {
            form,
            leaves: leaves(procs.div_ceil(form.grain())),
            cells,
            procs,
            workers,
            claims,
        }
    }

    /// Says to a proof that the layout is within its limits. It does nothing.
    #[inline(always)]
    pub fn limits_hold(&self)
        ensures { IsLayout self.now }
    {
        // The limits of a type are known where one of its fields is read.
        let _ = &self.form;
    }

    /// The form of the board.
    pub fn form(&self) -> Form
        ensures value { result ≡ self.now.form }
        ensures limits { IsLayout self.now }
    {
        self.form
    }

    /// How many leaves the tree has.
    pub fn leaves(&self) -> u32
        ensures value { result ≡ self.now.leaves }
        ensures limits { IsLayout self.now }
    {
        self.leaves
    }

    /// How many processors there are.
    #[inline(always)]
    pub fn procs(&self) -> u32
        ensures value { result ≡ self.now.procs }
        ensures limits { IsLayout self.now }
    {
        self.procs
    }

    /// How many workers there are.
    pub fn workers(&self) -> u32
        ensures value { result ≡ self.now.workers }
        ensures limits { IsLayout self.now }
    {
        self.workers
    }

    /// How many words a board has: compact at most 3,080,256, or 4,128,832 with claim words; wide
    /// at most 3,670,528, or 4,719,104 with claim words.
    #[tactic(auto, unfolding(crate::specs::Words::length_of))]
    pub fn length(&self) -> u32
        ensures value { result ≡ length_of self.now }
        ensures most { result ≤ most_length self.now }
        ensures limits { IsLayout self.now }
    {
        let claims = if self.claims { self.cells } else { 0 };
        match self.form {
            Form::Compact => self.first_claim() + claims,
            Form::Wide(_) => self.wide_first_claim() + claims,
        }
    }

    /// The word that holds the step of the conflict.
    #[tactic(auto, unfolding(crate::specs::Words::number_of, crate::specs::Words::length_of))]
    pub fn conflict_word(&self) -> u32
        ensures value { result ≡ number_of self.now Conflict }
        ensures below { result < length_of self.now }
    {
        self.limits_hold();
        0
    }

    /// The word that holds the last phase that is finished below node n.
    #[tactic(auto, unfolding(crate::specs::Words::number_of, crate::specs::Words::length_of))]
    pub fn node_word(&self, n: u32) -> u32
        requires some { 1 ≤ n }
        requires node { n < 2 * self.now.leaves }
        ensures value { result ≡ number_of self.now (Node n) }
        ensures below { result < length_of self.now }
    {
        match self.form {
            Form::Compact => n,
            Form::Wide(_) if n < self.leaves => 8 * n,
            Form::Wide(grain) => self.block(n - self.leaves) + 10 * grain,
        }
    }

    /// The word of part j of the request of processor i: 0 is the data place, 1 the data value, 2
    /// the next counter. There is none in the wide form, where the number is 0.
    #[tactic(auto, unfolding(crate::specs::Words::number_of, crate::specs::Words::length_of))]
    pub fn request_word(&self, i: u32, j: u32) -> u32
        requires processor { i < self.now.procs }
        requires part { j < 3 }
        ensures value { result ≡ number_of self.now (Asked i j) }
        ensures below { result < length_of self.now }
    {
        match self.form {
            Form::Compact => 2 * self.leaves + 3 * i + j,
            Form::Wide(_) => 0,
        }
    }

    /// The word that holds the node where worker w stands.
    #[tactic(auto, unfolding(crate::specs::Words::number_of, crate::specs::Words::length_of))]
    pub fn position_word(&self, w: u32) -> u32
        requires { w < self.now.workers }
        ensures value { result ≡ number_of self.now (Position w) }
        ensures below { result < length_of self.now }
    {
        match self.form {
            Form::Compact => self.first_position() + w,
            Form::Wide(_) => 8 * (self.leaves + w),
        }
    }

    /// The first of the two words of place p; the second follows it.
    #[tactic(auto, unfolding(crate::specs::Words::number_of, crate::specs::Words::length_of))]
    pub fn place_word(&self, p: u32) -> u32
        requires { p < places_of self.now }
        ensures first { result ≡ number_of self.now (Stored p 0) }
        ensures second { result + 1 ≡ number_of self.now (Stored p 1) }
        ensures below { result + 1 < length_of self.now }
    {
        match self.form {
            Form::Compact => self.first_place() + 2 * p,
            Form::Wide(_) => self.wide_place_word(p),
        }
    }

    /// Where the words of processor i begin.
    #[inline(always)]
    pub fn own_words(&self, i: u32) -> OwnWords
        requires { i < self.now.procs }
        ensures { AreOwn self.now i result }
    {
        match self.form {
            Form::Compact => OwnWords {
                counter: self.first_place() + 2 * (counters_at(self.cells, self.procs) + i),
                registers: self.first_place() + 2 * register_at(self.cells, i, 0),
                stride: 2,
            },
            Form::Wide(grain) => {
                let counter = self.row(i, 0);
                OwnWords {
                    counter,
                    registers: counter + 2 * grain,
                    stride: 2 * grain,
                }
            }
        }
    }

    /// Where the words of cells begin: two a cell.
    #[inline(always)]
    pub fn cells_word(&self) -> u32
        ensures { (c : ℕ) → c < self.now.cells → number_of self.now (Stored c 0) ≡ result + 2 * c }
    {
        match self.form {
            Form::Compact => self.first_place(),
            Form::Wide(_) => self.first_cell(),
        }
    }

    /// The claim word of cell c.
    #[tactic(auto, unfolding(crate::specs::Words::number_of, crate::specs::Words::length_of))]
    pub fn claim_word(&self, c: u32) -> u32
        requires claims { IsTrue self.now.claims }
        requires cell { c < self.now.cells }
        ensures value { result ≡ number_of self.now (Claim c) }
        ensures below { result < length_of self.now }
    {
        match self.form {
            Form::Compact => self.first_claim() + c,
            Form::Wide(_) => self.wide_first_claim() + c,
        }
    }

    /// What the word of this number is.
    #[tactic(auto, unfolding(crate::specs::Words::word_at))]
    pub fn word(&self, number: u32) -> Word
        requires { number < length_of self.now }
        ensures { result ≡ word_at self.now number }
    {
        match self.form {
            Form::Compact => self.compact_word(number),
            Form::Wide(_) => self.wide_word(number),
        }
    }

    /// The leaf where worker w begins. Takes a step for each level of the tree in the wide form.
    #[tactic(auto, unfolding(crate::specs::Ways::first_leaf_in))]
    pub fn first_leaf(&self, w: u32) -> u32
        ensures value { result ≡ first_leaf_in self.now w }
        ensures leaf { (self.now.leaves ≤ result) × (result < 2 * self.now.leaves) }
    {
        match self.form {
            Form::Compact => first_leaf(self.leaves, w),
            Form::Wide(_) => self.leaf_of_turns(w),
        }
    }

    /// Whether worker w goes to the right child of an inner node when both children are unfinished.
    #[tactic(auto, unfolding(crate::specs::Ways::turns_right_in))]
    pub fn goes_right(&self, w: u32, n: u32) -> bool
        requires node { 1 ≤ n }
        requires inner { n < self.now.leaves }
        ensures value { result ≡ turns_right_in self.now w n }
        ensures turn { IsTurnInForm self.now.form self.now w n result }
    {
        match self.form {
            Form::Compact => goes_right(self.leaves, w, n),
            Form::Wide(_) => goes_right_wide(w, n),
        }
    }

    /// Whether the form has this phase: in the wide form the second phase of a step is none.
    #[inline(always)]
    pub fn has_phase(&self, phase: u64) -> bool
        ensures { result ≡ has_phase self.now.form phase }
    {
        match self.form {
            Form::Compact => true,
            Form::Wide(_) => phase % 3 != 2,
        }
    }

    /// The phase that comes where the root holds this one.
    #[inline(always)]
    pub fn next_phase(&self, root: u64) -> u64
        requires { root ≤ LAST_PHASE }
        ensures { result ≡ next_phase self.now.form root }
    {
        match self.form {
            Form::Wide(_) if root % 3 == 1 => root + 2,
            _ => root + 1,
        }
    }

    /// Whether the word of this number may have this value; false for a number past the last word.
    /// The layout is to be the job's.
    pub fn admits(&self, job: &Job, word: u32, value: u64) -> bool
        ensures { IsTrue result ↔ Admits self.now job.now word value }
    {
        word < self.length() && self.is_in_range(job, self.word(word), value)
    }

    /// The value that the word of this number starts with. The layout is to be the job's.
    pub fn start_word(&self, job: &Job, word: u32) -> u64
        requires { word < length_of self.now }
        ensures { result ≡ start_of self.now job.now (word_at self.now word) }
    {
        match self.word(word) {
            Word::Position(w) => u64::from(self.first_leaf(w)),
            Word::Stored(p, _) => match job.init().get(p as usize) {
                Some(value) => u64::from(*value),
                None => 0,
            },
            Word::Conflict | Word::Node(_) | Word::Asked(_, _) => 0,
            Word::Claim(_) | Word::Spare(_) => 0,
        }
    }

    /// The words that a board of the job starts with. It takes memory for them, and time in their
    /// number. The layout is to be the job's.
    pub fn start_words(&self, alloc: Global, job: &Job) -> Result<Vec<u64>, AllocError>
        ensures { IfOk result (λ words. words.items ≡ start_words self.now job.now) }
    {
        let mut words = vec![in alloc; 0; self.length() as usize]?;
        self.start_workers(&mut words);
        self.start_cells(job.init(), &mut words);
        Ok(words)
    }

    // Writes into each worker's position the leaf where it begins.
    fn start_workers(&self, words: &mut [u64])
        requires { HasStarted self.now 0 [] words.old }
        ensures { HasStarted self.now self.now.workers [] words.new }
    {
        for w in 0..self.workers() {
            words[self.position_word(w) as usize] = u64::from(self.first_leaf(w));
        }
    }

    // Writes into both words of each cell its value, with stamp 0. Values that have no place are
    // left out.
    fn start_cells(&self, values: &[u32], words: &mut [u64])
        requires { HasStarted self.now self.now.workers [] words.old }
        ensures { HasStarted self.now self.now.workers values.now words.new }
    {
        let places = self.cells + 5 * self.procs;
        let placed = &values[..values.len().min(places as usize)];
        for (p, value) in placed.iter().enumerate() {
            let first = self.place_word(p as u32) as usize;
            let word = u64::from(*value);
            words[first] = word;
            words[first + 1] = word;
        }
    }

    // Whether a word may have a value.
    fn is_in_range(&self, job: &Job, word: Word, value: u64) -> bool
        ensures { IsTrue result ↔ IsInRange self.now job.now word value }
    {
        let steps = job.steps();
        let counters = counters_at(self.cells, self.procs);
        let past_code = job.code().len() as u32 + 1;
        match word {
            Word::Conflict => value <= u64::from(steps),
            Word::Node(_) => value <= 3 * u64::from(steps) && self.has_phase(value),
            Word::Asked(_, 0) => is_stamped(steps, counters, value),
            Word::Asked(_, 1) => is_stamped(steps, u32::MAX, value),
            Word::Asked(_, _) => is_stamped(steps, past_code, value),
            Word::Position(_) => 1 <= value && value < u64::from(2 * self.leaves),
            Word::Stored(p, _) if p < counters => is_stamped(steps, u32::MAX, value),
            Word::Stored(_, _) => is_stamped(steps, past_code, value),
            Word::Claim(_) => is_stamped(steps, self.procs, value),
            Word::Spare(_) => value == 0,
        }
    }

    // The word of a number in the compact form.
    fn compact_word(&self, number: u32) -> Word
        ensures { result ≡ compact_word self.now number }
    {
        let requests = 2 * self.leaves;
        let positions = self.first_position();
        let places = self.first_place();
        let claims = self.first_claim();
        if number == 0 {
            Word::Conflict
        } else if number < requests {
            Word::Node(number)
        } else if number < positions {
            Word::Asked((number - requests) / 3, (number - requests) % 3)
        } else if number < places {
            Word::Position(number - positions)
        } else if number < claims {
            Word::Stored((number - places) / 2, (number - places) % 2)
        } else {
            Word::Claim(number - claims)
        }
    }

    // The word of a number in the wide form.
    fn wide_word(&self, number: u32) -> Word
        ensures { result ≡ wide_word self.now number }
    {
        let blocks = self.first_block();
        let cells = self.first_cell();
        let claims = self.wide_first_claim();
        if number < blocks {
            if number % 8 == 0 {
                self.line_word(number / 8)
            } else {
                Word::Spare(number)
            }
        } else if number < cells {
            let words = block_words(self.grain());
            self.block_word(number, (number - blocks) / words, (number - blocks) % words)
        } else if number < claims {
            Word::Stored((number - cells) / 2, number % 2)
        } else {
            Word::Claim(number - claims)
        }
    }

    // The word that begins line q of the lines that have one word each.
    fn line_word(&self, q: u32) -> Word
        ensures { result ≡ line_word self.now q }
    {
        if q == 0 {
            Word::Conflict
        } else if q < self.leaves {
            Word::Node(q)
        } else {
            Word::Position(q - self.leaves)
        }
    }

    // The word of a number that lies at a slot of a block.
    fn block_word(&self, number: u32, block: u32, slot: u32) -> Word
        requires block { block < self.now.leaves }
        requires slot { slot < block_words (grain self.now) }
        ensures { result ≡ block_word self.now number block slot }
    {
        let grain = self.grain();
        if slot == 10 * grain {
            Word::Node(self.leaves + block)
        } else {
            let lane = slot / 2 % grain;
            self.row_word(number, block * grain + lane, slot / 2 / grain)
        }
    }

    // The word of a number that is one of processor i's in a row.
    fn row_word(&self, number: u32, i: u32, row: u32) -> Word
        ensures { result ≡ row_word self.now number i row }
    {
        if row < 5 && i < self.procs {
            Word::Stored(self.row_place(i, row), number % 2)
        } else {
            Word::Spare(number)
        }
    }

    // The place that processor i has in a row.
    fn row_place(&self, i: u32, row: u32) -> u32
        requires processor { i < self.now.procs }
        requires row { row < 5 }
        ensures { result ≡ row_place self.now i row }
    {
        if row == 0 {
            counters_at(self.cells, self.procs) + i
        } else {
            register_at(self.cells, i, row - 1)
        }
    }

    // The first word of a place in the wide form.
    fn wide_place_word(&self, p: u32) -> u32
        requires { p < places_of self.now }
        ensures value { result ≡ wide_place self.now p }
        ensures below { result + 1 < wide_claims_at self.now }
        ensures limits { IsLayout self.now }
    {
        let counters = counters_at(self.cells, self.procs);
        if p < self.cells {
            self.first_cell() + 2 * p
        } else if p < counters {
            let register = p - self.cells;
            self.row(register / 4, 1 + register % 4)
        } else {
            self.row(p - counters, 0)
        }
    }

    /// How many processors a leaf stands for.
    #[inline(always)]
    pub fn grain(&self) -> u32
        ensures value { result ≡ grain self.now }
        ensures limits { IsLayout self.now }
    {
        self.form.grain()
    }

    // The first word of the blocks, of a block, of processor i in a row, and of a cell, in the wide
    // form.
    fn first_block(&self) -> u32
        ensures value { result ≡ blocks_at self.now }
        ensures limits { IsLayout self.now }
    {
        8 * (self.leaves + self.workers)
    }

    fn block(&self, block: u32) -> u32
        requires { block ≤ self.now.leaves }
        ensures value { result ≡ block_at self.now block }
        ensures most { result ≤ 1573376 }
        ensures limits { IsLayout self.now }
    {
        self.first_block() + block * block_words(self.grain())
    }

    fn row(&self, i: u32, row: u32) -> u32
        requires processor { i < self.now.procs }
        requires row { row < 5 }
        ensures value { result ≡ row_at self.now i row }
        ensures below { result + 1 < cells_at self.now }
        ensures limits { IsLayout self.now }
    {
        let grain = self.grain();
        self.block(i / grain) + 2 * (row * grain + i % grain)
    }

    fn first_cell(&self) -> u32
        ensures value { result ≡ cells_at self.now }
        ensures most { result ≤ 1573376 }
        ensures limits { IsLayout self.now }
    {
        self.block(self.leaves)
    }

    fn wide_first_claim(&self) -> u32
        ensures value { result ≡ wide_claims_at self.now }
        ensures most { result ≤ 3670528 }
        ensures limits { IsLayout self.now }
    {
        self.first_cell() + 2 * self.cells
    }

    // The first position word, word of a place and claim word of the compact form (the length where
    // there is none).
    fn first_position(&self) -> u32
        ensures value { result ≡ positions_at self.now }
        ensures limits { IsLayout self.now }
    {
        2 * self.leaves + 3 * self.procs
    }

    fn first_place(&self) -> u32
        ensures value { result ≡ places_at self.now }
        ensures limits { IsLayout self.now }
    {
        self.first_position() + self.workers
    }

    fn first_claim(&self) -> u32
        ensures value { result ≡ claims_at self.now }
        ensures limits { IsLayout self.now }
    {
        self.first_place() + 2 * (self.cells + 5 * self.procs)
    }

    // The leaf where a worker's turns lead from the root.
    fn leaf_of_turns(&self, w: u32) -> u32
        ensures value { result ≡ way_of self.now w (depth_of self.now.leaves) }
        ensures leaf { (self.now.leaves ≤ result) × (result < 2 * self.now.leaves) }
    {
        let leaves = self.leaves();
        let mut node = 1;
        while node < leaves {
            node = 2 * node + u32::from(self.goes_right(w, node));
        }
        node
    }
}

// The size of a block for so many processors: the least power of two that is at least as many, up
// to 64.
fn grain_for(procs: u32) -> u32
    ensures value { result ≡ grain_for procs }
    ensures grain { IsGrain result }
{
    leaves(procs.min(64))
}

// How many words a block has.
#[inline(always)]
fn block_words(grain: u32) -> u32
    requires { grain ≤ 64 }
    ensures { result ≡ block_words grain }
{
    8 * ((10 * grain + 8) / 8)
}

// Whether the stamp of a value is at most `steps` and its payload at most `most`.
fn is_stamped(steps: u32, most: u32, value: u64) -> bool
    ensures { IsTrue result ↔ IsStamped steps most value }
{
    stamp(value) <= steps && payload(value) <= most
}
