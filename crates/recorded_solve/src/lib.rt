// Recorded answers of the solver, asked again of its entry. A line is a letter and numbers, each after one space:
// `L ..` begins a list, with how many sorts, argument entries, nodes, argument entries of nodes,
// variables, expressions, base names, constraints, overloads and sources it has, and its default
// sort; all words given before become zero.
// `S k at w ..` gives words of the slice k, from its word `at` on, at most 16.
// `Q code sorts entries components choices` asks the solver about the words given; the numbers are its answer.
// `X k at w ..` are words of the slice k, from its word `at` on, as the last question left them, at most 16.
// A line `Q` or `X` that agrees is a checked answer.
// A line that starts with `#` says nothing.
//
// The slices: 0 sorts, 1 nodes, 2 bindings, 3 places of expressions, 4 base names, 5 constraints, 6 overloads, 7
// sources, 8 typing, 9 measure, 10 choices, 11 scratch, 12 index. They stand one after another, each as long as
// its ceiling, and after them the eleven numbers of the line `L`.
#![tactic(auto)]

ghost use Rattle.std.specs.Prelude.{◌≡◌, ◌+◌, ◌<◌, ◌≤◌, length, IfSome, MatchResult};
ghost use Rattle.replay.specs.Inner.Lines.{near_enough};
ghost use Rattle.recorded_solve.specs.Inner.Slices.{held_counts_at, slice_start, slice_number, last_slice};
ghost use Rattle.recorded_solve.specs.Inner.Slices.{count_number, count_held, counts_held};
ghost use Rattle.recorded_solve.specs.Inner.Slices.{call_held_in, slices_kept, slices_held, packed_of};
ghost use Rattle.recorded_solve.specs.Inner.Outcome.{solved};
ghost use Rattle.recorded_solve.specs.Inner.Lines.{letter_of, start_in, compared_from, recorded_of, solve_started};
ghost use Rattle.recorded_solve.specs.Inner.Lines.{reply, ask_of, begin_line, give_line, compare_line, ask_line};

use inference::{
    CHOICE_WORDS, CONSTRAINT_WORDS, MAX_COMPONENTS, MAX_CONSTRAINTS, MAX_EXPRS, MAX_OVERLOADS,
    MAX_SOURCES, NAME_WORDS, OVERLOAD_WORDS, SCRATCH_WORDS, TYPING_WORDS,
};
use replay::{Recorded, Verdict, store};
use resolved_sort::{SLOTS, SORT_WORDS, SortId};
use solve_checks::Given;
use solve_entries::sort_solve;
use unification::{MAX_VARS, NODE_WORDS};
use words::{BIT_8, BIT_24, BIT_40, BIT_52, MOST_WORD, copied, copy, word};

// Where the slices stand in the words held, after the sorts, each at its ceiling (base names, which have none, have as
// many rows as there are expressions); and after the index the counts, the last of which is the default sort.
const NODES_AT: usize = SORT_WORDS;

const BINDS_AT: usize = NODES_AT + NODE_WORDS;

const EXPRS_AT: usize = BINDS_AT + MAX_VARS;

const NAMES_AT: usize = EXPRS_AT + MAX_EXPRS;

const CONSTRAINTS_AT: usize = NAMES_AT + NAME_WORDS * MAX_EXPRS;

const OVERLOADS_AT: usize = CONSTRAINTS_AT + CONSTRAINT_WORDS * MAX_CONSTRAINTS;

const SOURCES_AT: usize = OVERLOADS_AT + OVERLOAD_WORDS * MAX_OVERLOADS;

const TYPING_AT: usize = SOURCES_AT + MAX_SOURCES;

const MEASURE_AT: usize = TYPING_AT + TYPING_ROOM;

const CHOICES_AT: usize = MEASURE_AT + MAX_COMPONENTS;

const SCRATCH_AT: usize = CHOICES_AT + CHOICES_ROOM;

const INDEX_AT: usize = SCRATCH_AT + SCRATCH_WORDS;

const COUNTS_AT: usize = INDEX_AT + SLOTS;

const DEFAULT_AT: usize = COUNTS_AT + 10;

pub const HELD_WORDS: usize = COUNTS_AT + COUNTS;

// The words for the typing and for the choices.
const TYPING_ROOM: usize = TYPING_WORDS * MAX_EXPRS;

const CHOICES_ROOM: usize = CHOICE_WORDS * MAX_CONSTRAINTS;

// The numbers of a line: how many counts a list has, how far into the slices a word can be, and the largest code and
// count of what is handed out that a packed answer has.
const COUNTS: usize = 11;

const SLICE_WORDS: u64 = COUNTS_AT as u64;

const MOST_CODE: u64 = 255;

const MOST_HANDED: u64 = 4095;

// The slices of a list, in the order in which they stand and in which a line numbers them.
// kept: beside Slice of list_memory, which stands in another order: a recorded line has scratch and index last.
#[derive(Clone, Copy, Debug, PartialEq, Eq)]
pub enum Slice {
    Sorts,
    Nodes,
    Bindings,
    Exprs,
    Names,
    Constraints,
    Overloads,
    Sources,
    Typing,
    Measure,
    Choices,
    Scratch,
    Index,
}

// A number of a line that is no slice's.
#[derive(Clone, Copy, Debug, PartialEq, Eq)]
pub struct NoSlice(pub u64);

// The counts of a list, in the order in which they stand.
// kept: beside Table of list_memory: these are counts of a call on slices, and no tables of that one memory.
#[derive(Clone, Copy, Debug, PartialEq, Eq)]
pub enum Count {
    Sorts,
    Entries,
    Nodes,
    Arguments,
    Variables,
    Exprs,
    Names,
    Constraints,
    Overloads,
    Sources,
}

// What a line says by its letter.
// kept: Other and no None: a byte that begins no line of the form is a line of its own, whose answer is NotOfForm.
#[derive(Clone, Copy, Debug, PartialEq, Eq)]
pub enum Letter {
    List,
    Gives,
    Asks,
    Left,
    Other,
}

// The slices that a question may change.
#[derive(Drop)]
pub struct Slices {
    pub sorts: [u16; SORT_WORDS],
    pub nodes: [u16; NODE_WORDS],
    pub binds: [u16; MAX_VARS],
    pub scratch: [u16; SCRATCH_WORDS],
    pub index: [u16; SLOTS],
    pub typing: [u16; TYPING_ROOM],
    pub measure: [u16; MAX_COMPONENTS],
    pub choices: [u16; CHOICES_ROOM],
}

// The words given of a list, and those that the last question left.
#[derive(Drop)]
pub struct RecordedSolve {
    pub given: [u16; HELD_WORDS],
    pub left: [u16; HELD_WORDS],
}

impl From<u8> for Letter {
    ghost from_gives = { λ byte letter. letter ≡ letter_of byte };

    #[tactic(auto, unfolding(crate::specs::Inner::Lines::letter_of))]
    fn from(byte: u8) -> Self {
        match byte {
            b'L' => Letter::List,
            b'S' => Letter::Gives,
            b'Q' => Letter::Asks,
            b'X' => Letter::Left,
            _ => Letter::Other,
        }
    }
}

impl TryFrom<u64> for Slice {
    type Error = NoSlice;

    ghost try_from_gives = { λ number slice.
        MatchResult slice (λ s. slice_number s ≡ number) (λ e. (last_slice < number) × (e.0 ≡ number)) };

    fn try_from(number: u64) -> Result<Self, NoSlice> {
        match number {
            0 => Ok(Slice::Sorts),
            1 => Ok(Slice::Nodes),
            2 => Ok(Slice::Bindings),
            3 => Ok(Slice::Exprs),
            4 => Ok(Slice::Names),
            5 => Ok(Slice::Constraints),
            6 => Ok(Slice::Overloads),
            7 => Ok(Slice::Sources),
            8 => Ok(Slice::Typing),
            9 => Ok(Slice::Measure),
            10 => Ok(Slice::Choices),
            11 => Ok(Slice::Scratch),
            12 => Ok(Slice::Index),
            _ => Err(NoSlice(number)),
        }
    }
}

impl Slice {
    // The word at which a slice starts, and the one past its last.
    #[tactic(auto, unfolding(crate::specs::Inner::Slices::slice_start))]
    fn ends(self) -> (usize, usize)
        ensures start { result.0 ≡ slice_start (slice_number self) }
        ensures end { result.1 ≡ slice_start (slice_number self + 1) }
        ensures within { (result.0 ≤ held_counts_at) × (result.1 ≤ held_counts_at) }
    {
        match self {
            Slice::Sorts => (0, NODES_AT),
            Slice::Nodes => (NODES_AT, BINDS_AT),
            Slice::Bindings => (BINDS_AT, EXPRS_AT),
            Slice::Exprs => (EXPRS_AT, NAMES_AT),
            Slice::Names => (NAMES_AT, CONSTRAINTS_AT),
            Slice::Constraints => (CONSTRAINTS_AT, OVERLOADS_AT),
            Slice::Overloads => (OVERLOADS_AT, SOURCES_AT),
            Slice::Sources => (SOURCES_AT, TYPING_AT),
            Slice::Typing => (TYPING_AT, MEASURE_AT),
            Slice::Measure => (MEASURE_AT, CHOICES_AT),
            Slice::Choices => (CHOICES_AT, SCRATCH_AT),
            Slice::Scratch => (SCRATCH_AT, INDEX_AT),
            Slice::Index => (INDEX_AT, COUNTS_AT),
        }
    }
}

// Where the words of a line stand, after the number of a slice and of a word of it, where they are inside the slice.
#[tactic(auto, unfolding(crate::specs::Inner::Lines::start_in))]
fn start_of_words(numbers: &[u64]) -> Option<usize>
    ensures start { result ≡ start_in numbers.now }
    ensures near { IfSome result (λ at. (at ≤ near_enough) × (2 ≤ length numbers.now)) }
{
    let &[slice, at, ref words @ ..] = numbers else {
        return None;
    };
    let (start, end) = Slice::try_from(slice).ok()?.ends();
    if SLICE_WORDS < at || end < start + (at as usize) + words.len() {
        return None;
    }
    Some(start + (at as usize))
}

// Words, from a word on, compared with those recorded: all agree, or the first that is another.
// kept: a loop, and no zip with the words from the start on, since a word past the end is 0 and is compared too.
fn compare(left: &[u16], start: usize, recorded: &[u64]) -> Verdict
    requires { start ≤ near_enough }
    ensures { result ≡ compared_from left.now start recorded.now }
{
    for (i, &value) in recorded.iter().enumerate() {
        let got = word(left, start + i);
        if got as u64 != value {
            return Verdict::LeavesOther(got);
        }
    }
    Verdict::Agrees
}

// The packed answer of a line: its code, and the numbers of sorts, entries, components and choices.
#[tactic(auto, unfolding(crate::specs::Inner::Lines::recorded_of))]
fn recorded(numbers: &[u64]) -> Option<u64>
    requires { length numbers.now ≡ 5 }
    ensures { result ≡ recorded_of numbers.now }
{
    let code = numbers[0];
    let sorts = numbers[1];
    let entries = numbers[2];
    let components = numbers[3];
    let choices = numbers[4];
    if MOST_CODE < code || MOST_WORD < sorts || MOST_WORD < entries {
        return None;
    }
    if MOST_HANDED < components || MOST_HANDED < choices {
        return None;
    }
    Some(code + BIT_8 * sorts + BIT_24 * entries + BIT_40 * components + BIT_52 * choices)
}

// A count of the list.
fn count_of(given: &[u16], count: Count) -> usize
    ensures { result ≡ count_held given.now (count_number count) }
{
    word(given, COUNTS_AT + count as usize) as usize
}

// The counts of the list, and its default sort.
fn counts_of(given: &[u16]) -> Given
    ensures { result ≡ counts_held given.now }
{
    Given {
        sorts: count_of(given, Count::Sorts),
        entries: count_of(given, Count::Entries),
        nodes: count_of(given, Count::Nodes),
        arguments: count_of(given, Count::Arguments),
        variables: count_of(given, Count::Variables),
        exprs: count_of(given, Count::Exprs),
        names: count_of(given, Count::Names),
        constraints: count_of(given, Count::Constraints),
        overloads: count_of(given, Count::Overloads),
        sources: count_of(given, Count::Sources),
        default: SortId(word(given, DEFAULT_AT)),
    }
}

impl Slices {
    // The slices among the words given.
    fn of(given: &[u16; HELD_WORDS]) -> Slices
        ensures { result ≡ slices_held given.now }
    {
        Slices {
            sorts: copied(given, 0),
            nodes: copied(given, NODES_AT),
            binds: copied(given, BINDS_AT),
            scratch: copied(given, SCRATCH_AT),
            index: copied(given, INDEX_AT),
            typing: copied(given, TYPING_AT),
            measure: copied(given, MEASURE_AT),
            choices: copied(given, CHOICES_AT),
        }
    }

    // What the solver answers about the list, and what it leaves in the slices.
    fn solve(&mut self, given: &[u16]) -> u64
        requires { held_counts_at ≤ length given.now }
        ensures { packed_of self.new result ≡ solved (call_held_in given.now self.old) }
    {
        let counts = counts_of(given);
        sort_solve(
            &mut self.sorts,
            counts.sorts,
            counts.entries,
            &mut self.nodes,
            counts.nodes,
            counts.arguments,
            &mut self.binds,
            counts.variables,
            &given[EXPRS_AT..NAMES_AT],
            counts.exprs,
            &given[NAMES_AT..CONSTRAINTS_AT],
            counts.names,
            &given[CONSTRAINTS_AT..OVERLOADS_AT],
            counts.constraints,
            &given[OVERLOADS_AT..SOURCES_AT],
            counts.overloads,
            &given[SOURCES_AT..TYPING_AT],
            counts.sources,
            counts.default.0,
            &mut self.scratch,
            &mut self.index,
            &mut self.typing,
            &mut self.measure,
            &mut self.choices,
        )
    }

    // The slices kept in their places among the words left.
    fn keep(&self, left: &mut [u16; HELD_WORDS])
        ensures { left.new ≡ slices_kept left.old self.now }
    {
        copy(left, 0, &self.sorts, 0, SORT_WORDS);
        copy(left, NODES_AT, &self.nodes, 0, NODE_WORDS);
        copy(left, BINDS_AT, &self.binds, 0, MAX_VARS);
        copy(left, SCRATCH_AT, &self.scratch, 0, SCRATCH_WORDS);
        copy(left, INDEX_AT, &self.index, 0, SLOTS);
        copy(left, TYPING_AT, &self.typing, 0, TYPING_ROOM);
        copy(left, MEASURE_AT, &self.measure, 0, MAX_COMPONENTS);
        copy(left, CHOICES_AT, &self.choices, 0, CHOICES_ROOM);
    }
}

impl RecordedSolve {
    // Where reading starts: no words.
    pub fn new() -> RecordedSolve
        ensures { result ≡ solve_started }
    {
        RecordedSolve {
            given: [0; HELD_WORDS],
            left: [0; HELD_WORDS],
        }
    }

    // A new list: all words are zero but its counts.
    #[tactic(auto, unfolding(crate::specs::Inner::Lines::begin_line, crate::specs::Inner::Lines::no_words))]
    fn begin(&mut self, numbers: &[u64]) -> Verdict
        ensures { (self.new, result) ≡ begin_line self.old numbers.now }
    {
        if numbers.len() != COUNTS {
            return Verdict::NotOfForm;
        }
        self.given = [0; HELD_WORDS];
        if store(&mut self.given, COUNTS_AT, numbers) {
            Verdict::Quiet
        } else {
            Verdict::NotOfForm
        }
    }

    // Words of the list.
    #[tactic(auto, unfolding(crate::specs::Inner::Lines::given_at))]
    fn give(&mut self, numbers: &[u64]) -> Verdict
        ensures { (self.new, result) ≡ give_line self.old numbers.now }
    {
        let Some(start) = start_of_words(numbers) else {
            return Verdict::NotOfForm;
        };
        if store(&mut self.given, start, &numbers[2..]) {
            Verdict::Quiet
        } else {
            Verdict::NotOfForm
        }
    }

    // Words that the last question left.
    #[tactic(auto, unfolding(crate::specs::Inner::Lines::compared_at))]
    fn compare_left(&self, numbers: &[u64]) -> Verdict
        ensures { result ≡ compare_line self.now numbers.now }
    {
        let Some(start) = start_of_words(numbers) else {
            return Verdict::NotOfForm;
        };
        compare(&self.left, start, &numbers[2..])
    }

    // What the solver answers about the list. It works on slices of its own, and what it leaves is kept.
    fn ask(&mut self) -> u64
        ensures answer { reply self.new.left result ≡ ask_of self.old.given }
        ensures given { self.new.given ≡ self.old.given }
    {
        let mut slices = Slices::of(&self.given);
        let answer = slices.solve(&self.given);
        self.left = self.given;
        slices.keep(&mut self.left);
        answer
    }

    // A question about the list, compared with the recorded answer.
    #[tactic(auto, unfolding(crate::specs::Inner::Lines::ask_line, crate::specs::Inner::Lines::judged_reply))]
    fn answer(&mut self, numbers: &[u64]) -> Verdict
        ensures { (self.new, result) ≡ ask_line self.old numbers.now }
    {
        if numbers.len() != 5 {
            return Verdict::NotOfForm;
        }
        let Some(expected) = recorded(numbers) else {
            return Verdict::NotOfForm;
        };
        let got = self.ask();
        if got == expected {
            Verdict::Agrees
        } else {
            Verdict::Differs(got)
        }
    }
}

impl Recorded for RecordedSolve {
    ghost use Rattle.std.specs.Prelude.{true};
    ghost use Rattle.recorded_solve.specs.Inner.Lines.{letter_of, by_letter};

    ghost step = { λ s letter numbers. by_letter (letter_of letter) s numbers };

    ghost complete = { λ _. true };

    #[tactic(auto, unfolding(crate::specs::Inner::Lines::by_letter))]
    fn replay(&mut self, letter: u8, numbers: &[u64]) -> Verdict {
        // kept: a match and no table of functions: each arm has a contract of its own; those of a table share one.
        match Letter::from(letter) {
            Letter::List => self.begin(numbers),
            Letter::Gives => self.give(numbers),
            Letter::Asks => self.answer(numbers),
            Letter::Left => self.compare_left(numbers),
            Letter::Other => Verdict::NotOfForm,
        }
    }

    // Each question has a list of its own.
    fn is_complete(&self) -> bool {
        true
    }
}
