// Recorded answers about unify, asked again of the entry. A line is a letter and numbers, each after one space:
// `L s e n f v` begins a list of s sorts, e argument entries, n nodes, f argument entries of nodes and v variables;
// `r kind part start count` is its next sort, `a w ..` its next entries, at most 16;
// `n kind part start count` its next node, `b w ..` the next entries of nodes; `v w ..` its next bindings;
// `w v p` is a binding of the variable v to the place p that the next question makes; `u a b x` asks whether the places
// a and b unify, and x is the answer, packed; a line that starts with `#` says nothing.
#![tactic(auto)]

ghost use Rattle.std.specs.Prelude.{◌≡◌, ◌≤◌, length};
ghost use Rattle.unify_entries.specs.Packed.{packed_binds};
ghost use Rattle.replay.specs.Inner.Lines.{near_enough};
ghost use Rattle.recorded_unify.specs.Inner.Lines.{bindings_at, letter_of, part_start, part_length, with_length};
ghost use Rattle.recorded_unify.specs.Inner.Lines.{unify_started, complete as is_complete};
ghost use Rattle.recorded_unify.specs.Inner.Lines.{begin_line, keep_of, row_line, run_line};
ghost use Rattle.recorded_unify.specs.Inner.Lines.{renewed, bindings_in, binds_line, unified, judged_of, ask_line};

use replay::{MAX_WORDS, Recorded, Verdict, store};
use resolved_sort::{ENTRIES_AT, MAX_ENTRIES, MAX_SORTS, ROW_WORDS, SORT_WORDS};
use unification::{Lengths, MAX_NODE_ENTRIES, MAX_NODES, MAX_VARS, NODE_ENTRIES_AT, NODE_WORDS};
use unify_entries::sort_unify;
use words::{copied, copy, put};

// The parts of a list stand one after another in its words: sorts and their entries as the entry takes them, nodes and
// theirs, the bindings, and at last the bindings that the next question leaves.
const NODES_AT: usize = SORT_WORDS;

const ARGUMENTS_AT: usize = NODES_AT + NODE_ENTRIES_AT;

const BINDINGS_AT: usize = NODES_AT + NODE_WORDS;

const LEFT_AT: usize = BINDINGS_AT + MAX_VARS;

pub const LIST_WORDS: usize = LEFT_AT + MAX_VARS;

// The ceilings of a list, as numbers of a line.
const SORTS: u64 = MAX_SORTS as u64;

const ENTRIES: u64 = MAX_ENTRIES as u64;

const NODES: u64 = MAX_NODES as u64;

const ARGUMENTS: u64 = MAX_NODE_ENTRIES as u64;

const VARIABLES: u64 = MAX_VARS as u64;

// A part of a list.
#[derive(Clone, Copy, Debug, PartialEq, Eq)]
pub enum Part {
    Sorts,
    Entries,
    Nodes,
    Arguments,
    Bindings,
}

// What a line says by its letter.
// kept: Other and no None: a byte that begins no line of the form is a line of its own, whose answer is NotOfForm.
#[derive(Clone, Copy, Debug, PartialEq, Eq)]
pub enum Letter {
    List,
    Row(Part),
    Words(Part),
    Binds,
    Asks,
    Other,
}

// How much a list has by its first line, and how much of it was read.
#[derive(Clone, Copy, Debug, PartialEq, Eq)]
pub struct Progress {
    pub total: Lengths,
    pub read: Lengths,
}

// A list of sorts, nodes and bindings, as far as it was read.
#[derive(Drop)]
pub struct RecordedUnify {
    pub words: [u16; LIST_WORDS],
    pub progress: Progress,
}

impl From<u8> for Letter {
    ghost from_gives = { λ byte letter. letter ≡ letter_of byte };

    #[tactic(auto, unfolding(crate::specs::Inner::Lines::letter_of))]
    fn from(byte: u8) -> Self {
        match byte {
            b'L' => Letter::List,
            b'r' => Letter::Row(Part::Sorts),
            b'a' => Letter::Words(Part::Entries),
            b'n' => Letter::Row(Part::Nodes),
            b'b' => Letter::Words(Part::Arguments),
            b'v' => Letter::Words(Part::Bindings),
            b'w' => Letter::Binds,
            b'u' => Letter::Asks,
            _ => Letter::Other,
        }
    }
}

impl Part {
    // The word at which a part starts.
    #[tactic(auto, unfolding(crate::specs::Inner::Lines::part_start))]
    fn start(self) -> usize
        ensures { (result ≡ part_start self) × (result ≤ bindings_at) }
    {
        match self {
            Part::Sorts => 0,
            Part::Entries => ENTRIES_AT,
            Part::Nodes => NODES_AT,
            Part::Arguments => ARGUMENTS_AT,
            Part::Bindings => BINDINGS_AT,
        }
    }

    // How much of a part there is.
    #[tactic(auto, unfolding(crate::specs::Inner::Lines::part_length))]
    fn length(self, lengths: Lengths) -> u16
        ensures { result ≡ part_length lengths self }
    {
        match self {
            Part::Sorts => lengths.sorts,
            Part::Entries => lengths.entries,
            Part::Nodes => lengths.nodes,
            Part::Arguments => lengths.arguments,
            Part::Bindings => lengths.variables,
        }
    }

    // The same lengths but for one part.
    #[tactic(auto, unfolding(crate::specs::Inner::Lines::with_length))]
    fn with_length(self, lengths: Lengths, length: u16) -> Lengths
        ensures { result ≡ with_length lengths self length }
    {
        match self {
            Part::Sorts => Lengths {
                sorts: length,
                ..lengths
            },
            Part::Entries => Lengths {
                entries: length,
                ..lengths
            },
            Part::Nodes => Lengths {
                nodes: length,
                ..lengths
            },
            Part::Arguments => Lengths {
                arguments: length,
                ..lengths
            },
            Part::Bindings => Lengths {
                variables: length,
                ..lengths
            },
        }
    }
}

const NO_LENGTHS: Lengths = Lengths {
    sorts: 0,
    entries: 0,
    nodes: 0,
    arguments: 0,
    variables: 0,
};

impl Progress {
    // Whether all of the list was read.
    #[tactic(auto, unfolding(crate::specs::Inner::Lines::complete))]
    pub fn complete(&self) -> bool
        ensures { result ≡ is_complete self.now }
    {
        self.read == self.total
    }
}

// What the entry answers on the list, and what it leaves of the bindings.
#[tactic(auto, unfolding(crate::specs::Inner::Lines::unified))]
fn ask(words: &[u16], total: Lengths, bindings: &mut [u16], lhs: u16, rhs: u16) -> u64
    requires { bindings_at ≤ length words.now }
    ensures { packed_binds bindings.new result
        ≡ unified words.now total bindings.old lhs rhs }
{
    sort_unify(
        &words[..SORT_WORDS],
        total.sorts as usize,
        total.entries as usize,
        &words[NODES_AT..BINDINGS_AT],
        total.nodes as usize,
        total.arguments as usize,
        bindings,
        total.variables as usize,
        lhs,
        rhs,
    )
}

// An answer and the bindings that it left, compared with the recorded ones: the first that is another.
fn judge(words: &[u16; LIST_WORDS], bindings: &[u16; MAX_VARS], got: u64, recorded: u64) -> Verdict
    ensures { result ≡ judged_of words.now bindings.now got recorded }
{
    if got != recorded {
        return Verdict::Differs(got);
    }
    let other = bindings
        .iter()
        .zip(&words[LEFT_AT..])
        .position(|(binding, left)| binding != left);
    match other {
        Some(i) => Verdict::BindsOther(i as u16),
        None => Verdict::Agrees,
    }
}

impl RecordedUnify {
    // Where reading starts: an empty list, complete.
    pub fn new() -> RecordedUnify
        ensures { result ≡ unify_started }
    {
        RecordedUnify {
            words: [0; LIST_WORDS],
            progress: Progress {
                total: NO_LENGTHS,
                read: NO_LENGTHS,
            },
        }
    }

    // A new list, of which nothing was read yet, after one that is complete.
    #[tactic(auto, unfolding(crate::specs::Inner::Lines::begin_line))]
    fn begin(&mut self, numbers: &[u64]) -> Verdict
        ensures { (self.new, result) ≡ begin_line self.old numbers.now }
    {
        let &[sorts, entries, nodes, arguments, variables] = numbers else {
            return Verdict::NotOfForm;
        };
        if !self.progress.complete() {
            return Verdict::NotOfForm;
        }
        if SORTS < sorts || ENTRIES < entries || NODES < nodes {
            return Verdict::NotOfForm;
        }
        if ARGUMENTS < arguments || VARIABLES < variables {
            return Verdict::NotOfForm;
        }
        self.progress = Progress {
            total: Lengths {
                sorts: sorts as u16,
                entries: entries as u16,
                nodes: nodes as u16,
                arguments: arguments as u16,
                variables: variables as u16,
            },
            read: NO_LENGTHS,
        };
        Verdict::Quiet
    }

    // Words of a part stored from a word on, so that it then has a length.
    #[tactic(auto, unfolding(crate::specs::Inner::Lines::keep_of))]
    fn keep(&mut self, base: usize, numbers: &[u64], part: Part, length: u16) -> Verdict
        requires { base ≤ near_enough }
        ensures { (self.new, result) ≡ keep_of self.old base numbers.now part length }
    {
        if MAX_WORDS < numbers.len() {
            return Verdict::NotOfForm;
        }
        if !store(&mut self.words, base, numbers) {
            return Verdict::NotOfForm;
        }
        self.progress.read = part.with_length(self.progress.read, length);
        Verdict::Quiet
    }

    // The next sort or node.
    #[tactic(auto, unfolding(crate::specs::Inner::Lines::row_line))]
    fn row(&mut self, part: Part, numbers: &[u64]) -> Verdict
        ensures { (self.new, result) ≡ row_line self.old part numbers.now }
    {
        let read = part.length(self.progress.read);
        if numbers.len() != 4 || part.length(self.progress.total) <= read {
            return Verdict::NotOfForm;
        }
        self.keep(
            part.start() + ROW_WORDS * (read as usize),
            numbers,
            part,
            read + 1,
        )
    }

    // The next entries or bindings.
    #[tactic(auto, unfolding(crate::specs::Inner::Lines::run_line))]
    fn run(&mut self, part: Part, numbers: &[u64]) -> Verdict
        ensures { (self.new, result) ≡ run_line self.old part numbers.now }
    {
        let read = part.length(self.progress.read);
        let total = part.length(self.progress.total);
        let count = numbers.len();
        if MAX_WORDS < count || (total as usize) < (read as usize) + count {
            return Verdict::NotOfForm;
        }
        self.keep(
            part.start() + (read as usize),
            numbers,
            part,
            read + (count as u16),
        )
    }

    // The bindings of the list.
    fn bindings(&self) -> [u16; MAX_VARS]
        ensures { result ≡ bindings_in self.now.words }
    {
        copied(&self.words, BINDINGS_AT)
    }

    // The next question leaves the bindings as they are, where no line says otherwise.
    fn renew(&mut self)
        ensures { self.new ≡ renewed self.old }
    {
        let bindings = self.bindings();
        copy(&mut self.words, LEFT_AT, &bindings, 0, MAX_VARS);
    }

    // A binding that the next question makes.
    #[tactic(auto, unfolding(crate::specs::Inner::Lines::binds_line))]
    fn binds(&mut self, numbers: &[u64]) -> Verdict
        ensures { (self.new, result) ≡ binds_line self.old numbers.now }
    {
        let &[variable, bound] = numbers else {
            return Verdict::NotOfForm;
        };
        if !self.progress.complete() {
            return Verdict::NotOfForm;
        }
        if (self.progress.total.variables as u64) <= variable {
            return Verdict::NotOfForm;
        }
        let Ok(bound) = u16::try_from(bound) else {
            return Verdict::NotOfForm;
        };
        put(&mut self.words, LEFT_AT + (variable as usize), bound);
        Verdict::Quiet
    }

    // A question about two places of a complete list. The entry works on bindings of its own.
    #[tactic(auto, unfolding(crate::specs::Inner::Lines::ask_line))]
    fn answer(&mut self, numbers: &[u64]) -> Verdict
        ensures { (self.new, result) ≡ ask_line self.old numbers.now }
    {
        let &[lhs, rhs, recorded] = numbers else {
            return Verdict::NotOfForm;
        };
        if !self.progress.complete() {
            return Verdict::NotOfForm;
        }
        let Ok(lhs) = u16::try_from(lhs) else {
            return Verdict::NotOfForm;
        };
        let Ok(rhs) = u16::try_from(rhs) else {
            return Verdict::NotOfForm;
        };
        let mut bindings = self.bindings();
        let got = ask(&self.words, self.progress.total, &mut bindings, lhs, rhs);
        let verdict = judge(&self.words, &bindings, got, recorded);
        self.renew();
        verdict
    }
}

impl Recorded for RecordedUnify {
    ghost use Rattle.recorded_unify.specs.Inner.Lines.{complete, letter_of, by_letter};

    ghost step = { λ s letter numbers. by_letter (letter_of letter) s numbers };

    ghost complete = { λ s. complete s.progress };

    #[tactic(auto, unfolding(crate::specs::Inner::Lines::by_letter))]
    fn replay(&mut self, letter: u8, numbers: &[u64]) -> Verdict {
        // kept: a match and no table of functions: each arm has a contract of its own; those of a table share one.
        match Letter::from(letter) {
            Letter::List => self.begin(numbers),
            Letter::Row(part) => self.row(part, numbers),
            Letter::Words(part) => {
                let verdict = self.run(part, numbers);
                self.renew();
                verdict
            }
            Letter::Binds => self.binds(numbers),
            Letter::Asks => self.answer(numbers),
            Letter::Other => Verdict::NotOfForm,
        }
    }

    fn is_complete(&self) -> bool {
        self.progress.complete()
    }
}
