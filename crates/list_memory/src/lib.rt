// A list of the text format (docs/FORMAT.md) as it is being read: which word of one array is what (specs/Memory.antt
// says it too), and what comes of a line.
#![tactic(auto)]

ghost use Rattle.std.specs.Prelude.{◌≡◌, ◌≤◌};
ghost use Rattle.list_memory.specs.Memory.{rows_given};
ghost use Rattle.list_memory.specs.Layouts.{table_number, slice_number, stage_number, last_number, layout_of};

use inference::{
    CHOICE_WORDS, CONSTRAINT_WORDS, MAX_COMPONENTS, MAX_CONSTRAINTS, MAX_EXPRS, MAX_OVERLOADS,
    MAX_SOURCES, NAME_WORDS, OVERLOAD_WORDS, SCRATCH_WORDS, TYPING_WORDS,
};
use resolved_sort::{ENTRIES_AT, MAX_ENTRIES, MAX_SORTS, ROW_WORDS, SLOTS, SORT_WORDS};
use unification::{MAX_NODE_ENTRIES, MAX_NODES, MAX_VARS, NODE_ENTRIES_AT, NODE_WORDS};
use words::word;

// What was expected of a line that is not of the format.
#[derive(Clone, Copy, Debug, PartialEq, Eq)]
pub enum Form {
    // printable ASCII
    Printable,
    // at most 200 bytes
    Length,
    // `list` before anything else
    List,
    // a question before an answer
    Question,
    // `?`, `=` or `list` after a question
    Asked,
    // a word that begins a line
    Keyword,
    // the next name of its list
    Next,
    // `bare` alone, before any other sort
    Bare,
    // `sort sK List S`, `sort sK fn S ... -> S`, `sort sK Def N`, `sort sK unit`, `sort sK raw N N N N`
    Sort,
    // `node nK List P`, `node nK fn P ... -> P`, `node nK var vN`, `node nK raw N N N N`
    Node,
    // `entries N ...`
    Entries,
    // `node-entries N ...`
    NodeEntries,
    // `pad sorts N`, also `entries`, `nodes`, `node-entries`
    Pad,
    // `var vK nJ`
    Var,
    // `vars N`
    Vars,
    // `bind vN P`
    Bind,
    // a variable of a `var` or `vars` line above, with no `bind` line yet
    Unbound,
    // `expr eK P`
    Expr,
    // `name eN variable`, `name eN builtin`, `name eN op S`, `name eN raw N N`
    Name,
    // at most 512 base names
    Names,
    // `default S`
    Default,
    // `sub P P`
    Sub,
    // `lit P positive`, `lit P natural`
    Lit,
    // `comprehension P P S`
    Comprehension,
    // `disjunction eN P`
    Disjunction,
    // `overload variable P`, `overload builtin P`, `overload op S P`, `overload raw N N N`
    Overload,
    // `join P P ...`
    Join,
    // `sources P ...`
    Sources,
    // `constraint N N N N N`
    Constraint,
    // `count WHAT N`
    Count,
    // `lend WHAT N`
    Lend,
    // no `ceilings` line, which is for the oracle only
    Ceilings,
    // `? solve`, `? unify P P`, `? join S S`, also `partial_cmp`, `meet`, `widening_distance`, `is_materializable`
    Asks,
}

// What comes of a line of the format: nothing to say, a new list, the question `? solve`, or another question.
#[derive(Clone, Copy, Debug, PartialEq, Eq)]
pub enum Heard {
    Quiet,
    Begins,
    Asks,
    AsksOther,
}

// The tables of rows that a list has.
#[derive(Clone, Copy, Debug, PartialEq, Eq)]
pub enum Table {
    Sorts,
    Entries,
    Nodes,
    NodeEntries,
    Vars,
    Exprs,
    Names,
    Constraints,
    Overloads,
    Sources,
}

// The slices that a call of the solver is lent.
#[derive(Clone, Copy, Debug, PartialEq, Eq)]
pub enum Slice {
    Sorts,
    Nodes,
    Bindings,
    Exprs,
    Names,
    Constraints,
    Overloads,
    Sources,
    Scratch,
    Index,
    Typing,
    Measure,
    Choices,
}

// How far a list is read: no list yet, lines of the list may come, a question was asked, a line was not of the format.
// kept: a word of the list, which is no Option, and no field beside the list: the definitions of a line take and give
// the list as one list of words (`line_taken` and all under it), and each would take and give a field besides.
#[derive(Clone, Copy, Debug, PartialEq, Eq)]
pub enum Stage {
    NoList,
    Reading,
    Asked,
    Bad,
}

// The last constraint line: overloads may follow a disjunction, and sources a join.
// kept: Other and no None: it is a word of the list as the stage is, and no field for the same reason.
#[derive(Clone, Copy, Debug, PartialEq, Eq)]
pub enum LastConstraint {
    Other,
    Disjunction,
    Join,
}

// Where the rows of a table begin, how many words a row has, and how many rows are kept.
#[derive(Clone, Copy, Debug, PartialEq, Eq)]
pub struct Layout {
    pub start: u16,
    pub width: u16,
    pub ceiling: u16,
}

impl Table {
    pub fn number(self) -> usize
        ensures number { result ≡ table_number self }
        ensures within { result ≤ 9 }
    {
        self as usize
    }

    #[tactic(auto, unfolding(crate::specs::Layouts::layout_of))]
    pub fn layout(self) -> Layout
        ensures layout { result ≡ layout_of self }
        ensures narrow { result.width ≤ 5 }
    {
        let (start, width, ceiling) = match self {
            Table::Sorts => (LIST_SORTS_AT, ROW_WORDS, MAX_SORTS),
            Table::Entries => (LIST_SORTS_AT + ENTRIES_AT, 1, MAX_ENTRIES),
            Table::Nodes => (LIST_NODES_AT, ROW_WORDS, MAX_NODES),
            Table::NodeEntries => (LIST_NODES_AT + NODE_ENTRIES_AT, 1, MAX_NODE_ENTRIES),
            Table::Vars => (LIST_BINDS_AT, 1, MAX_VARS),
            Table::Exprs => (LIST_EXPRS_AT, 1, MAX_EXPRS),
            Table::Names => (LIST_NAMES_AT, NAME_WORDS, MAX_NAMES),
            Table::Constraints => (LIST_CONSTRAINTS_AT, CONSTRAINT_WORDS, MAX_CONSTRAINTS),
            Table::Overloads => (LIST_OVERLOADS_AT, OVERLOAD_WORDS, MAX_OVERLOADS),
            Table::Sources => (LIST_SOURCES_AT, 1, MAX_SOURCES),
        };
        Layout {
            start: start as u16,
            width: width as u16,
            ceiling: ceiling as u16,
        }
    }
}

// The rows given of a table.
pub fn rows_given(list: &[u16], table: Table) -> u16
    ensures { result ≡ rows_given list.now (table_number table) }
{
    word(list, ROWS_AT + table.number())
}

impl Slice {
    pub fn number(self) -> usize
        ensures number { result ≡ slice_number self }
        ensures within { result ≤ 12 }
    {
        self as usize
    }
}

// The word that tells a stage.
impl From<Stage> for u16 {
    ghost from_gives = { λ stage word. word ≡ stage_number stage };

    fn from(stage: Stage) -> u16 {
        stage as u16
    }
}

// The word that tells what the last constraint line is.
impl From<LastConstraint> for u16 {
    ghost from_gives = { λ last word. word ≡ last_number last };

    fn from(last: LastConstraint) -> u16 {
        last as u16
    }
}

// The program holds so many base names.
pub const MAX_NAMES: usize = 512;

// How many words the slices of a call have at their ceilings, where that is not the ceiling itself.
pub const LIST_NAME_WORDS: usize = NAME_WORDS * MAX_NAMES;

pub const LIST_CONSTRAINT_WORDS: usize = CONSTRAINT_WORDS * MAX_CONSTRAINTS;

pub const LIST_OVERLOAD_WORDS: usize = OVERLOAD_WORDS * MAX_OVERLOADS;

pub const LIST_TYPING_WORDS: usize = TYPING_WORDS * MAX_EXPRS;

pub const LIST_CHOICE_WORDS: usize = CHOICE_WORDS * MAX_CONSTRAINTS;

// Where the slices of a call begin, one behind the other.
// kept: one array and no field for each table: what storing a row does would be said once for each of ten fields.
pub const LIST_SORTS_AT: usize = 0;

pub const LIST_NODES_AT: usize = LIST_SORTS_AT + SORT_WORDS;

pub const LIST_BINDS_AT: usize = LIST_NODES_AT + NODE_WORDS;

pub const LIST_EXPRS_AT: usize = LIST_BINDS_AT + MAX_VARS;

pub const LIST_NAMES_AT: usize = LIST_EXPRS_AT + MAX_EXPRS;

pub const LIST_CONSTRAINTS_AT: usize = LIST_NAMES_AT + LIST_NAME_WORDS;

pub const LIST_OVERLOADS_AT: usize = LIST_CONSTRAINTS_AT + LIST_CONSTRAINT_WORDS;

pub const LIST_SOURCES_AT: usize = LIST_OVERLOADS_AT + LIST_OVERLOAD_WORDS;

pub const LIST_TYPING_AT: usize = LIST_SOURCES_AT + MAX_SOURCES;

pub const LIST_MEASURE_AT: usize = LIST_TYPING_AT + LIST_TYPING_WORDS;

pub const LIST_CHOICES_AT: usize = LIST_MEASURE_AT + MAX_COMPONENTS;

pub const LIST_SCRATCH_AT: usize = LIST_CHOICES_AT + LIST_CHOICE_WORDS;

pub const LIST_INDEX_AT: usize = LIST_SCRATCH_AT + SCRATCH_WORDS;

// Behind the slices: the rows given of each list; the default sort; the count that a `count` line tells of each list,
// and whether one told it; the length that a `lend` line tells of each slice, and whether one told it; how far the list
// is read; and the kind of the last constraint line. A few words more are free.
// kept: that a line told it is a word beside each count and length, and no Option: all are words of the list, as Stage
// is and for its reason; list_call::told reads both as an Option.
pub const ROWS_AT: usize = LIST_INDEX_AT + SLOTS;

pub const DEFAULT_AT: usize = ROWS_AT + 10;

pub const COUNTS_AT: usize = DEFAULT_AT + 1;

pub const COUNTS_TOLD_AT: usize = COUNTS_AT + 10;

pub const LENT_AT: usize = COUNTS_TOLD_AT + 10;

pub const LENT_TOLD_AT: usize = LENT_AT + 13;

pub const STAGE_AT: usize = LENT_TOLD_AT + 13;

pub const LAST_AT: usize = STAGE_AT + 1;

pub const LIST_WORDS: usize = 36160;

// Counts of rows stop here.
pub const MOST_ROWS: u16 = 65535;
