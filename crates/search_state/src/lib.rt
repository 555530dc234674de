// The state of the search of merc's inference.rs: the types that its definitions, contracts and code speak of.
#![tactic(auto)]

ghost use Rattle.std.specs.Prelude.{◌≤◌, length};
ghost use Rattle.search_state.specs.Inner.Memory.{scratch_used};

use resolved_sort::SortId;
use unification::{InferSortId, Lengths};

// How many rows the lists of a problem have, how many components and choices a leaf has, and the default sort.
#[derive(Clone, Copy, Debug, PartialEq, Eq)]
pub struct Sizes {
    pub exprs: u16,
    pub constraints: u16,
    pub overloads: u16,
    pub sources: u16,
    pub components: u16,
    pub disjunctions: u16,
    pub default: SortId,
}

// The leaf with the least measure so far, the Rust's Candidate: its measure, sorts and choices stand in the scratch.
// They are read out at the leaf, because backtracking takes back the bindings that they are read from. An incumbent
// that is tied and never beaten means that the list is ambiguous.
#[derive(Clone, Copy, Debug, PartialEq, Eq)]
pub struct Incumbent {
    pub tied: bool,
}

// What the search works on: the lent sorts with their index, nodes and bindings with how much of them is in use, the
// scratch, the lists of the problem with their sizes, and the incumbent. The scratch has room for its blocks at all times.
// kept: free functions take it, since several crates work on it and none can write an impl for another's struct.
// kept: five lent slices and no Storage: tried, and the words of a &mut slice in a struct within this one are lost to
// every fact where that struct's borrow ends.
// kept: other facts (Searching, AtLeaf, Sized, CanTry, CanHandOut) are asked for by contracts, since each speaks of a
// branch, a step or an output as well, or holds only at some points of a search.
#[derive(Drop)]
pub struct Search<'a> {
    pub sorts: &'a mut [u16],
    pub index: &'a mut [u16],
    pub nodes: &'a mut [u16],
    pub binds: &'a mut [u16],
    pub scratch: &'a mut [u16],
    pub lists: &'a [u16],
    pub sizes: Sizes,
    pub lengths: Lengths,
    pub best: Option<Incumbent>,
    ghost room: { scratch_used ≤ length scratch.now },
}

// What a branch has taken on: how many variables are on the trail, and how many components and choices there are.
// It goes by value: what a try adds is gone when the try is over, and no push needs a pop.
#[derive(Clone, Copy, Debug, PartialEq, Eq)]
pub struct Branch {
    pub trail: u16,
    pub measure: u16,
    pub choices: u16,
}

// What comes next, where the Rust hands a closure to solve_widening: the constraints from a number on; or the sources
// `from` .. `to` of a Join, widened to its target, and then the constraints from `then` on.
// kept: a value, as document 01 has it in place of the closure: a cycle of calls through one gets no generated proof.
#[derive(Clone, Copy, Debug, PartialEq, Eq)]
pub enum Next {
    Solve(u16),
    Source {
        target: InferSortId,
        from: u16,
        to: u16,
        then: u16,
    },
}

// The places that a try makes equal: two, or two and then two more.
// kept: one or two by name: a slice would be lent through the cycle, whose contracts would speak of its words too.
#[derive(Clone, Copy, Debug, PartialEq, Eq)]
pub enum Pairs {
    One(InferSortId, InferSortId),
    Two(InferSortId, InferSortId, InferSortId, InferSortId),
}

// What a try adds to its branch: nothing; a component; components that stand in the scratch already; the position of an
// overload.
// kept: a closure in its place would go through the cycle of calls, as in Next.
#[derive(Clone, Copy, Debug, PartialEq, Eq)]
pub enum Step {
    Nothing,
    Component(u16),
    Written(u16),
    Choice(u16),
}

// Tries one after another: each of the first `count` places against another one, on its left (up) or on its right, the
// first with the component `first`, each next with one more.
// kept: an array with its count, since there is no heap to hold a list and a slice made here has no owner.
#[derive(Clone, Copy, Debug, PartialEq, Eq)]
pub struct Tries {
    pub ids: [InferSortId; MAX_TRIES],
    pub count: u16,
    pub other: InferSortId,
    pub up: bool,
    pub first: u16,
}

// What stands at the place of a literal: a number sort that it may have, with its component; a free
// variable; or anything else.
// kept: three cases, each with its name, are plainer than an Option of an Option.
#[derive(Clone, Copy, Debug, PartialEq, Eq)]
pub enum LitAt {
    Number(u16),
    Free,
    Other,
}

// At most as many tries as there are number sorts.
pub const MAX_TRIES: usize = 4;

// The lists of a problem in one slice, each at its ceiling: constraints first, then overloads,
// sources and places of expressions.
pub const OVERLOADS_AT: usize = 1280;

pub const SOURCES_AT: usize = 4352;

pub const EXPRS_AT: usize = 4608;

pub const PROBLEM_WORDS: usize = 5120;

// The blocks of the scratch: the trail first, then the incumbent's sorts, the running measure, the
// incumbent's, the running choices, the incumbent's.
pub const TRAIL_WORDS: usize = 512;

pub const BEST_SORTS_AT: usize = 512;

pub const MEASURE_AT: usize = 1024;

pub const BEST_MEASURE_AT: usize = 1280;

pub const CHOICES_AT: usize = 1536;

pub const BEST_CHOICES_AT: usize = 1792;
