// The constraints of merc's inference.rs and the solver's outcome: the types that definitions,
// contracts and code speak of.
#![tactic(auto)]

ghost use Rattle.std.specs.Prelude.{◌≡◌, Ok};
ghost use Rattle.inference.specs.Kinds.{kind_of_name, kind_of_literal};
ghost use Rattle.inference.specs.SolveEntry.{code_solved};

use resolved_sort::{Counts, Run, SortId};
use unification::InferSortId;

// The number of an expression.
#[derive(Clone, Copy, Debug, PartialEq, Eq)]
pub struct ExprId(pub u16);

// What a name resolved to: a variable in scope, an operation with its sort, or a built-in.
// A variable is one of the equation's, a parameter or global of the process, or a binder. An operation is a declared
// constructor or mapping. A built-in is polymorphic: its sort follows from the inferred sorts of its arguments.
#[derive(Clone, Copy, Debug, PartialEq, Eq)]
pub enum NameTarget {
    Variable,
    Op(SortId),
    Builtin,
}

// The kinds of names and overloads, as their rows have them. Only an operation has a sort, in a word of its own.
// kept: beside NameTarget, whose Op holds a sort: a row has the kind and the sort as two words.
#[derive(Clone, Copy, Debug, PartialEq, Eq)]
pub enum NameKind {
    Variable = 1,
    Op = 2,
    Builtin = 3,
}

// The kind of a number literal: `0` is natural, every other literal positive.
#[derive(Clone, Copy, Debug, PartialEq, Eq)]
pub enum LitKind {
    Positive,
    Natural,
}

// A word that is no kind of a name, of a literal or of a constraint.
#[derive(Clone, Copy, Debug, PartialEq, Eq)]
pub struct UnknownKind(pub u16);

impl TryFrom<u16> for NameKind {
    type Error = UnknownKind;

    ghost try_from_gives = { λ word kind. kind ≡ kind_of_name word };

    fn try_from(word: u16) -> Result<Self, UnknownKind> {
        match word {
            1 => Ok(NameKind::Variable),
            2 => Ok(NameKind::Op),
            3 => Ok(NameKind::Builtin),
            _ => Err(UnknownKind(word)),
        }
    }
}

impl TryFrom<u16> for LitKind {
    type Error = UnknownKind;

    ghost try_from_gives = { λ word kind. kind ≡ kind_of_literal word };

    fn try_from(word: u16) -> Result<Self, UnknownKind> {
        match word {
            0 => Ok(LitKind::Positive),
            1 => Ok(LitKind::Natural),
            _ => Err(UnknownKind(word)),
        }
    }
}

// One overload of a name: what it resolves to, and the place of its sort.
#[derive(Clone, Copy, Debug, PartialEq, Eq)]
pub struct Overload {
    pub target: NameTarget,
    pub sort: InferSortId,
}

// One constraint, solved in the order of the list. Disjuncts and sources are runs where the Rust has a Vec.
// The kinds are interleaved, and that keeps the search tractable: merc lists the arguments of an application before its
// callee, so when the callee's overloads are tried the argument sorts are bound, and most overloads fail to unify at
// once.
// Sub: the sort of `lhs` is a subsort of `rhs`, for the upcasts that mCRL2 inserts (a Nat argument where Int is
// expected). Lit: a number sort that admits the literal. Disjunction: the overloads of a name that has several; a
// solution commits to one.
// Comprehension: `{ x: S | e }` is a Set(S) where the body e is Bool, and a Bag(S) where it is Nat or Pos, a
// multiplicity.
// Join: the target is the least common supersort of the sources. Merc makes one of all Subs that widen into one free
// variable, since one at a time they depend on their order: the first source binds the variable by equality, so that a
// set literal's FSet fixes it before a source is typed that admits only Set. The Join finds the common supersort in one
// step.
#[derive(Clone, Copy, Debug, PartialEq, Eq)]
pub enum Constraint {
    Sub {
        lhs: InferSortId,
        rhs: InferSortId,
    },
    Lit {
        sort: InferSortId,
        kind: LitKind,
    },
    Disjunction {
        expr: ExprId,
        sort: InferSortId,
        disjuncts: Run,
    },
    Comprehension {
        body: InferSortId,
        node: InferSortId,
        element: SortId,
    },
    Join {
        sources: Run,
        target: InferSortId,
    },
}

// How many rows the lists beside sorts, nodes and bindings have. Base names have no ceiling.
#[derive(Clone, Copy, Debug, PartialEq, Eq)]
pub struct Rows {
    pub exprs: u16,
    pub names: usize,
    pub constraints: u16,
    pub overloads: u16,
    pub sources: u16,
}

// How many sorts and argument entries there are after a call, and how many components and choices it handed out.
#[derive(Clone, Copy, Debug, PartialEq, Eq)]
pub struct Outputs {
    pub counts: Counts,
    pub components: u16,
    pub choices: u16,
}

// What a search that had room comes to: a typing; no leaf; or a least measure that was met more than once.
#[derive(Clone, Copy, Debug, PartialEq, Eq)]
pub enum Verdict {
    Typing(Outputs),
    NoTyping(Counts),
    Ambiguous(Counts),
}

impl Verdict {
    // Its number in document 01.
    #[tactic(auto, unfolding(crate::specs::SolveEntry::code_solved))]
    pub fn code(self) -> u16
        ensures { result ≡ code_solved (Ok self) }
    {
        match self {
            Verdict::Typing(_) => 0,
            Verdict::NoTyping(_) => 17,
            Verdict::Ambiguous(_) => 18,
        }
    }
}

// Ceilings of document 01, and the words of scratch.
pub const MAX_EXPRS: usize = 512;

pub const MAX_CONSTRAINTS: usize = 256;

pub const MAX_OVERLOADS: usize = 1024;

pub const MAX_SOURCES: usize = 256;

pub const MAX_COMPONENTS: usize = 256;

pub const SCRATCH_WORDS: usize = 4096;

// The words of a row of constraints, of overloads and of base names, and of a row handed out for an expression and for
// a choice.
pub const CONSTRAINT_WORDS: usize = 5;

pub const OVERLOAD_WORDS: usize = 3;

pub const NAME_WORDS: usize = 3;

pub const TYPING_WORDS: usize = 3;

pub const CHOICE_WORDS: usize = 2;
