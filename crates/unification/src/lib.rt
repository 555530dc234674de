// The unifier of merc's unification.rs: the types that definitions, contracts and code speak of.
#![tactic(auto)]

ghost use Rattle.std.specs.Prelude.{◌≡◌};
ghost use Rattle.unification.specs.declared.Full.TheVariants.{Sorts, Nodes};
ghost use Rattle.resolved_sort.specs.Tree.{primitive};
ghost use Rattle.resolved_sort.specs.Storage.{kind_flat};
ghost use Rattle.unification.specs.Full.{refusal_of};
ghost use Rattle.unification.specs.Nodes.{binding_of, bound_of};
ghost use Rattle.unification.specs.Resolve.{with_counts};
ghost use Rattle.unification.specs.Inner.Apart.{TakenApart};

use resolved_sort::{ComplexSort, Counts, NoRoom, Refusal, Run, Sort, SortId};

// A place, the Rust's InferSortId: an interned sort (below 1,024) or a node. The port has no Resolved node.
// Nodes, unlike sorts, are not interned: two may denote the same sort, and whether they do is for unify to decide.
#[repr(C)]
#[derive(Clone, Copy, Debug, PartialEq, Eq)]
pub struct InferSortId(pub u16);

// The number of an inference node.
#[derive(Clone, Copy, Debug, PartialEq, Eq)]
pub struct NodeId(pub u16);

// The number of a unification variable.
#[derive(Clone, Copy, Debug, PartialEq, Eq)]
pub struct SortVar(pub u16);

// A place taken apart.
#[derive(Clone, Copy, Debug, PartialEq, Eq)]
pub enum Place {
    Sort(SortId),
    Node(NodeId),
}

impl From<InferSortId> for Place {
    ghost from_gives = { λ id place. TakenApart id.0 place };

    // Takes a place apart: a sort below FIRST_NODE, else a node, counted from there. No other function does so.
    #[tactic(auto, unfolding(crate::specs::Inner::Apart::TakenApart))]
    fn from(id: InferSortId) -> Self {
        if id.0 < FIRST_NODE {
            return Place::Sort(SortId(id.0));
        }
        Place::Node(NodeId(id.0 - FIRST_NODE))
    }
}

impl From<SortId> for InferSortId {
    ghost from_gives = { λ sort id. id.0 ≡ sort.0 };

    // A sort's place.
    fn from(sort: SortId) -> Self {
        InferSortId(sort.0)
    }
}

impl From<Sort> for InferSortId {
    ghost from_gives = { λ sort id. id.0 ≡ kind_flat (primitive sort) };

    // The place of a primitive sort, which is a sort of every list: Bool, Pos, Nat, Int and Real are the sorts 1 to 5.
    fn from(sort: Sort) -> Self {
        InferSortId(u16::from(sort))
    }
}

// What a variable is bound to, by the word of its binding, unless it is free.
pub fn binding_of(word: u16) -> Option<InferSortId>
    ensures { bound_of result ≡ binding_of word }
{
    if word == FREE_WORD {
        return None;
    }
    Some(InferSortId(word))
}

// What a node says. Its parts are places, and the domain of a function is a run of places where the Rust has a Vec.
// A sort that may still hold variables. What is fully known is a sort number, a leaf; structure is spelled out only
// around the variables that inference has to solve, such as `List(?t)` for an empty list.
#[derive(Clone, Copy, Debug, PartialEq, Eq)]
pub enum InferSort {
    Generic {
        op: ComplexSort,
        subsort: InferSortId,
    },
    Function {
        domain: Run,
        range: InferSortId,
    },
    Var(SortVar),
}

// How much of the lent lists is in use: sorts and their argument entries, nodes and their argument
// entries, and variables.
#[derive(Clone, Copy, Debug, PartialEq, Eq)]
pub struct Lengths {
    pub sorts: u16,
    pub entries: u16,
    pub nodes: u16,
    pub arguments: u16,
    pub variables: u16,
}

impl Lengths {
    // The lengths with other sorts in use.
    pub fn with_counts(self, counts: Counts) -> Lengths
        ensures { result ≡ with_counts self counts }
    {
        Lengths {
            sorts: counts.sorts,
            entries: counts.entries,
            ..self
        }
    }
}

impl From<Lengths> for Counts {
    ghost from_gives = { λ lengths counts. counts ≡ record { sorts = lengths.sorts; entries = lengths.entries } };

    // The sorts in use.
    fn from(lengths: Lengths) -> Self {
        Counts {
            sorts: lengths.sorts,
            entries: lengths.entries,
        }
    }
}

// A new sort, or a new node, would exceed the ceilings of document 01: codes 15 and 16.
#[derive(Clone, Copy, Debug, PartialEq, Eq)]
pub enum Full {
    Sorts,
    Nodes,
}

impl From<NoRoom> for Full {
    ghost from_gives = { λ _ e. e ≡ Sorts };

    fn from(_no_room: NoRoom) -> Self {
        Full::Sorts
    }
}

impl From<Full> for Refusal {
    ghost from_gives = { λ full e. e ≡ refusal_of full };

    fn from(full: Full) -> Self {
        match full {
            Full::Sorts => Refusal::SortsFull,
            Full::Nodes => Refusal::NodesFull,
        }
    }
}

// Ceilings of document 01: nodes, their argument entries, variables. Node numbers are below NODE_NUMBERS.
pub const MAX_NODES: usize = 2048;

pub const NODE_NUMBERS: u16 = 2048;

pub const MAX_NODE_ENTRIES: usize = 4096;

pub const MAX_VARS: usize = 512;

// Places are the sorts and the nodes.
pub const MAX_PLACES: usize = 3072;

// The first place that is a node: below it are the sorts.
pub const FIRST_NODE: u16 = 1024;

// Where the argument entries begin in the lent words, behind the rows, and how many words are lent at the full ceiling.
// They begin so many words behind those of a sort list.
pub const NODE_ENTRIES_AT: usize = 8192;

pub const NODE_WORDS: usize = 12288;

pub const NODE_ENTRIES_BEHIND: u16 = 4096;

// The kind of a variable's row.
// kept: a number, since the layout of the lent words is the C interface.
pub const VARIABLE_KIND: u16 = 14;

// The binding of a free variable.
// kept: a word and no None, since the layout of the lent words is the C interface.
pub const FREE_WORD: u16 = 65535;
