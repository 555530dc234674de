// The sorts of merc's resolved_sort.rs: the types that definitions, contracts and code speak of.
#![tactic(auto)]

ghost use Rattle.std.specs.Prelude.{◌≡◌};
ghost use Rattle.resolved_sort.specs.declared.Refusal.TheVariants.{SortsFull};
ghost use Rattle.resolved_sort.specs.Checks.{code_of};
ghost use Rattle.resolved_sort.specs.Tree.{primitive};
ghost use Rattle.resolved_sort.specs.Storage.{kind_flat, kind_op, container_of};

// The number of a sort in the sort list. A type of its own, as the Rust's ResolvedSortId: sort, node, variable and
// expression numbers do not mix.
// Sorts are interned: two numbers are equal exactly if their sorts are, so to compare sorts is to compare two numbers.
#[repr(C)]
#[derive(Clone, Copy, Debug, PartialEq, Eq)]
pub struct SortId(pub u16);

// The built-in primitive sorts, merc_syntax::Sort.
#[derive(Clone, Copy, Debug, PartialEq, Eq)]
pub enum Sort {
    Bool,
    Pos,
    Nat,
    Int,
    Real,
}

// The container constructors, merc_syntax::ComplexSort.
#[derive(Clone, Copy, Debug, PartialEq, Eq)]
pub enum ComplexSort {
    List,
    Set,
    FSet,
    Bag,
    FBag,
}

// A run of argument entries: where it starts in the entry list, and how many it has.
#[derive(Clone, Copy, Debug, PartialEq, Eq)]
pub struct Run {
    pub start: u16,
    pub count: u16,
}

// What a row of the sort list says. The domain of a function is a run where the Rust has a Vec.
// Parts are numbers, so a row is small. Unit has a single element and is the result of an action in merc; it has no
// surface syntax, so it is none of the primitive sorts. Def is nominal, by its declaration: two are equal only where
// that is the same, and else unrelated. TypeVar is bound by the polymorphic specification that introduces it; one
// number is one variable.
#[derive(Clone, Copy, Debug, PartialEq, Eq)]
pub enum ResolvedSort {
    Unit,
    Primitive(Sort),
    Container { op: ComplexSort, subsort: SortId },
    Function { domain: Run, range: SortId },
    Def(u16),
    TypeVar(u16),
}

// How far the first sort is below the second: the steps at the sorts' own head, and those beneath it.
#[derive(Clone, Copy, Debug, PartialEq, Eq)]
pub struct Steps {
    pub head: u8,
    pub interior: u8,
}

// A new sort would exceed the ceilings of document 01: code 15.
#[derive(Clone, Copy, Debug, PartialEq, Eq)]
pub struct NoRoom;

// Why an entry gives no answer: a check that fails, by its number in document 01, or the room that ended.
#[derive(Clone, Copy, Debug, PartialEq, Eq)]
pub enum Refusal {
    // A given list is above its ceiling or longer than the storage lent for it.
    NotLent = 1,
    // The first six sorts are not the fixed six in order.
    NotFixedSix = 2,
    // A sort has an unknown kind or container, more than 16 arguments, a run leaving its list, or a part not numbered
    // below it.
    BadSort = 3,
    // Two sorts of the list are equal.
    EqualSorts = 4,
    // A node has an unknown kind, more than 16 arguments, a run leaving its list, a variable not below the variable
    // count, or a part that is neither a sort nor a lower node.
    BadNode = 5,
    // A binding names neither a sort nor a node.
    BadBinding = 6,
    // Some variable reaches itself through bindings and node parts.
    Cyclic = 7,
    // An expression's place, a base name's key, kind or sort names nothing.
    BadExpression = 8,
    // A constraint has an unknown kind, literal kind or overload kind, a run leaving its list, or a place, expression,
    // element sort, overload place or target sort that names nothing.
    BadConstraint = 9,
    // Two disjunctions, or two base names, are for one expression.
    TwoForOne = 10,
    // A Join has no sources, or there would be more than 256 measure components.
    BadJoin = 11,
    // The default sort, or a sort or place asked about, is not in its list.
    NotInList = 12,
    // A sort to be written as text holds unit, Def, TypeVar or a function without arguments.
    NoText = 13,
    // An output or the scratch is too short.
    TooShort = 14,
    // A new distinct sort would exceed 1,024 sorts or 4,096 entries.
    SortsFull = 15,
    // In the search a new node would exceed 2,048 nodes or 4,096 entries.
    NodesFull = 16,
    // A text line is above 200 bytes, its LF not counted.
    LongLine = 19,
}

impl Refusal {
    // Its number in document 01.
    #[tactic(auto, unfolding(crate::specs::Checks::code_of))]
    pub fn code(self) -> u16
        ensures { result ≡ code_of self }
    {
        self as u16
    }
}

// A kind of rows that is no container's.
#[derive(Clone, Copy, Debug, PartialEq, Eq)]
pub struct NoContainer(pub u16);

impl From<Sort> for u16 {
    ghost from_gives = { λ sort kind. kind ≡ kind_flat (primitive sort) };

    // The kind of a primitive sort's row, which is also the number of that sort in every list.
    #[tactic(auto, unfolding(crate::specs::Storage::kind_flat))]
    fn from(sort: Sort) -> Self {
        FIRST_PRIMITIVE + (sort as u16)
    }
}

impl From<ComplexSort> for u16 {
    ghost from_gives = { λ op kind. kind ≡ kind_op op };

    // The kind of a container's row. Two operators never share one.
    #[tactic(auto, unfolding(crate::specs::Storage::kind_op))]
    fn from(op: ComplexSort) -> Self {
        FIRST_CONTAINER + (op as u16)
    }
}

impl TryFrom<u16> for ComplexSort {
    type Error = NoContainer;

    ghost try_from_gives = { λ kind op. op ≡ container_of kind };

    fn try_from(kind: u16) -> Result<Self, NoContainer> {
        match kind {
            6 => Ok(ComplexSort::List),
            7 => Ok(ComplexSort::Set),
            8 => Ok(ComplexSort::FSet),
            9 => Ok(ComplexSort::Bag),
            10 => Ok(ComplexSort::FBag),
            _ => Err(NoContainer(kind)),
        }
    }
}

impl From<NoRoom> for Refusal {
    ghost from_gives = { λ _ e. e ≡ SortsFull };

    fn from(_no_room: NoRoom) -> Self {
        Refusal::SortsFull
    }
}

// How much of the sort storage is in use: rows, and argument entries.
#[derive(Clone, Copy, Debug, PartialEq, Eq)]
pub struct Counts {
    pub sorts: u16,
    pub entries: u16,
}

// Ceilings of document 01: sorts, argument entries, and arguments of a function. Sort numbers are below SORT_NUMBERS,
// and the arguments of a function stand in ARGUMENT_WORDS.
pub const MAX_SORTS: usize = 1024;

pub const SORT_NUMBERS: u16 = 1024;

pub const MAX_ENTRIES: usize = 4096;

// The fixed six sorts stand at the front of every list, each of the kind that is its number.
pub const FIXED_SORTS: u16 = 6;

pub const MAX_ARGUMENTS: u16 = 16;

pub const ARGUMENT_WORDS: usize = 16;

// The words of a row of sorts or nodes: kind, part, start and count.
pub const ROW_WORDS: usize = 4;

// Where the argument entries begin in the lent words, behind the rows, and how many words are lent at the full ceiling.
pub const ENTRIES_AT: usize = 4096;

pub const SORT_WORDS: usize = 8192;

// The slots of the index of sorts, each a word.
pub const SLOTS: usize = 2048;

// The kinds of rows: below FIRST_CONTAINER those without a part, unit and the primitive sorts; then containers, a
// function, Def and TypeVar.
// kept: kinds are numbers, since the layout of the lent words is the C interface.
pub const FIRST_PRIMITIVE: u16 = 1;

pub const FIRST_CONTAINER: u16 = 6;

pub const FUNCTION_KIND: u16 = 11;

pub const DEF_KIND: u16 = 12;

pub const LAST_KIND: u16 = 13;

// Where the sums of a distance stop.
pub const MOST_STEPS: u8 = 255;
