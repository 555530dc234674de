// Sort text in mCRL2 spelling: its words, and why a line is not read. A refusal is the first failing check of document
// 01.
#![tactic(auto)]

ghost use Rattle.std.specs.Prelude.{◌≡◌};
ghost use Rattle.sort_text.specs.Parse.{sort_word, op_word};
ghost use Rattle.sort_text.specs.declared.Unread.TheVariants.{Refused, NoRoom};

use resolved_sort::{ComplexSort, NoRoom, Refusal, Sort};

// The word of a basic sort.
#[tactic(auto, unfolding(crate::specs::Parse::sort_word))]
pub fn sort_word(sort: Sort) -> &'static [u8]
    ensures { result.now ≡ sort_word sort }
{
    match sort {
        Sort::Bool => b"Bool",
        Sort::Pos => b"Pos",
        Sort::Nat => b"Nat",
        Sort::Int => b"Int",
        Sort::Real => b"Real",
    }
}

// The word of a container.
#[tactic(auto, unfolding(crate::specs::Parse::op_word))]
pub fn op_word(op: ComplexSort) -> &'static [u8]
    ensures { result.now ≡ op_word op }
{
    match op {
        ComplexSort::List => b"List",
        ComplexSort::Set => b"Set",
        ComplexSort::FSet => b"FSet",
        ComplexSort::Bag => b"Bag",
        ComplexSort::FBag => b"FBag",
    }
}

// Why a line is not read: a check failed; the line is no sort, with the position of its unread end (20); or a new sort
// had no room (15).
// kept: NoRoom beside Refused(SortsFull), since a check that failed leaves the words as they are given, where want of room
// puts them back: their clauses differ.
#[derive(Clone, Copy, Debug, PartialEq, Eq)]
pub enum Unread {
    Refused(Refusal),
    NotASort(usize),
    NoRoom,
}

impl From<Refusal> for Unread {
    ghost from_gives = { λ refusal e. e ≡ Refused refusal };

    fn from(refusal: Refusal) -> Self {
        Unread::Refused(refusal)
    }
}

impl From<NoRoom> for Unread {
    ghost from_gives = { λ _ e. e ≡ NoRoom };

    fn from(_no_room: NoRoom) -> Self {
        Unread::NoRoom
    }
}

// A line of text has at most so many bytes, its LF not counted.
pub const MAX_LINE: usize = 200;

// The step of a function of k arguments is FUNCTION_STEP + k, and it has at most so many.
// kept: a number, since steps are bytes of a lent buffer, with zeros behind them; sort_reader tells them apart.
pub const FUNCTION_STEP: u8 = 16;

pub const MOST_ARGUMENTS: u8 = 16;
