// The lists of a problem in words: rows of constraints and of names read, in lists of their own or in the one slice that
// all are packed into.
#![tactic(auto)]

ghost use Rattle.std.specs.Prelude.{◌≡◌, ◌+◌, drop};
ghost use Rattle.inference.specs.Constraints.{overload_at, lit_kind, target, constraint, constraint_at};
ghost use Rattle.search_state.specs.Inner.Memory.{overloads_at, source_at};
ghost use Rattle.problem_words.specs.Kinds.{kind_of};

use inference::{
    CONSTRAINT_WORDS, Constraint, ExprId, LitKind, NameKind, NameTarget, OVERLOAD_WORDS,
    UnknownKind,
};
use resolved_sort::{Run, SortId};
use search_state::{OVERLOADS_AT, SOURCES_AT};
use unification::InferSortId;
use words::word;

// The kinds of constraints, by the first word of a row.
// kept: beside inference's Constraint, which has these names: a case of that is made of all words of a row, and this one
// tells from the first alone what the others are.
#[derive(Clone, Copy, Debug, PartialEq, Eq)]
pub enum ConstraintKind {
    Sub,
    Lit,
    Disjunction,
    Comprehension,
    Join,
}

impl TryFrom<u16> for ConstraintKind {
    type Error = UnknownKind;

    ghost try_from_gives = { λ word kind. kind ≡ kind_of word };

    fn try_from(word: u16) -> Result<Self, UnknownKind> {
        match word {
            0 => Ok(ConstraintKind::Sub),
            1 => Ok(ConstraintKind::Lit),
            2 => Ok(ConstraintKind::Disjunction),
            3 => Ok(ConstraintKind::Comprehension),
            4 => Ok(ConstraintKind::Join),
            _ => Err(UnknownKind(word)),
        }
    }
}

// The place of the j-th source.
pub fn source_at(lists: &[u16], j: u16) -> InferSortId
    ensures { result.0 ≡ source_at lists.now j }
{
    InferSortId(word(lists, SOURCES_AT + (j as usize)))
}

// The place of the i-th overload's sort.
pub fn overload_place(lists: &[u16], i: u16) -> InferSortId
    ensures { result.0 ≡ (overload_at (drop overloads_at lists.now) i).sort.0 }
{
    InferSortId(word(lists, OVERLOADS_AT + (OVERLOAD_WORDS * (i as usize) + 2)))
}

// The kind of a literal. A word that is no kind says natural: that it is one is check 9's to show.
#[tactic(auto, using(crate::proofs::Said::literal_said))]
fn lit_kind(word: u16) -> LitKind
    ensures { result ≡ lit_kind word }
{
    LitKind::try_from(word).unwrap_or(LitKind::Natural)
}

// What a name stands for. A word that is no kind says built-in: that it is one is for checks 8 and 9 to show.
// kept: a function and no From, since two words of a row say it, and NameTarget is no type of this crate.
pub fn name_target(kind: u16, sort: u16) -> NameTarget
    ensures { result ≡ target kind sort }
{
    match NameKind::try_from(kind).unwrap_or(NameKind::Builtin) {
        NameKind::Variable => NameTarget::Variable,
        NameKind::Op => NameTarget::Op(SortId(sort)),
        NameKind::Builtin => NameTarget::Builtin,
    }
}

// What the words of a constraint say. A word that is no kind says Join: that it is a kind is check 9's to show.
fn constraint_of(kind: u16, a: u16, b: u16, c: u16, d: u16) -> Constraint
    ensures { result ≡ constraint kind a b c d }
{
    match ConstraintKind::try_from(kind).unwrap_or(ConstraintKind::Join) {
        ConstraintKind::Sub => Constraint::Sub {
            lhs: InferSortId(a),
            rhs: InferSortId(b),
        },
        ConstraintKind::Lit => Constraint::Lit {
            sort: InferSortId(a),
            kind: lit_kind(b),
        },
        ConstraintKind::Disjunction => Constraint::Disjunction {
            expr: ExprId(a),
            sort: InferSortId(b),
            disjuncts: Run { start: c, count: d },
        },
        ConstraintKind::Comprehension => Constraint::Comprehension {
            body: InferSortId(a),
            node: InferSortId(b),
            element: SortId(c),
        },
        ConstraintKind::Join => Constraint::Join {
            sources: Run { start: b, count: c },
            target: InferSortId(a),
        },
    }
}

// The i-th constraint.
pub fn constraint_at(constraints: &[u16], i: u16) -> Constraint
    ensures { result ≡ constraint_at constraints.now i }
{
    let row = CONSTRAINT_WORDS * (i as usize);
    let kind = word(constraints, row);
    let a = word(constraints, row + 1);
    let b = word(constraints, row + 2);
    let c = word(constraints, row + 3);
    let d = word(constraints, row + 4);
    constraint_of(kind, a, b, c, d)
}
