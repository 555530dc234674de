// The words of a line of the text format.
#![tactic(auto)]

ghost use Rattle.std.specs.Prelude.{◌≡◌, ◌≤◌, drop, take};
ghost use Rattle.std.specs.Char.{is_ascii_digit};
ghost use Rattle.std.specs.List.{list_all};
ghost use Rattle.sort_text.specs.Tokens.{past};
ghost use Rattle.sort_lexer.specs.Inner.Lexeme.{offset};
ghost use Rattle.list_tokens.specs.Words.{spelling, keyword_of};
ghost use Rattle.list_tokens.specs.Tokens.{number_read, name_token, token_of, in_word};
ghost use Rattle.list_tokens.specs.Tokens.{tokens_of, is_printable, start_by, line_start};

use sort_lexer::{between, run_end, skip_spaces};

// The words of the format that are no number and no name with one.
#[derive(Clone, Copy, Debug, PartialEq, Eq)]
pub enum Keyword {
    List,
    Bare,
    Sort,
    Entries,
    Node,
    NodeEntries,
    Pad,
    Var,
    Vars,
    Bind,
    Expr,
    Name,
    Default,
    Ceilings,
    Count,
    Lend,
    Sub,
    Lit,
    Comprehension,
    Disjunction,
    Join,
    Constraint,
    Overload,
    Ask,
    Answer,
    ListOf,
    SetOf,
    FSetOf,
    BagOf,
    FBagOf,
    Fn,
    Def,
    TypeVar,
    Raw,
    Arrow,
    Variable,
    Op,
    Builtin,
    Positive,
    Natural,
    Sorts,
    Nodes,
    Bindings,
    Exprs,
    Names,
    Constraints,
    Overloads,
    Sources,
    Scratch,
    Index,
    OutTyping,
    OutMeasure,
    OutChoices,
    Solve,
    Unify,
    PartialCmp,
    Meet,
    WideningDistance,
    IsMaterializable,
    Unit,
    Bool,
    Pos,
    Nat,
    Int,
    Real,
}

// A word of a line: a word of the format, a number, a name (`sN`, `nN`, `vN`, `eN`) by its number, or none of these.
// kept: a word that is none of these is a Token and no None: it counts among the words of its line, and fits no form.
#[derive(Clone, Copy, Debug, PartialEq, Eq)]
pub enum Token {
    Keyword(Keyword),
    Number(u16),
    Sort(u16),
    Node(u16),
    Var(u16),
    Expr(u16),
    Other,
}

// What a line begins with: nothing or a comment, `=`, `list`, or another word.
#[derive(Clone, Copy, Debug, PartialEq, Eq)]
pub enum Start {
    Skipped,
    Answer,
    NewList,
    Other,
}

// The words of the format, in the order in which a word is looked up.
// kept: a list by hand, since an enum has no list of its variants; the definition `keywords` has the same order.
const KEYWORDS: [Keyword; 65] = [
    Keyword::List,
    Keyword::Bare,
    Keyword::Sort,
    Keyword::Entries,
    Keyword::Node,
    Keyword::NodeEntries,
    Keyword::Pad,
    Keyword::Var,
    Keyword::Vars,
    Keyword::Bind,
    Keyword::Expr,
    Keyword::Name,
    Keyword::Default,
    Keyword::Ceilings,
    Keyword::Count,
    Keyword::Lend,
    Keyword::Sub,
    Keyword::Lit,
    Keyword::Comprehension,
    Keyword::Disjunction,
    Keyword::Join,
    Keyword::Constraint,
    Keyword::Overload,
    Keyword::Ask,
    Keyword::Answer,
    Keyword::ListOf,
    Keyword::SetOf,
    Keyword::FSetOf,
    Keyword::BagOf,
    Keyword::FBagOf,
    Keyword::Fn,
    Keyword::Def,
    Keyword::TypeVar,
    Keyword::Raw,
    Keyword::Arrow,
    Keyword::Variable,
    Keyword::Op,
    Keyword::Builtin,
    Keyword::Positive,
    Keyword::Natural,
    Keyword::Sorts,
    Keyword::Nodes,
    Keyword::Bindings,
    Keyword::Exprs,
    Keyword::Names,
    Keyword::Constraints,
    Keyword::Overloads,
    Keyword::Sources,
    Keyword::Scratch,
    Keyword::Index,
    Keyword::OutTyping,
    Keyword::OutMeasure,
    Keyword::OutChoices,
    Keyword::Solve,
    Keyword::Unify,
    Keyword::PartialCmp,
    Keyword::Meet,
    Keyword::WideningDistance,
    Keyword::IsMaterializable,
    Keyword::Unit,
    Keyword::Bool,
    Keyword::Pos,
    Keyword::Nat,
    Keyword::Int,
    Keyword::Real,
];

impl Keyword {
    // The word as it is written.
    // kept: a table by hand, since the words are the format's, as `?`, `->` and `node-entries`, and no variants' names.
    #[tactic(auto, unfolding(crate::specs::Words::spelling))]
    pub fn spelling(self) -> &'static [u8]
        ensures { result.now ≡ spelling self }
    {
        match self {
            Keyword::List => b"list",
            Keyword::Bare => b"bare",
            Keyword::Sort => b"sort",
            Keyword::Entries => b"entries",
            Keyword::Node => b"node",
            Keyword::NodeEntries => b"node-entries",
            Keyword::Pad => b"pad",
            Keyword::Var => b"var",
            Keyword::Vars => b"vars",
            Keyword::Bind => b"bind",
            Keyword::Expr => b"expr",
            Keyword::Name => b"name",
            Keyword::Default => b"default",
            Keyword::Ceilings => b"ceilings",
            Keyword::Count => b"count",
            Keyword::Lend => b"lend",
            Keyword::Sub => b"sub",
            Keyword::Lit => b"lit",
            Keyword::Comprehension => b"comprehension",
            Keyword::Disjunction => b"disjunction",
            Keyword::Join => b"join",
            Keyword::Constraint => b"constraint",
            Keyword::Overload => b"overload",
            Keyword::Ask => b"?",
            Keyword::Answer => b"=",
            Keyword::ListOf => b"List",
            Keyword::SetOf => b"Set",
            Keyword::FSetOf => b"FSet",
            Keyword::BagOf => b"Bag",
            Keyword::FBagOf => b"FBag",
            Keyword::Fn => b"fn",
            Keyword::Def => b"Def",
            Keyword::TypeVar => b"TypeVar",
            Keyword::Raw => b"raw",
            Keyword::Arrow => b"->",
            Keyword::Variable => b"variable",
            Keyword::Op => b"op",
            Keyword::Builtin => b"builtin",
            Keyword::Positive => b"positive",
            Keyword::Natural => b"natural",
            Keyword::Sorts => b"sorts",
            Keyword::Nodes => b"nodes",
            Keyword::Bindings => b"bindings",
            Keyword::Exprs => b"exprs",
            Keyword::Names => b"names",
            Keyword::Constraints => b"constraints",
            Keyword::Overloads => b"overloads",
            Keyword::Sources => b"sources",
            Keyword::Scratch => b"scratch",
            Keyword::Index => b"index",
            Keyword::OutTyping => b"out-typing",
            Keyword::OutMeasure => b"out-measure",
            Keyword::OutChoices => b"out-choices",
            Keyword::Solve => b"solve",
            Keyword::Unify => b"unify",
            Keyword::PartialCmp => b"partial_cmp",
            Keyword::Meet => b"meet",
            Keyword::WideningDistance => b"widening_distance",
            Keyword::IsMaterializable => b"is_materializable",
            Keyword::Unit => b"unit",
            Keyword::Bool => b"Bool",
            Keyword::Pos => b"Pos",
            Keyword::Nat => b"Nat",
            Keyword::Int => b"Int",
            Keyword::Real => b"Real",
        }
    }
}

// The word of the format that bytes are.
fn keyword_of(w: &[u8]) -> Option<Keyword>
    ensures { result ≡ keyword_of w.now }
{
    KEYWORDS
        .iter()
        .find(|keyword| w == keyword.spelling())
        .copied()
}

// Whether all bytes are decimal digits.
fn all_digits(w: &[u8]) -> bool
    ensures { result ≡ list_all is_ascii_digit w.now }
{
    w.iter().all(|b| b.is_ascii_digit())
}

// The number that a word says, up to 65,535: at least one digit, no sign, and no zero before another digit.
#[tactic(auto, unfolding(crate::specs::Tokens::number_read))]
fn number_of(w: &[u8]) -> Option<u16>
    ensures { result ≡ number_read w.now }
{
    match w {
        [] | [b'0', _, ..] => None,
        _ if all_digits(w) => str::from_utf8(w).ok()?.parse().ok(),
        _ => None,
    }
}

// A number alone, or a name: `sN`, `nN`, `vN` or `eN`.
#[tactic(auto, unfolding(crate::specs::Tokens::name_token))]
fn name_of(w: &[u8]) -> Token
    ensures { result ≡ name_token w.now }
{
    match w {
        [b's', digits @ ..] => number_of(digits).map_or(Token::Other, Token::Sort),
        [b'n', digits @ ..] => number_of(digits).map_or(Token::Other, Token::Node),
        [b'v', digits @ ..] => number_of(digits).map_or(Token::Other, Token::Var),
        [b'e', digits @ ..] => number_of(digits).map_or(Token::Other, Token::Expr),
        _ => number_of(w).map_or(Token::Other, Token::Number),
    }
}

// A word by its bytes.
#[tactic(auto, unfolding(crate::specs::Tokens::token_of))]
fn token_of(w: &[u8]) -> Token
    ensures { result ≡ token_of w.now }
{
    match keyword_of(w) {
        Some(keyword) => Token::Keyword(keyword),
        None => name_of(w),
    }
}

// The end of the word from `at` on.
fn word_end(line: &[u8], at: usize) -> usize
    ensures { result ≡ offset line.now (past in_word (drop at line.now)) }
{
    run_end(line, at, |b| b != b' ')
}

// The words of a line, put at the front of the room lent for them, as far as it has room; how many they are.
fn put_words(line: &[u8], words: &mut [Token; MOST_WORDS]) -> usize
    ensures words { take result words.new ≡ tokens_of line.now }
    ensures within { result ≤ 100 }
{
    let mut at: usize = 0;
    for count in 0..MOST_WORDS {
        let from = skip_spaces(line, at);
        if line.len() <= from {
            return count;
        }
        let to = word_end(line, from);
        words[count] = token_of(between(line, from, to));
        at = to;
    }
    MOST_WORDS
}

// The words of a line, in the room lent for them, MOST_WORDS at most.
pub fn tokens_of<'a>(line: &[u8], words: &'a mut [Token; MOST_WORDS]) -> &'a [Token]
    ensures { result.now ≡ tokens_of line.now }
{
    let count = put_words(line, words);
    &words[..count]
}

// Whether all bytes are printable ASCII.
pub fn printable(line: &[u8]) -> bool
    ensures { result ≡ list_all is_printable line.now }
{
    line.iter().all(|b| (b' '..=b'~').contains(b))
}

// What a line with words begins with, by the first of them.
fn start_by(word: Token) -> Start
    ensures { result ≡ start_by word }
{
    match word {
        Token::Keyword(Keyword::Answer) => Start::Answer,
        Token::Keyword(Keyword::List) => Start::NewList,
        _ => Start::Other,
    }
}

// What a line begins with.
pub fn start_of(line: &[u8]) -> Start
    ensures { result ≡ line_start line.now }
{
    let from = skip_spaces(line, 0);
    if line.len() <= from {
        return Start::Skipped;
    }
    if line[from] == b'#' {
        return Start::Skipped;
    }
    let to = word_end(line, from);
    start_by(token_of(between(line, from, to)))
}

// A line of at most MAX_LINE bytes has at most so many words.
pub const MOST_WORDS: usize = 100;
