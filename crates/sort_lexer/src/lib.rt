// Tokens of a line of sort text, over the line's bytes and a position. A position past the end counts as the end, so no
// function here asks anything of line or position.
#![tactic(auto)]

ghost use Rattle.std.specs.Prelude.{◌≡◌, ℕ, Bool, ◌-◌, take, drop};
ghost use Rattle.std.specs.List.{find};
ghost use Rattle.sort_text.specs.Tokens.{is_letter, skip, past};
ghost use Rattle.sort_text.specs.Parse.{same_bytes, meaning};
ghost use Rattle.sort_lexer.specs.Inner.Lexeme.{offset, Tests, lexeme_of};
ghost use Rattle.sort_lexer.specs.Inner.Meant.{meant, text_of};

use resolved_sort::{ComplexSort, Sort};
use sort_text::{op_word, sort_word};
use words::rest;

// A token of a line: a longest run of letters, `(`, `)`, `#`, `->`. The end of the line counts as a token; a byte that
// starts none of these is one that cannot follow.
// kept: End and Bad are tokens and no None, since where they stand is asked for as of any other.
#[derive(Clone, Copy, Debug, PartialEq, Eq)]
pub enum Token {
    End,
    Word,
    Open,
    Close,
    Hash,
    Arrow,
    Bad,
}

// A token, where it starts, and the position after it: for End and Bad where they start.
#[derive(Clone, Copy, Debug, PartialEq, Eq)]
pub struct Lexeme {
    pub token: Token,
    pub at: usize,
    pub next: usize,
}

// What a word says: a basic sort, or a container.
#[derive(Clone, Copy, Debug, PartialEq, Eq)]
pub enum Word {
    Basic(Sort),
    Container(ComplexSort),
}

// The end of the caller's own line that starts at `at`; past the end it is empty.
// Ruled out: an end that starts one byte late; the whole line for a position past its end.
pub fn unread(line: &[u8], at: usize) -> &[u8]
    ensures { result.now ≡ drop at line.now }
{
    rest(line, at)
}

// The bytes of the line from `from` to `to`, as far as it has them.
pub fn between(line: &[u8], from: usize, to: usize) -> &[u8]
    ensures { result.now ≡ take (to - from) (drop from line.now) }
{
    let end = rest(line, from);
    &end[..end.len().min(to.saturating_sub(from))]
}

// The first position from `at` on whose byte does not pass, or the end of the line.
pub fn run_end<P: Fn(u8) -> bool>(line: &[u8], at: usize, passes: P) -> usize
    requires { P.IsAlwaysCallable passes }
    ensures { (p : ℕ → Bool) → Tests (P.post passes) p → result ≡ offset line.now (past p (drop at line.now)) }
{
    for (i, byte) in rest(line, at).iter().enumerate() {
        if !passes(*byte) {
            return at + i;
        }
    }
    line.len()
}

// The first position from `at` on that has no space.
pub fn skip_spaces(line: &[u8], at: usize) -> usize
    ensures { result ≡ offset line.now (skip (drop at line.now)) }
{
    run_end(line, at, |b| b == b' ')
}

// The end of the run of letters from `at` on.
fn word_end(line: &[u8], at: usize) -> usize
    ensures { result ≡ offset line.now (past is_letter (drop at line.now)) }
{
    run_end(line, at, |b| b.is_ascii_alphabetic())
}

// The token of a line that starts at `at` or after spaces there.
pub fn token_from(line: &[u8], at: usize) -> Lexeme
    ensures { result ≡ lexeme_of line.now at }
{
    let from = skip_spaces(line, at);
    let Some(byte) = line.get(from) else {
        return Lexeme {
            token: Token::End,
            at: from,
            next: from,
        };
    };
    let (token, next) = match *byte {
        b if b.is_ascii_alphabetic() => (Token::Word, word_end(line, from + 1)),
        b'(' => (Token::Open, from + 1),
        b')' => (Token::Close, from + 1),
        b'#' => (Token::Hash, from + 1),
        b'-' if rest(line, from).starts_with(b"->") => (Token::Arrow, from + 2),
        _ => (Token::Bad, from),
    };
    Lexeme {
        token,
        at: from,
        next,
    }
}

impl Word {
    // How the word is spelled.
    #[tactic(auto, unfolding(crate::specs::Inner::Meant::text_of))]
    pub fn text(self) -> &'static [u8]
        ensures { result.now ≡ text_of self }
    {
        match self {
            Word::Basic(sort) => sort_word(sort),
            Word::Container(op) => op_word(op),
        }
    }

    // Whether bytes spell the word.
    fn is_spelled(self, bytes: &[u8]) -> bool
        ensures { result ≡ same_bytes bytes.now (text_of self) }
    {
        bytes == self.text()
    }

    // The word that bytes spell.
    pub fn spelled(bytes: &[u8]) -> Option<Word>
        ensures { result ≡ meant (meaning bytes.now) }
    {
        first_spelled(&WORDS, bytes)
    }
}

// The first of some words that bytes spell.
fn first_spelled(words: &[Word], bytes: &[u8]) -> Option<Word>
    ensures { result ≡ find (λ word. same_bytes bytes.now (text_of word)) words.now }
{
    words.iter().copied().find(|word| word.is_spelled(bytes))
}

// A line and a position in it.
// kept: functions over line and position beside it, as document 01 names the form.
#[derive(Clone, Copy, Debug)]
pub struct Reader<'a> {
    pub line: &'a [u8],
    pub at: usize,
}

impl<'a> Reader<'a> {
    // A reader of a line at a position.
    pub fn new(line: &'a [u8], at: usize) -> Reader<'a>
        ensures { (result.line ≡ line.entry) × (result.at ≡ at) }
    {
        Reader { line, at }
    }

    // The token at the position or after spaces there.
    pub fn next_token(&self) -> Lexeme
        ensures { result ≡ lexeme_of self.now.line.now self.now.at }
    {
        token_from(self.line, self.at)
    }

    // What the word that a token stands for says.
    pub fn word(&self, found: Lexeme) -> Option<Word>
        ensures { result ≡ meant (meaning (take (found.next - found.at) (drop found.at self.now.line.now))) }
    {
        Word::spelled(between(self.line, found.at, found.next))
    }
}

const WORDS: [Word; 10] = [
    Word::Basic(Sort::Bool),
    Word::Basic(Sort::Pos),
    Word::Basic(Sort::Nat),
    Word::Basic(Sort::Int),
    Word::Basic(Sort::Real),
    Word::Container(ComplexSort::List),
    Word::Container(ComplexSort::Set),
    Word::Container(ComplexSort::FSet),
    Word::Container(ComplexSort::Bag),
    Word::Container(ComplexSort::FBag),
];
