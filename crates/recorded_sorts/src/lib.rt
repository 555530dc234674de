// Recorded answers about sorts, asked again of the entries. A line is a letter and numbers, each after one space:
// `L n e` begins a list of n sorts and e argument entries; `r kind part start count` is its next row; `a w ..` its next
// entries, at most 16; `c a b x`, `d a b x`, `m a b x`, `j a b x` and `k a b x` ask partial_cmp, widening_distance,
// is_materializable, join and meet of the sorts a and b, and x is the answer, packed; a line that starts with `#` says
// nothing. Join and meet are lent an index full of junk: one that they do not leave as they must is an answer that differs.
#![tactic(auto)]

ghost use Rattle.std.specs.Prelude.{◌≡◌, ◌≤◌, eqb};
ghost use Rattle.std.specs.List.{list_all};
ghost use Rattle.replay.specs.Inner.Lines.{near_enough};
ghost use Rattle.recorded_sorts.specs.Inner.Lines.{letter_of, complete as is_complete, keep_of};
ghost use Rattle.recorded_sorts.specs.Inner.Lines.{begin_line, row_line, run_line, index_word, index_answer, packed_answer, ask_line};
ghost use Rattle.recorded_sorts.specs.Inner.Lines.{sorts_started};

use replay::{MAX_WORDS, Recorded, Verdict, store};
use resolved_sort::{ENTRIES_AT, MAX_ENTRIES, MAX_SORTS, ROW_WORDS, SLOTS, SORT_WORDS};
use sort_entries::{
    sort_is_materializable, sort_join, sort_meet, sort_partial_cmp, sort_widening_distance,
};
use words::BIT_8;

// The ceilings of a list, as numbers of a line.
const SORTS: u64 = MAX_SORTS as u64;

const ENTRIES: u64 = MAX_ENTRIES as u64;

// What an index has all over it before a call.
const JUNK: u16 = 41377;

// In the place of an answer with an index that is not as it must be: it has a code that no answer has.
const WRONG_INDEX: u64 = 255;

// What is asked of two sorts.
#[derive(Clone, Copy, Debug, PartialEq, Eq)]
pub enum Question {
    PartialCmp,
    WideningDistance,
    IsMaterializable,
    Join,
    Meet,
}

// What a line says by its letter.
// kept: Other and no None: a byte that begins no line of the form is a line of its own, whose answer is NotOfForm.
#[derive(Clone, Copy, Debug, PartialEq, Eq)]
pub enum Letter {
    List,
    Row,
    Arguments,
    Asks(Question),
    Other,
}

// How much a list has by its first line, and how much of it was read.
#[derive(Clone, Copy, Debug, PartialEq, Eq)]
pub struct Progress {
    pub sorts: u16,
    pub entries: u16,
    pub rows: u16,
    pub filled: u16,
}

// A list of sorts, as far as it was read.
#[derive(Drop)]
pub struct RecordedSorts {
    pub words: [u16; SORT_WORDS],
    pub progress: Progress,
}

impl From<u8> for Letter {
    ghost from_gives = { λ byte letter. letter ≡ letter_of byte };

    #[tactic(auto, unfolding(crate::specs::Inner::Lines::letter_of))]
    fn from(byte: u8) -> Self {
        match byte {
            b'L' => Letter::List,
            b'r' => Letter::Row,
            b'a' => Letter::Arguments,
            b'c' => Letter::Asks(Question::PartialCmp),
            b'd' => Letter::Asks(Question::WideningDistance),
            b'm' => Letter::Asks(Question::IsMaterializable),
            b'j' => Letter::Asks(Question::Join),
            b'k' => Letter::Asks(Question::Meet),
            _ => Letter::Other,
        }
    }
}

impl Progress {
    // Whether all rows and entries of the list were read.
    #[tactic(auto, unfolding(crate::specs::Inner::Lines::complete))]
    pub fn complete(&self) -> bool
        ensures { result ≡ is_complete self.now }
    {
        self.rows == self.sorts && self.filled == self.entries
    }
}

// The word that the index must have all over it after this answer: the junk that it was lent with after a refusal by
// one of the checks 1 to 14, else zero.
fn index_word(answer: u64) -> u16
    ensures { result ≡ index_word answer }
{
    let code = answer % BIT_8;
    if 1 <= code && code <= 14 { JUNK } else { 0 }
}

// Whether an index has this word all over it.
fn all_are(index: &[u16], word: u16) -> bool
    ensures { result ≡ list_all (λ held. eqb held word) index.now }
{
    index.iter().all(|&held| held == word)
}

// The answer, where the index that was lent full of junk is left as it must be.
#[tactic(auto, unfolding(crate::specs::Inner::Lines::index_answer))]
fn index_answer(index: &[u16], answer: u64) -> u64
    ensures { result ≡ index_answer index.now answer }
{
    if all_are(index, index_word(answer)) {
        answer
    } else {
        WRONG_INDEX
    }
}

// What an entry answers on a list, which stays as it is: join and meet work on a copy, with an index full of junk.
// kept: a match and no function handed in, since two of the five entries change their list and work on a copy.
#[tactic(auto, unfolding(crate::specs::Inner::Lines::packed_answer), using(crate::proofs::Steps::packed_left))]
fn ask(
    list: &[u16; SORT_WORDS],
    sorts: usize,
    entries: usize,
    question: Question,
    lhs: u16,
    rhs: u16,
) -> u64
    ensures { result ≡ packed_answer question list.now sorts entries lhs rhs }
{
    match question {
        Question::PartialCmp => sort_partial_cmp(list, sorts, entries, lhs, rhs),
        Question::WideningDistance => sort_widening_distance(list, sorts, entries, lhs, rhs),
        Question::IsMaterializable => sort_is_materializable(list, sorts, entries, lhs, rhs),
        Question::Join => {
            let mut copy = *list;
            let mut index = [JUNK; SLOTS];
            let answer = sort_join(&mut copy, sorts, entries, &mut index, lhs, rhs);
            index_answer(&index, answer)
        }
        Question::Meet => {
            let mut copy = *list;
            let mut index = [JUNK; SLOTS];
            let answer = sort_meet(&mut copy, sorts, entries, &mut index, lhs, rhs);
            index_answer(&index, answer)
        }
    }
}

impl RecordedSorts {
    // Where reading starts: an empty list, complete.
    // kept: of the shape of recorded_unify's: the words and the progress are of other types there.
    pub fn new() -> RecordedSorts
        ensures { result ≡ sorts_started }
    {
        RecordedSorts {
            words: [0; SORT_WORDS],
            progress: Progress {
                sorts: 0,
                entries: 0,
                rows: 0,
                filled: 0,
            },
        }
    }

    // The next words of the list, and where reading it then is.
    #[tactic(auto, unfolding(crate::specs::Inner::Lines::keep_of))]
    fn keep(&mut self, base: usize, numbers: &[u64], next: Progress) -> Verdict
        requires { base ≤ near_enough }
        ensures { (self.new, result) ≡ keep_of self.old base numbers.now next }
    {
        if MAX_WORDS < numbers.len() {
            return Verdict::NotOfForm;
        }
        if !store(&mut self.words, base, numbers) {
            return Verdict::NotOfForm;
        }
        self.progress = next;
        Verdict::Quiet
    }

    // A new list, with no row and no entry yet, after one that is complete.
    #[tactic(auto, unfolding(crate::specs::Inner::Lines::begin_line))]
    fn begin(&mut self, numbers: &[u64]) -> Verdict
        ensures { (self.new, result) ≡ begin_line self.old numbers.now }
    {
        let &[sorts, entries] = numbers else {
            return Verdict::NotOfForm;
        };
        if !self.progress.complete() {
            return Verdict::NotOfForm;
        }
        if SORTS < sorts || ENTRIES < entries {
            return Verdict::NotOfForm;
        }
        self.progress = Progress {
            sorts: sorts as u16,
            entries: entries as u16,
            rows: 0,
            filled: 0,
        };
        Verdict::Quiet
    }

    // The next row of the list.
    #[tactic(auto, unfolding(crate::specs::Inner::Lines::row_line))]
    fn row(&mut self, numbers: &[u64]) -> Verdict
        ensures { (self.new, result) ≡ row_line self.old numbers.now }
    {
        let progress = self.progress;
        if numbers.len() != 4 || progress.sorts <= progress.rows {
            return Verdict::NotOfForm;
        }
        let next = Progress {
            rows: progress.rows + 1,
            ..progress
        };
        self.keep(ROW_WORDS * (progress.rows as usize), numbers, next)
    }

    // The next argument entries of the list.
    #[tactic(auto, unfolding(crate::specs::Inner::Lines::run_line))]
    fn arguments(&mut self, numbers: &[u64]) -> Verdict
        ensures { (self.new, result) ≡ run_line self.old numbers.now }
    {
        let progress = self.progress;
        let count = numbers.len();
        if MAX_WORDS < count || (progress.entries as usize) < (progress.filled as usize) + count {
            return Verdict::NotOfForm;
        }
        let next = Progress {
            filled: progress.filled + (count as u16),
            ..progress
        };
        self.keep(ENTRIES_AT + (progress.filled as usize), numbers, next)
    }

    // A question about two sorts of a complete list, compared with the recorded answer.
    #[tactic(auto, unfolding(crate::specs::Inner::Lines::ask_line))]
    fn answer(&self, question: Question, numbers: &[u64]) -> Verdict
        ensures { result ≡ ask_line self.now question numbers.now }
    {
        let progress = self.progress;
        let &[lhs, rhs, recorded] = numbers else {
            return Verdict::NotOfForm;
        };
        if !progress.complete() {
            return Verdict::NotOfForm;
        }
        let Ok(lhs) = u16::try_from(lhs) else {
            return Verdict::NotOfForm;
        };
        let Ok(rhs) = u16::try_from(rhs) else {
            return Verdict::NotOfForm;
        };
        let got = ask(
            &self.words,
            usize::from(progress.sorts),
            usize::from(progress.entries),
            question,
            lhs,
            rhs,
        );
        if got == recorded {
            Verdict::Agrees
        } else {
            Verdict::Differs(got)
        }
    }
}

impl Recorded for RecordedSorts {
    ghost use Rattle.recorded_sorts.specs.Inner.Lines.{complete, letter_of, by_letter};

    ghost step = { λ s letter numbers. by_letter (letter_of letter) s numbers };

    ghost complete = { λ s. complete s.progress };

    #[tactic(auto, unfolding(crate::specs::Inner::Lines::by_letter))]
    fn replay(&mut self, letter: u8, numbers: &[u64]) -> Verdict {
        // kept: a match and no table of functions: each arm has a contract of its own; those of a table share one.
        match Letter::from(letter) {
            Letter::List => self.begin(numbers),
            Letter::Row => self.row(numbers),
            Letter::Arguments => self.arguments(numbers),
            Letter::Asks(question) => self.answer(question, numbers),
            Letter::Other => Verdict::NotOfForm,
        }
    }

    fn is_complete(&self) -> bool {
        self.progress.complete()
    }
}
