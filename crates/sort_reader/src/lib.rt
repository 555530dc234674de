// A line read into the sort storage. The steps that recognising it wrote are carried out on a stack of sort numbers;
// the entry tests all it is lent, recognises the line, and only then fills the index and stores.
#![tactic(auto)]

ghost use Rattle.std.specs.Prelude.{MatchOption, MatchResult, IfNone, OnSome, Ok, Err, OnOk, OnErr, ◌≡◌, ◌+◌, ◌-◌, ◌<◌, ◌≤◌, [], set, take, drop};
ghost use Rattle.sort_reader.specs.Inner.Run.{max_stack, run_at, Running, SaysStep, TopTaken, RunLeft, made_at, steps_stored};
ghost use Rattle.resolved_sort.specs.Index.{Indexed};
ghost use Rattle.resolved_sort.specs.Checks.{first_failing};
ghost use Rattle.sort_text.specs.Parse.{line as line_of};
ghost use Rattle.sort_text.specs.Reading.{read_checks, read_left, read_at, read_as_of, reading};
ghost use Rattle.sort_reader.specs.Inner.Tested.{Passes};

use resolved_sort::{ComplexSort, Counts, FIXED_SORTS, Refusal, SLOTS, SORT_WORDS, SortId};
use sort_checks::test_sorts;
use sort_interner::{SortInterner, clear_index, fill_index};
use sort_recogniser::recognise;
use sort_text::{FUNCTION_STEP, MAX_LINE, Unread};

// A step of a sort, parts first: one of the fixed six sorts; a container over the sort on top of the stack; or a
// function of so many sorts below the one on top, its range.
#[derive(Clone, Copy, Debug, PartialEq, Eq)]
enum Step {
    Fixed(SortId),
    Container(ComplexSort),
    Function(usize),
}

impl From<u8> for Step {
    ghost from_gives = { λ byte step. SaysStep byte step };

    #[tactic(auto, unfolding(crate::specs::Inner::Run::SaysStep))]
    fn from(byte: u8) -> Self {
        let kind = u16::from(byte);
        if kind < FIXED_SORTS {
            return Step::Fixed(SortId(kind));
        }
        match ComplexSort::try_from(kind) {
            Ok(op) => Step::Container(op),
            Err(_) => Step::Function(usize::from(byte.saturating_sub(FUNCTION_STEP))),
        }
    }
}

// The sorts that steps have made and none has taken yet, the last one on top.
// kept: an array with a depth, since no memory is allocated.
#[derive(Clone, Copy)]
struct Stack {
    ids: [SortId; MAX_STACK],
    depth: usize,
}

impl Stack {
    // One more sort on top.
    fn push(&mut self, id: SortId)
        requires { self.old.depth < max_stack }
        ensures ids { self.new.ids ≡ set self.old.ids self.old.depth id }
        ensures depth { self.new.depth ≡ self.old.depth + 1 }
    {
        self.ids[self.depth] = id;
        self.depth += 1;
    }

    // Takes the sort on top.
    fn pop(&mut self) -> Option<SortId>
        requires { self.old.depth ≤ max_stack }
        ensures ids { self.new.ids ≡ self.old.ids }
        ensures top { TopTaken self.old.ids self.old.depth self.new.depth result }
    {
        self.depth = self.depth.checked_sub(1)?;
        Some(self.ids[self.depth])
    }

    // The last count sorts, the deepest first.
    fn last(&self, count: usize) -> Option<&[SortId]>
        requires { self.now.depth ≤ max_stack }
        ensures { MatchOption result (self.now.depth < count)
            (λ last. (count ≤ self.now.depth)
            × (last.now ≡ take count (drop (self.now.depth - count) self.now.ids))) }
    {
        let base = self.depth.checked_sub(count)?;
        Some(&self.ids[base..self.depth])
    }
}

// Carries out the steps of a sort; the sort that is then on top of the stack. None where room ends, or where the stack
// has not what a step takes.
fn run(sorts: &mut SortInterner, steps: &[u8]) -> Option<SortId>
    requires running { Running sorts.old.words.now sorts.old.counts.sorts sorts.old.counts.entries steps.now 0 [] 0 }
    requires indexed { Indexed sorts.old.words.now sorts.old.counts.sorts sorts.old.index.now }
    ensures same_reference { sorts.new.words.ghost_name ≡ sorts.old.words.ghost_name }
    ensures same_index { sorts.new.index.ghost_name ≡ sorts.old.index.ghost_name }
    ensures indexed { Indexed sorts.new.words.now sorts.new.counts.sorts sorts.new.index.now }
    ensures left { RunLeft sorts.new.words.now sorts.new.counts result
        (run_at sorts.old.words.now sorts.old.counts.sorts sorts.old.counts.entries steps.now [] 0) }
{
    let mut stack = Stack {
        ids: [SortId(0); MAX_STACK],
        depth: 0,
    };
    for &step in steps {
        match Step::from(step) {
            Step::Fixed(id) => stack.push(id),
            Step::Container(op) => {
                let subsort = stack.pop()?;
                stack.push(sorts.generic(op, subsort).ok()?);
            }
            Step::Function(count) => {
                let range = stack.pop()?;
                let id = sorts.function(stack.last(count)?, range).ok()?;
                stack.depth -= count;
                stack.push(id);
            }
        }
    }
    stack.pop()
}

// Carries out the steps of a sort, and what was stored stays; None where room ended, and then it is given back.
fn store(sorts: &mut SortInterner, steps: &[u8]) -> Option<SortId>
    requires running { Running sorts.old.words.now sorts.old.counts.sorts sorts.old.counts.entries steps.now 0 [] 0 }
    requires indexed { Indexed sorts.old.words.now sorts.old.counts.sorts sorts.old.index.now }
    ensures same_reference { sorts.new.words.ghost_name ≡ sorts.old.words.ghost_name }
    ensures same_index { sorts.new.index.ghost_name ≡ sorts.old.index.ghost_name }
    ensures indexed { OnSome result (Indexed sorts.new.words.now sorts.new.counts.sorts sorts.new.index.now) }
    ensures counts { IfNone result (sorts.new.counts ≡ sorts.old.counts) }
    ensures stored { made_at sorts.new.words.now sorts.new.counts result
        ≡ steps_stored sorts.old.words.now sorts.old.counts.sorts sorts.old.counts.entries steps.now }
{
    let given = sorts.counts;
    let Some(id) = run(sorts, steps) else {
        sorts.give_back(given);
        return None;
    };
    Some(id)
}

// Checks 1 to 4, 14 and 19: the first that fails, or the counts of the list.
// kept: the list with its counts apart, here and in read: a caller would make a struct of these same fields for one call.
fn test_read(
    sorts: &[u16],
    sort_count: usize,
    entry_count: usize,
    index: &[u16],
    line: &[u8],
) -> Result<Counts, Refusal>
    ensures { MatchResult result
        (λ counts. (counts.sorts ≡ sort_count)
        × (counts.entries ≡ entry_count)
        × (Ok tt ≡ first_failing (read_checks sorts.now index.now sort_count entry_count line.now)))
        (λ refusal. Err refusal
        ≡ first_failing (read_checks sorts.now index.now sort_count entry_count line.now)) }
{
    test_sorts(sorts, sort_count, entry_count)?;
    if sorts.len() < SORT_WORDS || index.len() < SLOTS {
        return Err(Refusal::TooShort);
    }
    if MAX_LINE < line.len() {
        return Err(Refusal::LongLine);
    }
    Ok(Counts {
        sorts: sort_count as u16,
        entries: entry_count as u16,
    })
}

// A line that passed the tests, over an index that is filled already. What was stored stays; where room ended it is
// given back.
pub fn read_line(sorts: &mut SortInterner, line: &[u8]) -> Result<SortId, Unread>
    requires passes { Passes sorts.old.words.now sorts.old.counts.sorts sorts.old.counts.entries line.now }
    requires indexed { Indexed sorts.old.words.now sorts.old.counts.sorts sorts.old.index.now }
    ensures same_reference { sorts.new.words.ghost_name ≡ sorts.old.words.ghost_name }
    ensures same_index { sorts.new.index.ghost_name ≡ sorts.old.index.ghost_name }
    ensures indexed { OnOk result (Indexed sorts.new.words.now sorts.new.counts.sorts sorts.new.index.now) }
    ensures counts { OnErr result (sorts.new.counts ≡ sorts.old.counts) }
    ensures read { read_at sorts.new.words.now sorts.new.counts result
        ≡ read_as_of sorts.old.words.now sorts.old.counts.sorts sorts.old.counts.entries line.now
        (line_of line.now) }
{
    let mut steps = [0u8; MAX_LINE];
    let count = recognise(line, &mut steps)?;
    let Some(id) = store(sorts, &steps[..count]) else {
        return Err(Unread::NoRoom);
    };
    Ok(id)
}

// The sort of a line, stored: parts first, arguments left to right, then the range, then the whole.
// Ruled out: a sort for a line of 201 bytes; sorts of a line that is none left in the storage; an index left filled, or
// touched where the line is none.
pub fn read(
    sorts: &mut [u16],
    sort_count: usize,
    entry_count: usize,
    index: &mut [u16],
    line: &[u8],
) -> Result<(SortId, Counts), Unread>
    ensures { read_left sorts.new index.new result
        ≡ reading sorts.old index.old sort_count entry_count line.now }
{
    let given = test_read(sorts, sort_count, entry_count, index, line)?;
    let mut steps = [0u8; MAX_LINE];
    let step_count = recognise(line, &mut steps)?;
    fill_index(sorts, index, given.sorts);
    let mut interner = SortInterner {
        words: sorts,
        index,
        counts: given,
    };
    let stored = store(&mut interner, &steps[..step_count]);
    let counts = interner.counts;
    clear_index(index);
    let Some(id) = stored else {
        return Err(Unread::NoRoom);
    };
    Ok((id, counts))
}

// How many sorts the stack holds: more than the steps of a line can put there.
const MAX_STACK: usize = 256;
