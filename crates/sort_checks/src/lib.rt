// Checks 1 to 4 of document 01 over the lent sort storage, and the first of them that fails.
#![tactic(auto)]

ghost use Rattle.std.specs.Prelude.{◌≡◌, ◌+◌, ◌≤◌};
ghost use Rattle.resolved_sort.specs.Storage.{max_sorts};
ghost use Rattle.resolved_sort.specs.Checks.{first_failing, sort_checks, storage_within, within_lent, fixed_six, parts_below, row_fine_of};
ghost use Rattle.resolved_sort.specs.Checks.{rows_fine, all_below};
ghost use Rattle.resolved_sort.specs.Rows.{rows_differ};
ghost use Rattle.sort_checks.specs.Inner.Tests.{arg_below};

use resolved_sort::{
    ENTRIES_AT, LAST_KIND, MAX_ARGUMENTS, MAX_ENTRIES, ROW_WORDS, Refusal, ResolvedSort, Run,
    SLOTS, SORT_NUMBERS, SortId,
};
use sort_interner::{enter, get, lookup};
use words::word;

// Check 1 of storage: n rows, at most so many, and e entries behind the room for all rows are within what was lent.
pub fn storage_within(words: &[u16], n: usize, e: usize, most_rows: u16) -> bool
    ensures { result ≡ storage_within most_rows words.now n e }
{
    n <= (most_rows as usize)
        && e <= MAX_ENTRIES
        && ROW_WORDS * n <= words.len()
        && e <= words.len().saturating_sub(ROW_WORDS * (most_rows as usize))
}

// Check 1: n sorts and e entries are within the ceilings and within what was lent.
#[tactic(auto, unfolding(resolved_sort::specs::Checks::within_lent))]
pub fn within_lent(sorts: &[u16], n: usize, e: usize) -> bool
    ensures { result ≡ within_lent sorts.now n e }
{
    storage_within(sorts, n, e, SORT_NUMBERS)
}

// Sort storage as it was lent, with the counts given of it.
#[derive(Clone, Copy)]
struct Lent<'a> {
    words: &'a [u16],
    sorts: usize,
    entries: usize,
}

impl<'a> Lent<'a> {
    // Check 2: the first six rows are there and are of kinds 0 to 5 in order. Fewer than six rows are refused.
    fn fixed_six(&self) -> bool
        ensures { result ≡ fixed_six self.now.words.now self.now.sorts }
    {
        6 <= self.sorts && (0..6).all(|i: u16| word(self.words, ROW_WORDS * (i as usize)) == i)
    }

    // Whether each entry of a run names a sort below this one. An entry that is it itself does not.
    fn args_below(&self, run: Run, id: SortId) -> bool
        ensures { result ≡ all_below run.count (arg_below self.now.words.now run.start id.0) }
    {
        (0..run.count).all(|j| {
            word(
                self.words,
                ENTRIES_AT + ((run.start as usize) + (j as usize)),
            ) < id.0
        })
    }

    // Whether a function's row has at most 16 arguments, a run inside the entries, and parts below it.
    #[tactic(auto, unfolding(resolved_sort::specs::Checks::parts_below, crate::specs::Inner::Tests::arg_below))]
    fn function_fine(&self, id: SortId, domain: Run, range: SortId) -> bool
        ensures { result
            ≡ parts_below self.now.words.now self.now.entries id.0 (ResolvedSort.Function domain range) }
    {
        domain.count <= MAX_ARGUMENTS
            && (domain.start as usize) + (domain.count as usize) <= self.entries
            && range.0 < id.0
            && self.args_below(domain, id)
    }

    // Whether the parts of a row, which says sort, are numbered below it. A part that is the row itself is not.
    #[tactic(auto, unfolding(resolved_sort::specs::Checks::parts_below))]
    fn parts_below(&self, id: SortId, sort: ResolvedSort) -> bool
        ensures { result ≡ parts_below self.now.words.now self.now.entries id.0 sort }
    {
        match sort {
            ResolvedSort::Container { op: _, subsort } => subsort.0 < id.0,
            ResolvedSort::Function { domain, range } => self.function_fine(id, domain, range),
            ResolvedSort::Unit
            | ResolvedSort::Primitive(_)
            | ResolvedSort::Def(_)
            | ResolvedSort::TypeVar(_) => true,
        }
    }

    // Whether a sort's row is of a known kind and its parts are below it. Kinds above 13 are unknown.
    #[tactic(auto, unfolding(resolved_sort::specs::Checks::row_fine_of))]
    fn row_fine(&self, id: SortId) -> bool
        ensures { result ≡ row_fine_of self.now.words.now self.now.entries id.0 }
    {
        word(self.words, ROW_WORDS * (id.0 as usize)) <= LAST_KIND
            && self.parts_below(id, get(self.words, id))
    }

    // Check 3: each of the rows is fine. None is left out.
    fn rows_fine(&self) -> bool
        requires { self.now.sorts ≤ max_sorts }
        ensures { result ≡ rows_fine self.now.words.now self.now.sorts self.now.entries }
    {
        (0..self.sorts).all(|i| self.row_fine(SortId(i as u16)))
    }

    // Check 4 on rows: no two of them are the same. Each is looked up among those before it, in an index of its own, since
    // a check changes nothing that was lent.
    // A sort with two numbers would break what all above rests on: that sorts are equal exactly where their numbers are.
    fn no_two_equal_rows(&self) -> bool
        requires { self.now.sorts ≤ max_sorts }
        ensures { result ≡ rows_differ self.now.words.now self.now.sorts }
    {
        let mut index = [0; SLOTS];
        for j in 0..self.sorts {
            let id = SortId(j as u16);
            if lookup(self.words, &index, &id).is_some() {
                return false;
            }
            enter(self.words, &mut index, id);
        }
        true
    }
}

// Checks 1 to 4: the first that fails.
// kept: the list with its counts as C hands them to the entries: a Lent made by each caller is no plainer.
pub fn test_sorts(sorts: &[u16], sort_count: usize, entry_count: usize) -> Result<(), Refusal>
    ensures { result ≡ first_failing (sort_checks sorts.now sort_count entry_count) }
{
    if !within_lent(sorts, sort_count, entry_count) {
        return Err(Refusal::NotLent);
    }
    let lent = Lent {
        words: sorts,
        sorts: sort_count,
        entries: entry_count,
    };
    if !lent.fixed_six() {
        return Err(Refusal::NotFixedSix);
    }
    if !lent.rows_fine() {
        return Err(Refusal::BadSort);
    }
    if !lent.no_two_equal_rows() {
        return Err(Refusal::EqualSorts);
    }
    Ok(())
}
