// Merc's SortInterner over lent storage: one slice of 16-bit words, rows of four words first and argument entries
// behind them, and one for the index by which a row is found. A row is read, found or appended, and sorts made are given
// back. Interning stands here alone.
#![tactic(auto)]

ghost use Rattle.std.specs.Prelude.{◌≡◌, cond, ◌+◌, ◌*◌, ◌≤◌, ◌<◌, List, ℕ, length, take, eqb, OnErr};
ghost use Rattle.std.proofs.lemmas.List.Edits.{sets};
ghost use Rattle.resolved_sort.specs.Storage.{max_sorts, max_entries, max_arguments, entries_at, full_length};
ghost use Rattle.resolved_sort.specs.Storage.{row_words, fixed_sorts, fixed_rows};
ghost use Rattle.words.specs.Words.{zeros};
ghost use Rattle.resolved_sort.specs.Storage.{function_kind, resolved, row_at, entry_at, entries_of, words_at, kind_op, put_row};
ghost use Rattle.resolved_sort.specs.Storage.{append_row, given_back, trees, look_all};
ghost use Rattle.resolved_sort.specs.Rows.{same_words, same_row, interned_at, intern_row, Checked};
ghost use Rattle.resolved_sort.specs.Rows.{AllBelow};
ghost use Rattle.resolved_sort.specs.Inner.Storage.{sort_numbers};
ghost use Rattle.sort_interner.specs.Inner.Tests.{given_row, is_row, RunAt};
ghost use Rattle.resolved_sort.specs.Tree.{container, function as functionSort};
ghost use Rattle.resolved_sort.specs.Interning.{look};
ghost use Rattle.resolved_sort.specs.Bounds.{intern_at};
ghost use Rattle.resolved_sort.specs.Index.{lookup, entered, Indexed};

use resolved_sort::{
    ARGUMENT_WORDS, ComplexSort, Counts, DEF_KIND, ENTRIES_AT, FIRST_CONTAINER, FIXED_SORTS,
    FUNCTION_KIND, MAX_ENTRIES, NoRoom, ROW_WORDS, ResolvedSort, Run, SORT_NUMBERS, Sort, SortId,
};
use words::{clear, put, word};

mod index;

pub use index::{clear_index, enter, fill_index, lookup};

// The sorts of a checked list: what the checks before a call have shown of them holds as long as they are lent.
#[derive(Clone, Copy)]
pub struct Sorts<'a> {
    pub words: &'a [u16],
    pub counts: Counts,
    ghost checked: { Checked words.now counts.sorts counts.entries },
}

// The sorts of a checked list, to which new ones are added.
// kept: that they are checked stands in requires and no ghost field, since between the words of a row it does not hold.
#[derive(Drop)]
pub struct SortInterner<'a> {
    pub words: &'a mut [u16],
    pub index: &'a mut [u16],
    pub counts: Counts,
}

// A row that is looked for, or is to be stored.
// kept: kind is a number, since it is compared with words that C lends, and stored among them.
#[derive(Clone, Copy)]
struct Row<'a> {
    kind: u16,
    part: SortId,
    args: &'a [SortId],
}

// What the words of a row say. Every kind above 12 says TypeVar: that it is 13 is check 3's to show.
// kept: kinds are numbers, since C lends them so, and no From, since a row says its sort by all its four words.
#[tactic(auto, unfolding(resolved_sort::specs::Storage::resolved))]
fn row_of(kind: u16, part: u16, run: Run) -> ResolvedSort
    ensures { result ≡ resolved kind part run }
{
    if let Ok(op) = ComplexSort::try_from(kind) {
        return ResolvedSort::Container {
            op,
            subsort: SortId(part),
        };
    }
    match kind {
        0 => ResolvedSort::Unit,
        1 => ResolvedSort::Primitive(Sort::Bool),
        2 => ResolvedSort::Primitive(Sort::Pos),
        3 => ResolvedSort::Primitive(Sort::Nat),
        4 => ResolvedSort::Primitive(Sort::Int),
        5 => ResolvedSort::Primitive(Sort::Real),
        FUNCTION_KIND => ResolvedSort::Function {
            domain: run,
            range: SortId(part),
        },
        DEF_KIND => ResolvedSort::Def(part),
        _ => ResolvedSort::TypeVar(part),
    }
}

// The sort of a number, as its row says it. A number without a row reads as Unit and is never out of range.
// A number of another list would find an unrelated row here: that it is one of this list is for the checks to show.
pub fn get(sorts: &[u16], id: SortId) -> ResolvedSort
    ensures { result ≡ row_at sorts.now id.0 }
{
    let at = ROW_WORDS * (id.0 as usize);
    let kind = word(sorts, at);
    let part = word(sorts, at + 1);
    let start = word(sorts, at + 2);
    let count = word(sorts, at + 3);
    row_of(kind, part, Run { start, count })
}

// Zero past n rows and, from the place where these begin, e entries; and these as they are.
pub fn clear_past(words: &mut [u16], n: usize, entries_at: usize, e: usize)
    requires { (row_words * n ≤ entries_at) × (entries_at + e ≤ length words.old) }
    ensures { words.new
        ≡ zeros (entries_at + e) (length words.old) (zeros (row_words * n) entries_at words.old) }
{
    clear(words, ROW_WORDS * n, entries_at);
    let end = words.len();
    clear(words, entries_at + e, end);
}

// What 15 leaves: zero past the n rows and e entries that the call began with, and these as they are.
pub fn give_back(sorts: &mut [u16], n: usize, e: usize)
    requires { (n ≤ max_sorts) × (e ≤ max_entries) × (full_length ≤ length sorts.old) }
    ensures { sorts.new ≡ given_back n e sorts.old }
{
    clear_past(sorts, n, ENTRIES_AT, e);
}

// The kind of a sort's row, known or not.
fn kind_at(sorts: &[u16], id: SortId) -> u16
    ensures { result ≡ (words_at sorts.now id.0).kind }
{
    word(sorts, ROW_WORDS * (id.0 as usize))
}

// The part of a sort's row as far as it is looked at: 0 where the kind has none, whatever the word there is.
fn part_at(sorts: &[u16], id: SortId) -> u16
    ensures { result ≡ (words_at sorts.now id.0).part }
{
    if kind_at(sorts, id) < FIRST_CONTAINER {
        return 0;
    }
    word(sorts, ROW_WORDS * (id.0 as usize) + 1)
}

// The run of a sort's row as far as it is looked at: empty where the row is no function, whatever the words there are.
fn run_at(sorts: &[u16], id: SortId) -> Run
    ensures { RunAt sorts.now id.0 result }
{
    if kind_at(sorts, id) == FUNCTION_KIND {
        let at = ROW_WORDS * (id.0 as usize);
        return Run {
            start: word(sorts, at + 2),
            count: word(sorts, at + 3),
        };
    }
    Run { start: 0, count: 0 }
}

// The k-th entry of a run.
fn entry(words: &[u16], run: Run, k: u16) -> SortId
    ensures { result.0 ≡ entry_at words.now (run.start + k) }
{
    SortId(word(words, ENTRIES_AT + ((run.start as usize) + (k as usize))))
}

// Whether two runs have the same entries. Where they start does not count.
// kept: entry by entry and no equality of slices, since an entry past the end counts as 0.
fn same_run(words: &[u16], a: Run, b: Run) -> bool
    ensures { result
        ≡ same_words (entries_of words.now a.start a.count)
        (entries_of words.now b.start b.count) }
{
    if a.count != b.count {
        return false;
    }
    (0..a.count).all(|k| entry(words, a, k) == entry(words, b, k))
}

// Whether the rows of two sorts are the same: kind, part and the contents of the runs. Words not looked at do not
// count.
pub fn same_rows(sorts: &[u16], lhs: SortId, rhs: SortId) -> bool
    ensures { result ≡ same_row (words_at sorts.now lhs.0) (words_at sorts.now rhs.0) }
{
    kind_at(sorts, lhs) == kind_at(sorts, rhs)
        && part_at(sorts, lhs) == part_at(sorts, rhs)
        && same_run(sorts, run_at(sorts, lhs), run_at(sorts, rhs))
}

// Whether a run has these sorts as its entries, and no more.
// kept: beside same_run: both are a test of the lengths and one `all`; one over the k-th entry would be longer than either.
fn has_args(words: &[u16], run: Run, args: &[SortId]) -> bool
    ensures { result ≡ same_words (entries_of words.now run.start run.count) (sort_numbers args.now) }
{
    if (run.count as usize) != args.len() {
        return false;
    }
    (0..run.count).all(|k| entry(words, run, k) == args[k as usize])
}

// Whether a sort's row is this one. Words not looked at do not count.
fn is_row(words: &[u16], id: SortId, row: &Row) -> bool
    ensures { result ≡ is_row words.now (given_row row.now.kind row.now.part row.now.args.now) id.0 }
{
    kind_at(words, id) == row.kind
        && part_at(words, id) == row.part.0
        && has_args(words, run_at(words, id), row.args)
}

// Row i set to four words. The part of it that lies past the end is left out.
#[tactic(auto, unfolding(resolved_sort::specs::Storage::put_row))]
pub fn put_row(sorts: &mut [u16], i: u16, kind: u16, part: u16, start: u16, count: u16)
    ensures { sorts.new ≡ put_row sorts.old i kind part start count }
{
    let at = ROW_WORDS * (i as usize);
    put(sorts, at, kind);
    put(sorts, at + 1, part);
    put(sorts, at + 2, start);
    put(sorts, at + 3, count);
}

// The rows of the fixed six sorts put, each of the kind that is its number, from the words at a place on. Their other
// words stay.
pub fn put_fixed_six(words: &mut [u16], at: usize)
    requires { at + row_words * fixed_sorts ≤ length words.old }
    ensures { words.new ≡ fixed_rows at fixed_sorts words.old }
{
    for kind in 0..FIXED_SORTS {
        words[at + ROW_WORDS * (kind as usize)] = kind;
    }
}

// These sorts stored as the entries from e on.
fn put_sorts(words: &mut [u16], e: u16, args: &[SortId])
    requires { length args.now ≤ max_arguments }
    ensures { words.new ≡ sets words.old (entries_at + e) (sort_numbers args.now) }
{
    for (i, id) in args.iter().enumerate() {
        put(words, ENTRIES_AT + (e as usize) + i, id.0);
    }
}

// Where a new row's run starts: at the first unused entry for a function, and 0 for every other kind.
pub fn start_of(kind: u16, e: u16) -> u16
    ensures { result ≡ cond (eqb kind function_kind) e 0 }
{
    if kind == FUNCTION_KIND { e } else { 0 }
}

impl<'a> Sorts<'a> {
    // The sort of a number, as its row says it.
    pub fn get(&self, id: SortId) -> ResolvedSort
        ensures { result ≡ row_at self.now.words.now id.0 }
    {
        get(self.words, id)
    }

    // The k-th argument of a function with this domain.
    pub fn argument(&self, domain: Run, k: u16) -> SortId
        ensures { result.0 ≡ entry_at self.now.words.now (domain.start + k) }
    {
        entry(self.words, domain, k)
    }

    // Whether two functions with these domains have the same arguments in the same order.
    pub fn same_arguments(&self, lhs: Run, rhs: Run) -> bool
        ensures { result
            ≡ same_words (entries_of self.now.words.now lhs.start lhs.count)
            (entries_of self.now.words.now rhs.start rhs.count) }
    {
        same_run(self.words, lhs, rhs)
    }
}

impl<'a> SortInterner<'a> {
    // The sorts as they are, to be read.
    pub fn sorts(&self) -> Sorts<'_>
        requires { Checked self.now.words.now self.now.counts.sorts self.now.counts.entries }
        ensures { (result.words.now ≡ self.now.words.now) × (result.counts ≡ self.now.counts) }
    {
        let words = &*self.words;
        Sorts {
            words,
            counts: self.counts,
        }
    }

    // The sort of a number, as its row says it. A number without a row reads as Unit.
    pub fn get(&self, id: SortId) -> ResolvedSort
        ensures { result ≡ row_at self.now.words.now id.0 }
    {
        get(self.words, id)
    }

    // The sort whose row is this one, as a lookup in the index gives it.
    fn find_row(&self, row: &Row) -> Option<SortId>
        ensures { result
            ≡ lookup self.now.words.now self.now.index.now
            (given_row row.now.kind row.now.part row.now.args.now) }
    {
        lookup(self.words, self.index, row)
    }

    // The k-th argument of a function with this domain.
    pub fn argument(&self, domain: Run, k: u16) -> SortId
        ensures { result.0 ≡ entry_at self.now.words.now (domain.start + k) }
    {
        entry(self.words, domain, k)
    }

    // A row appended where there is room, and entered into the index; and its number. Only a function's row names a start;
    // of others it is 0.
    fn append_row(&mut self, row: &Row) -> SortId
        requires { (self.old.counts.sorts < max_sorts)
            × (length row.now.args.now ≤ max_arguments)
            × (self.old.counts.entries + length row.now.args.now ≤ max_entries) }
        ensures same_reference { self.new.words.ghost_name ≡ self.old.words.ghost_name }
        ensures same_index { self.new.index.ghost_name ≡ self.old.index.ghost_name }
        ensures words { self.new.words.now
            ≡ append_row self.old.words.now self.old.counts.sorts self.old.counts.entries
            (given_row row.now.kind row.now.part row.now.args.now) }
        ensures index { self.new.index.now
            ≡ entered self.new.words.now self.old.index.now self.old.counts.sorts }
        ensures counts { self.new.counts
            ≡ record {
              sorts = self.old.counts.sorts + 1;
              entries = self.old.counts.entries + length row.now.args.now;
            } }
        ensures number { result.0 ≡ self.old.counts.sorts }
    {
        let Counts { sorts, entries } = self.counts;
        let count = row.args.len() as u16;
        let start = start_of(row.kind, entries);
        let words = &mut *self.words;
        let index = &mut *self.index;
        put_row(words, sorts, row.kind, row.part.0, start, count);
        put_sorts(words, entries, row.args);
        enter(words, index, SortId(sorts));
        self.counts = Counts {
            sorts: sorts + 1,
            entries: entries + count,
        };
        SortId(sorts)
    }

    // The row's number: that of the row that is the same, else of one more row where there is room. Nothing changes where
    // the row is found or there is no room.
    // Each distinct sort is stored once, so that equality of sorts is that of their numbers. The six that merc interns
    // first stand at the front of every list (check 2).
    fn intern(&mut self, row: &Row) -> Result<SortId, NoRoom>
        requires fine { Checked self.old.words.now self.old.counts.sorts self.old.counts.entries
            × (length row.now.args.now ≤ max_arguments) }
        requires indexed { Indexed self.old.words.now self.old.counts.sorts self.old.index.now }
        ensures same_reference { self.new.words.ghost_name ≡ self.old.words.ghost_name }
        ensures same_index { self.new.index.ghost_name ≡ self.old.index.ghost_name }
        ensures indexed { Indexed self.new.words.now self.new.counts.sorts self.new.index.now }
        ensures interned { interned_at self.new.words.now self.new.counts result
            ≡ intern_row self.old.words.now self.old.counts.sorts self.old.counts.entries
            (given_row row.now.kind row.now.part row.now.args.now) }
        ensures kept { OnErr result
            ((self.new.counts ≡ self.old.counts) × (self.new.words.now ≡ self.old.words.now)) }
    {
        if let Some(id) = self.find_row(row) {
            return Ok(id);
        }
        let Counts { sorts, entries } = self.counts;
        if SORT_NUMBERS <= sorts || MAX_ENTRIES < (entries as usize) + row.args.len() {
            return Err(NoRoom);
        }
        Ok(self.append_row(row))
    }

    // Interns the container sort `op(subsort)`.
    pub fn generic(&mut self, op: ComplexSort, subsort: SortId) -> Result<SortId, NoRoom>
        requires fine { Checked self.old.words.now self.old.counts.sorts self.old.counts.entries
            × (subsort.0 < self.old.counts.sorts) }
        requires indexed { Indexed self.old.words.now self.old.counts.sorts self.old.index.now }
        ensures same_reference { self.new.words.ghost_name ≡ self.old.words.ghost_name }
        ensures same_index { self.new.index.ghost_name ≡ self.old.index.ghost_name }
        ensures indexed { Indexed self.new.words.now self.new.counts.sorts self.new.index.now }
        ensures interned { interned_at self.new.words.now self.new.counts result
            ≡ intern_at self.old.words.now self.old.counts.sorts self.old.counts.entries
            (container op (look (trees self.old.words.now self.old.counts.sorts) subsort.0)) }
        ensures kept { OnErr result
            ((self.new.counts ≡ self.old.counts) × (self.new.words.now ≡ self.old.words.now)) }
    {
        self.intern(&Row {
            kind: u16::from(op),
            part: subsort,
            args: &[],
        })
    }

    // Interns the function sort `domain -> range`.
    pub fn function(&mut self, domain: &[SortId], range: SortId) -> Result<SortId, NoRoom>
        requires fine { Checked self.old.words.now self.old.counts.sorts self.old.counts.entries
            × (range.0 < self.old.counts.sorts)
            × (length domain.now ≤ max_arguments)
            × AllBelow self.old.counts.sorts (sort_numbers domain.now) }
        requires indexed { Indexed self.old.words.now self.old.counts.sorts self.old.index.now }
        ensures same_reference { self.new.words.ghost_name ≡ self.old.words.ghost_name }
        ensures same_index { self.new.index.ghost_name ≡ self.old.index.ghost_name }
        ensures indexed { Indexed self.new.words.now self.new.counts.sorts self.new.index.now }
        ensures interned { interned_at self.new.words.now self.new.counts result
            ≡ intern_at self.old.words.now self.old.counts.sorts self.old.counts.entries
            (functionSort
            (look_all (trees self.old.words.now self.old.counts.sorts) (sort_numbers domain.now))
            (look (trees self.old.words.now self.old.counts.sorts) range.0)) }
        ensures kept { OnErr result
            ((self.new.counts ≡ self.old.counts) × (self.new.words.now ≡ self.old.words.now)) }
    {
        self.intern(&Row {
            kind: FUNCTION_KIND,
            part: range,
            args: domain,
        })
    }

    // What 15 leaves: zero past the counts that the call began with, and the sorts before them as they are. The index still
    // has the sorts given back.
    pub fn give_back(&mut self, counts: Counts)
        requires { (counts.sorts ≤ max_sorts)
            × (counts.entries ≤ max_entries)
            × (full_length ≤ length self.old.words.now) }
        ensures same_reference { self.new.words.ghost_name ≡ self.old.words.ghost_name }
        ensures same_index { self.new.index.ghost_name ≡ self.old.index.ghost_name }
        ensures given_back { self.new.words.now ≡ given_back counts.sorts counts.entries self.old.words.now }
        ensures index { self.new.index.now ≡ self.old.index.now }
        ensures counts { self.new.counts ≡ counts }
    {
        give_back(self.words, counts.sorts as usize, counts.entries as usize);
        self.counts = counts;
    }
}

// Interns a container sort over lists apart, with the counts then.
// kept: two slices of one struct, an Arena or a Search, apart: of an interner made of them where that struct is changed
// again, no proof is generated.
pub fn generic_over(
    words: &mut [u16],
    index: &mut [u16],
    counts: Counts,
    op: ComplexSort,
    subsort: SortId,
) -> (Result<SortId, NoRoom>, Counts)
    requires fine { Checked words.old counts.sorts counts.entries × (subsort.0 < counts.sorts) }
    requires indexed { Indexed words.old counts.sorts index.old }
    ensures indexed { Indexed words.new result.1.sorts index.new }
    ensures interned { interned_at words.new result.1 result.0
        ≡ intern_at words.old counts.sorts counts.entries
        (container op (look (trees words.old counts.sorts) subsort.0)) }
    ensures kept { OnErr result.0 ((result.1 ≡ counts) × (words.new ≡ words.old)) }
{
    let mut interner = SortInterner {
        words,
        index,
        counts,
    };
    let id = interner.generic(op, subsort);
    (id, interner.counts)
}
