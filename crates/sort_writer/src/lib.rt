// Writing a sort of the lent sort list as text in mCRL2 spelling. All sizes are found first, in rising sort number, so
// that shared parts are looked at once; then the text is put into the lent buffer, or nothing is.
#![tactic(auto)]

ghost use Rattle.std.specs.Prelude.{◌≡◌, Ok, Err, MatchResult, ◌+◌, ◌<◌, ◌≤◌, length, get_or, replicate};
ghost use Rattle.resolved_sort.specs.Storage.{max_sorts, entry_at, entries_of};
ghost use Rattle.resolved_sort.specs.Checks.{first_failing};
ghost use Rattle.resolved_sort.specs.Entries.{tree_at};
ghost use Rattle.sort_text.specs.Text.{text};
ghost use Rattle.sort_text.specs.Writing.{write_checks, write_left, writing};
ghost use Rattle.sort_writer.specs.Inner.Sizes.{joined, run_size, row_size, sizes_to};
ghost use Rattle.text_out.specs.Outs.{then_put};
ghost use Rattle.sort_writer.specs.Packed.{pack_written, packed_write, pack_write_left};

use resolved_sort::{
    Counts, ENTRIES_AT, MAX_SORTS, Refusal, ResolvedSort, Run, SORT_WORDS, SortId,
};
use sort_checks::test_sorts;
use sort_interner::{Sorts, get};
use sort_text::{op_word, sort_word};
use text_out::Out;
use words::{BIT_63, word};

// The size of two texts one after the other. It stops at 2^63, and where one has no text there is none.
// kept: a size of 0 and no Option, since callers lend fill_sizes the numbers that it stores: an Option would be made of a 0
// at each read, and a 0 of it at each store.
#[tactic(auto, using(crate::proofs::Sizes::joined_none, crate::proofs::Sizes::joined_with_none, crate::proofs::Sizes::joined_as))]
fn join_sizes(a: usize, b: usize) -> usize
    ensures { result ≡ joined a b }
{
    if a == 0 || b == 0 {
        return 0;
    }
    a.saturating_add(b).min(MOST_SIZE)
}

// The size found for a sort. A number past the sizes has none.
pub fn size_at(sizes: &[usize], id: SortId) -> usize
    ensures { result ≡ get_or sizes.now id.0 0 }
{
    sizes.get(id.0 as usize).copied().unwrap_or(0)
}

// A list of sorts, and the sizes found so far.
// kept: over the words, since check 13 is made before check 14: a list whose storage is short is no Sorts yet.
#[derive(Clone, Copy)]
struct SizedSorts<'a> {
    sorts: &'a [u16],
    sizes: &'a [usize],
}

impl SizedSorts<'_> {
    // The size of the j-th argument of a run.
    fn argument(&self, run: Run, j: u16) -> usize
        ensures { result ≡ get_or self.now.sizes.now (entry_at self.now.sorts.now (run.start + j)) 0 }
    {
        size_at(
            self.sizes,
            SortId(word(
                self.sorts,
                ENTRIES_AT + ((run.start as usize) + (j as usize)),
            )),
        )
    }

    // The size of all arguments of a run with ` # ` between them, from the last back to the first. No arguments have no
    // text.
    fn arguments(&self, run: Run) -> usize
        ensures { result ≡ run_size self.now.sizes.now (entries_of self.now.sorts.now run.start run.count) }
    {
        let Some(last) = run.count.checked_sub(1) else {
            return 0;
        };
        let mut size = self.argument(run, last);
        for j in (0..last).rev() {
            let first = self.argument(run, j);
            size = join_sizes(first, join_sizes(3, size));
        }
        size
    }

    // The size of the sort that a row says, by the sizes of its parts. Unit, Def and TypeVar have no text.
    #[tactic(auto, unfolding(crate::specs::Inner::Sizes::row_size))]
    fn row(&self, row: ResolvedSort) -> usize
        ensures { result ≡ row_size self.now.sorts.now self.now.sizes.now row }
    {
        match row {
            ResolvedSort::Unit => 0,
            ResolvedSort::Primitive(sort) => sort_word(sort).len(),
            ResolvedSort::Container { op, subsort } => {
                join_sizes(op_word(op).len() + 2, size_at(self.sizes, subsort))
            }
            ResolvedSort::Function { domain, range } => join_sizes(
                self.arguments(domain),
                join_sizes(4, size_at(self.sizes, range)),
            ),
            ResolvedSort::Def(_) => 0,
            ResolvedSort::TypeVar(_) => 0,
        }
    }
}

// The sizes of the first n sorts, in rising number: each row is looked at once.
pub fn fill_sizes(sorts: &[u16], n: usize, sizes: &mut [usize])
    requires { (n ≤ max_sorts) × (n ≤ length sizes.old) }
    ensures { sizes.new ≡ sizes_to sorts.now sizes.old n }
{
    for i in 0..n {
        let row = get(sorts, SortId(i as u16));
        sizes[i] = SizedSorts { sorts, sizes }.row(row);
    }
}

// The size of a sort of the list. The sizes of the others are not kept.
fn text_size(sorts: &[u16], n: usize, id: SortId) -> usize
    requires { n ≤ max_sorts }
    ensures { result ≡ get_or (sizes_to sorts.now (replicate max_sorts 0) n) id.0 0 }
{
    let mut sizes = [0usize; MAX_SORTS];
    fill_sizes(sorts, n, &mut sizes);
    size_at(&sizes, id)
}

// The text of a sort, as far as there is room.
pub fn put_text(sorts: &Sorts, id: SortId, out: &mut Out)
    requires { id.0 < sorts.now.counts.sorts }
    ensures { out.new
        ≡ then_put out.old (text (tree_at sorts.now.words.now sorts.now.counts.sorts id.0)) }
{
    match sorts.get(id) {
        ResolvedSort::Unit | ResolvedSort::Def(_) | ResolvedSort::TypeVar(_) => {}
        ResolvedSort::Primitive(sort) => out.put_text(sort_word(sort)),
        ResolvedSort::Container { op, subsort } => {
            out.put_text(op_word(op));
            out.put_byte(b'(');
            put_text(sorts, subsort, out);
            out.put_byte(b')');
        }
        ResolvedSort::Function { domain, range } => {
            for k in 0..domain.count {
                if 0 < k {
                    out.put_text(b" # ");
                }
                put_text(sorts, sorts.argument(domain, k), out);
            }
            out.put_text(b" -> ");
            put_text(sorts, range, out);
        }
    }
}

// Checks 1 to 4, 12, 13 and 14 of writing a sort: the first that fails, or the counts of the list.
// kept: the list with its counts apart, here and in write: a caller would make a struct of these same fields for one
// call. The export has them apart since C calls it so.
fn test_write(
    sorts: &[u16],
    sort_count: usize,
    entry_count: usize,
    id: SortId,
    out: &[u8],
) -> Result<Counts, Refusal>
    ensures { MatchResult result
        (λ counts. (counts.sorts ≡ sort_count)
        × (counts.entries ≡ entry_count)
        × (Ok tt ≡ first_failing (write_checks sorts.now sort_count entry_count id.0 out.now)))
        (λ refusal. Err refusal
        ≡ first_failing (write_checks sorts.now sort_count entry_count id.0 out.now)) }
{
    test_sorts(sorts, sort_count, entry_count)?;
    if sort_count <= (id.0 as usize) {
        return Err(Refusal::NotInList);
    }
    let size = text_size(sorts, sort_count, id);
    if size == 0 {
        return Err(Refusal::NoText);
    }
    if sorts.len() < SORT_WORDS {
        return Err(Refusal::TooShort);
    }
    if out.len() < size {
        return Err(Refusal::TooShort);
    }
    Ok(Counts {
        sorts: sort_count as u16,
        entries: entry_count as u16,
    })
}

// The text of a sort in the lent buffer, and its length. Not one byte is written on a refusal, and none past the text.
// Ruled out: a text for a function with an argument that has none; ` #` for ` # `; 14 for a sort without text.
pub fn write(
    words: &[u16],
    sort_count: usize,
    entry_count: usize,
    id: SortId,
    out: &mut [u8],
) -> Result<usize, Refusal>
    ensures { write_left out.new result
        ≡ writing words.now sort_count entry_count id.0 out.old }
{
    let counts = test_write(words, sort_count, entry_count, id, out)?;
    let sorts = Sorts { words, counts };
    let mut to = Out { bytes: out, at: 0 };
    put_text(&sorts, id, &mut to);
    Ok(to.at)
}

// An answer as one number: the length of the text, or 2^63 and the code of a refusal.
// kept: no pack of entry_answers, whose codes take the lowest 8 bits, since a length may need them.
#[tactic(auto, unfolding(resolved_sort::specs::Entries::code_answered))]
fn pack_written(answer: Result<usize, Refusal>) -> u64
    ensures { result ≡ pack_written answer }
{
    match answer {
        Ok(length) => length as u64,
        Err(refusal) => BIT_63 + (refusal.code() as u64),
    }
}

// The writer for callers in other languages: a slice is a pointer and a length, and the answer is packed.
#[unsafe(no_mangle)]
pub extern "C" fn sort_write(
    sorts: &[u16],
    sort_count: usize,
    entry_count: usize,
    id: u16,
    out: &mut [u8],
) -> u64
    ensures { packed_write out.new result
        ≡ pack_write_left (writing sorts.now sort_count entry_count id out.old) }
{
    pack_written(write(sorts, sort_count, entry_count, SortId(id), out))
}

// Where the sizes of texts stop: no buffer is that long.
const MOST_SIZE: usize = 9223372036854775808;
