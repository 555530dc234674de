// Finding a sort without the scan: an index of 2,048 slots beside the lent sorts. A slot holds a sort's number plus one,
// and 0 where it is empty. Words past the slots are never looked at, and a word past the end counts as 0.

ghost use Rattle.std.specs.Prelude.{◌≡◌, ◌*◌, ◌%◌, ◌<◌, ◌≤◌, List, ℕ, length};
ghost use Rattle.words.specs.Words.{cleared};
ghost use Rattle.resolved_sort.specs.Storage.{max_sorts, entries_of, Row as GivenRow, words_at};
ghost use Rattle.resolved_sort.specs.Rows.{same_row};
ghost use Rattle.resolved_sort.specs.Inner.Storage.{sort_numbers};
ghost use Rattle.resolved_sort.specs.Index.{slots, wrap, mixed, mixed_all, slot_of_mix, slot_of, slot_at, next_slot};
ghost use Rattle.resolved_sort.specs.Index.{lookup, free_slot, entered, Indexed};
ghost use Rattle.sort_interner.specs.Inner.Tests.{given_row};

use crate::{Row, entry, is_row, kind_at, part_at, run_at, same_rows};
use resolved_sort::{Run, SLOTS, SortId};
use words::{put, word};

// A row that is looked for: one that is given, or that of a sort of the list.
pub trait Sought {
    ghost row_in: { Self → List ℕ → GivenRow };

    // The slot at which its number is looked for first.
    fn slot(&self, words: &[u16]) -> usize
        ensures { result ≡ slot_of (row_in self.now words.now) };

    // Whether a sort's row is this one.
    fn is(&self, words: &[u16], id: SortId) -> bool
        ensures { result ≡ same_row (words_at words.now id.0) (row_in self.now words.now) };
}

impl<'a> Sought for Row<'a> {
    ghost row_in = { λ row words. given_row row.kind row.part row.args.now };

    fn slot(&self, words: &[u16]) -> usize {
        let _ = words;
        slot_of_mix(mix_args(mix(mix(0, self.kind), self.part.0), self.args))
    }

    fn is(&self, words: &[u16], id: SortId) -> bool {
        is_row(words, id, self)
    }
}

impl Sought for SortId {
    ghost row_in = { λ id words. words_at words id.0 };

    fn slot(&self, words: &[u16]) -> usize {
        let id = *self;
        let h = mix(mix(0, kind_at(words, id)), part_at(words, id));
        slot_of_mix(mix_run(words, h, run_at(words, id)))
    }

    fn is(&self, words: &[u16], id: SortId) -> bool {
        same_rows(words, id, *self)
    }
}

// The low 32 bits of a product.
fn wrapping_mul(a: u32, b: u32) -> u32
    ensures { result ≡ a * b % wrap }
{
    ((a as u64) * (b as u64) % WRAP) as u32
}

// One more word mixed in.
#[tactic(auto, unfolding(resolved_sort::specs::Index::mixed))]
fn mix(h: u32, w: u16) -> u32
    ensures { result ≡ mixed h w }
{
    wrapping_mul(h, MIXER).wrapping_add(w as u32)
}

// The numbers of sorts mixed in, from the first on.
fn mix_args(h: u32, args: &[SortId]) -> u32
    ensures { result ≡ mixed_all h (sort_numbers args.now) }
{
    let mut mix_so_far = h;
    for id in args {
        mix_so_far = mix(mix_so_far, id.0);
    }
    mix_so_far
}

// The entries of a run mixed in, from the first on.
fn mix_run(words: &[u16], h: u32, run: Run) -> u32
    ensures { result ≡ mixed_all h (entries_of words.now run.start run.count) }
{
    let mut mix_so_far = h;
    for k in 0..run.count {
        mix_so_far = mix(mix_so_far, entry(words, run, k).0);
    }
    mix_so_far
}

// The slot of a mix.
#[tactic(auto, unfolding(resolved_sort::specs::Index::slot_of_mix))]
fn slot_of_mix(h: u32) -> usize
    ensures { result ≡ slot_of_mix h }
{
    (wrapping_mul(h, SPREADER) / LOW_BITS) as usize
}

// The slot after a slot. After the last comes the first.
#[tactic(auto, unfolding(resolved_sort::specs::Index::next_slot))]
fn next_slot(p: usize) -> usize
    ensures { result ≡ next_slot p }
{
    if p < LAST_SLOT { p + 1 } else { 0 }
}

// The sort whose row is the one looked for, up to the first empty slot. No slot past it is looked at.
pub fn lookup<R: Sought>(words: &[u16], index: &[u16], row: &R) -> Option<SortId>
    ensures { result ≡ lookup words.now index.now (R.row_in row.now words.now) }
{
    let mut at = row.slot(words);
    for _ in 0..SLOTS {
        let slot = word(index, at);
        if slot == 0 {
            return None;
        }
        let id = SortId(slot - 1);
        if row.is(words, id) {
            return Some(id);
        }
        at = next_slot(at);
    }
    None
}

// The first empty slot from a slot on.
fn free_slot(index: &[u16], from: usize) -> usize
    ensures { result ≡ free_slot index.now slots from }
{
    let mut at = from;
    for _ in 0..SLOTS {
        if word(index, at) == 0 {
            return at;
        }
        at = next_slot(at);
    }
    at
}

// A sort entered: its number plus one, in the first empty slot from its place on.
pub fn enter(words: &[u16], index: &mut [u16], id: SortId)
    requires { id.0 < max_sorts }
    ensures { index.new ≡ entered words.now index.old id.0 }
{
    let at = free_slot(index, id.slot(words));
    put(index, at, id.0 + 1);
}

// All of the lent words zero.
pub fn clear_index(index: &mut [u16])
    ensures { index.new ≡ cleared index.old }
{
    index.fill(0);
}

// The index of the first n sorts, whatever the words held.
pub fn fill_index(words: &[u16], index: &mut [u16], n: u16)
    requires { (n ≤ max_sorts) × (slots ≤ length index.old) }
    ensures { Indexed words.now n index.new }
{
    clear_index(index);
    for i in 0..n {
        enter(words, index, SortId(i));
    }
}

// What a mix wraps at; what it is multiplied by, for each word and at last; what divides it, so that the most significant
// 11 of its 32 bits are its slot; and the last slot.
const WRAP: u64 = 1 << 32;

const MIXER: u32 = 65599;

const SPREADER: u32 = 2654435761;

const LOW_BITS: u32 = 1 << 21;

const LAST_SLOT: usize = SLOTS - 1;
