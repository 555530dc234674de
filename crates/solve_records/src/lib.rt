// The entry solve over a lent list of overload records, thinly above the core on numbers. The records are unpacked once
// into words; the functions that meet a slice of records are few.
#![tactic(auto)]

ghost use Rattle.std.specs.Prelude.{◌≡◌, ◌<◌, ◌*◌, ◌+◌, ◌^◌, min, take};
ghost use Rattle.std.proofs.lemmas.List.Edits.{sets};
ghost use Rattle.inference.specs.Constraints.{max_overloads, overload_words};
ghost use Rattle.inference.specs.SolveEntry.{solve_entry};
ghost use Rattle.solve_checks.specs.Call.{call_of};
ghost use Rattle.solve_outputs.specs.Handout.{solve_left_with, SameHandout};
ghost use Rattle.solve_outputs.specs.Packed.{packed_solve, pack_solve_left};
ghost use Rattle.solve_entries.specs.Given.{given_of};
ghost use Rattle.solve_records.specs.Records.{words_of, record_words};
ghost use Rattle.solve_records.specs.Call.{call_over};
ghost use Rattle.solve_records.specs.Inner.Records.{unpacked};

use inference::{MAX_OVERLOADS, OVERLOAD_WORDS, Verdict};
use resolved_sort::{Refusal, SortId};
use solve_checks::{Given, Problem};
use solve_entries::solve;
use solve_outputs::{Handout, pack_solved};
use unification::InferSortId;
use words::put;

// What a name resolved to, as the caller says it: kind 1 a variable, 2 an operation with its sort, 3 a built-in. Any
// other kind is refused with 9.
// kept: the kind is a word, since a caller in C may hand in any; of an enum such a word would be no value.
#[repr(C)]
#[derive(Clone, Copy, Drop)]
pub struct TargetRecord {
    pub kind: u16,
    pub sort: SortId,
}

// One overload of a name, as the caller says it: what it resolves to, and the place of its sort.
// Three words of 16 bits in C's layout.
#[repr(C)]
#[derive(Clone, Copy, Drop)]
pub struct OverloadRecord {
    pub target: TargetRecord,
    pub sort: InferSortId,
}

// The words of as many records as there can be.
const UNPACKED_WORDS: usize = OVERLOAD_WORDS * MAX_OVERLOADS;

// The three words of a record go to the places from 3 i on, those of them that are there.
fn put_record(words: &mut [u16], i: usize, overload: OverloadRecord)
    requires { overload_words * i + 2 < 2 ^ 64 }
    ensures { words.new ≡ sets words.old (overload_words * i) (words_of overload) }
{
    put(words, OVERLOAD_WORDS * i, overload.target.kind);
    put(words, OVERLOAD_WORDS * i + 1, overload.target.sort.0);
    put(words, OVERLOAD_WORDS * i + 2, overload.sort.0);
}

// How many of n records are looked at.
fn at_most(n: usize) -> usize
    ensures { result ≡ min max_overloads n }
{
    MAX_OVERLOADS.min(n)
}

// The words of the records, up to the ceiling, and zeros after them. The array goes by value, so
// that no caller has to lend it.
// kept: by number. Tried over `records[..n].iter().enumerate()`: each record is then one of those taken, and it takes two
// laws more to say that it is the i-th of all, which is what the words are said of.
fn unpack(records: &[OverloadRecord]) -> [u16; UNPACKED_WORDS]
    ensures { result ≡ unpacked records.now }
{
    let mut words = [0; UNPACKED_WORDS];
    for i in 0..at_most(records.len()) {
        put_record(&mut words, i, records[i]);
    }
    words
}

// Infers the sorts of the expressions, as solve does on the words of the records: these are the overloads, and those of
// the problem are not looked at. Records past the ceiling are not looked at: a count that reaches them is refused with
// 1, and so is one above the length of the slice. So the first 1,024, of which the contract speaks, stand for all
// (proofs/PastCeiling.antt).
// Ruled out: another outcome than that of the same call on numbers; a record read past the slice.
pub fn solve_records(
    sorts: &mut [u16],
    nodes: &mut [u16],
    binds: &mut [u16],
    problem: &Problem<'_>,
    overloads: &[OverloadRecord],
    scratch: &mut [u16],
    index: &mut [u16],
    handout: &mut Handout<'_>,
) -> Result<Verdict, Refusal>
    ensures says { solve_left_with result sorts.new nodes.new binds.new scratch.new index.new handout.new
        ≡ solve_entry (call_over problem.now (record_words (take max_overloads overloads.now))
        sorts.old nodes.old binds.old scratch.old index.old handout.old) }
    ensures same_reference { SameHandout handout.old handout.new }
{
    let words = unpack(overloads);
    let used = OVERLOAD_WORDS * at_most(overloads.len());
    let unpacked = Problem {
        overloads: &words[..used],
        ..*problem
    };
    solve(sorts, nodes, binds, &unpacked, scratch, index, handout)
}

// The entry over records for callers in other languages: a slice is a pointer and a length, counts
// are numbers, and the answer is packed.
#[unsafe(no_mangle)]
pub extern "C" fn sort_solve_records(
    sorts: &mut [u16],
    sort_count: usize,
    entry_count: usize,
    nodes: &mut [u16],
    node_count: usize,
    node_entry_count: usize,
    binds: &mut [u16],
    var_count: usize,
    exprs: &[u16],
    expr_count: usize,
    names: &[u16],
    name_count: usize,
    constraints: &[u16],
    constraint_count: usize,
    overloads: &[OverloadRecord],
    overload_count: usize,
    sources: &[u16],
    source_count: usize,
    default: u16,
    scratch: &mut [u16],
    index: &mut [u16],
    typing: &mut [u16],
    measure: &mut [u16],
    choices: &mut [u16],
) -> u64
    ensures { packed_solve result sorts.new nodes.new binds.new scratch.new index.new
        typing.new measure.new choices.new
        ≡ pack_solve_left (solve_entry (call_of (given_of sort_count entry_count node_count node_entry_count
        var_count expr_count name_count constraint_count overload_count source_count default)
        sorts.old nodes.old binds.old exprs.now
        names.now constraints.now
        (record_words (take max_overloads overloads.now)) sources.now
        scratch.old index.old typing.old measure.old choices.old)) }
{
    let given = Given {
        sorts: sort_count,
        entries: entry_count,
        nodes: node_count,
        arguments: node_entry_count,
        variables: var_count,
        exprs: expr_count,
        names: name_count,
        constraints: constraint_count,
        overloads: overload_count,
        sources: source_count,
        default: SortId(default),
    };
    let problem = Problem {
        exprs,
        names,
        constraints,
        overloads: &[],
        sources,
        given,
    };
    let mut handout = Handout {
        typing,
        measure,
        choices,
    };
    pack_solved(solve_records(
        sorts,
        nodes,
        binds,
        &problem,
        overloads,
        scratch,
        index,
        &mut handout,
    ))
}
