// The entry unify. It takes the lent sort and node storage, the bindings and their counts, tests them itself, and has
// no `requires`: whatever a caller hands in, the answer and the bindings at exit are the defined ones.
#![tactic(auto)]

ghost use Rattle.std.specs.Prelude.{◌≡◌, ◌++◌, ◌≤◌, Ok};
ghost use Rattle.resolved_sort.specs.Checks.{first_failing};
ghost use Rattle.unification.specs.Nodes.{max_nodes, max_vars, binds_of};
ghost use Rattle.unification.specs.Unify.{unify as unifyOf};
ghost use Rattle.unification.specs.NodeChecks.{node_checks, place_checks, unify_checks};
ghost use Rattle.unification.specs.Checked.{graph_of, Ready, Placed};
ghost use Rattle.unification.specs.UnifyEntry.{binds_left, binds_left_by, unify_entry};
ghost use Rattle.unify_entries.specs.Packed.{pack_unified, packed_binds, pack_binds_left};

use entry_answers::{pack, pack_yes};
use infer_nodes::Places;
use node_checks::{bindings_within_lent, is_place, nodes_within_lent, test_nodes};
use resolved_sort::{Refusal, SORT_WORDS};
use sort_checks::{test_sorts, within_lent};
use unification::{InferSortId, Lengths, MAX_VARS, NODE_WORDS};
use unifier::Unifier;

// What a caller lends, with its counts.
#[derive(Clone, Copy)]
struct Lent<'a> {
    sorts: &'a [u16],
    sort_count: usize,
    entry_count: usize,
    nodes: &'a [u16],
    node_count: usize,
    node_entry_count: usize,
    binds: &'a [u16],
    var_count: usize,
}

impl Lent<'_> {
    // Checks 12 and 14: the first that fails.
    fn test_places(&self, lhs: InferSortId, rhs: InferSortId) -> Result<(), Refusal>
        ensures { result
            ≡ first_failing (place_checks self.now.sorts.now self.now.sort_count
            self.now.nodes.now self.now.node_count lhs.0 rhs.0) }
    {
        if !is_place(self.sort_count, self.node_count, lhs) {
            return Err(Refusal::NotInList);
        }
        if !is_place(self.sort_count, self.node_count, rhs) {
            return Err(Refusal::NotInList);
        }
        if self.sorts.len() < SORT_WORDS {
            return Err(Refusal::TooShort);
        }
        if self.nodes.len() < NODE_WORDS {
            return Err(Refusal::TooShort);
        }
        Ok(())
    }

    // Checks 5 to 7, 12 and 14: the first that fails.
    fn test_rest(&self, lhs: InferSortId, rhs: InferSortId) -> Result<(), Refusal>
        requires { (self.now.node_count ≤ max_nodes) × (self.now.var_count ≤ max_vars) }
        ensures { result
            ≡ first_failing (node_checks self.now.nodes.now self.now.node_count
            self.now.node_entry_count self.now.sort_count self.now.binds.now
            self.now.var_count
            ++ place_checks self.now.sorts.now self.now.sort_count
            self.now.nodes.now self.now.node_count lhs.0 rhs.0) }
    {
        test_nodes(
            self.sort_count,
            self.nodes,
            self.node_count,
            self.node_entry_count,
            self.binds,
            self.var_count,
        )?;
        self.test_places(lhs, rhs)
    }

    // The checks of unify: the first that fails.
    fn test_unify(&self, lhs: InferSortId, rhs: InferSortId) -> Result<(), Refusal>
        ensures { result
            ≡ first_failing (unify_checks self.now.sorts.now self.now.sort_count
            self.now.entry_count self.now.nodes.now self.now.node_count
            self.now.node_entry_count self.now.binds.now self.now.var_count
            lhs.0 rhs.0) }
    {
        if !within_lent(self.sorts, self.sort_count, self.entry_count) {
            return Err(Refusal::NotLent);
        }
        if !nodes_within_lent(self.nodes, self.node_count, self.node_entry_count) {
            return Err(Refusal::NotLent);
        }
        if !bindings_within_lent(self.binds, self.var_count) {
            return Err(Refusal::NotLent);
        }
        test_sorts(self.sorts, self.sort_count, self.entry_count)?;
        self.test_rest(lhs, rhs)
    }
}

// Unify on checked lists; a no frees again what was bound.
fn unify_alone(places: Places<'_>, binds: &mut [u16], lhs: InferSortId, rhs: InferSortId) -> bool
    requires { Ready places.sorts.now places.nodes.now binds.old places.lengths
        × Placed places.lengths lhs.0
        × Placed places.lengths rhs.0 }
    ensures { binds_left binds.new (Ok result)
        ≡ binds_left_by binds.old places.entry.lengths.variables
        (unifyOf
        (graph_of places.entry.sorts.now places.entry.nodes.now places.entry.lengths)
        (binds_of binds.old places.entry.lengths.variables) lhs.0 rhs.0) }
{
    let mut trail = [0; MAX_VARS];
    let mut unifier = Unifier {
        places,
        binds,
        trail: &mut trail,
        count: 0,
    };
    if unifier.unify(lhs, rhs) {
        return true;
    }
    unifier.undo(0);
    false
}

// Makes two places denote the same sort, binding variables as needed, and answers whether they are
// unifiable. A no leaves the bindings as they were.
// Ruled out: a variable bound to what it occurs in; the right one of two free variables bound to
// the left; a binding left by a no.
// kept: parameters as the export has them: each caller would make a struct for one call, with these same fields, and
// the bindings, which are written, would stand beside it all the same, since the contract says what is left in them.
pub fn unify(
    sorts: &[u16],
    sort_count: usize,
    entry_count: usize,
    nodes: &[u16],
    node_count: usize,
    node_entry_count: usize,
    binds: &mut [u16],
    var_count: usize,
    lhs: InferSortId,
    rhs: InferSortId,
) -> Result<bool, Refusal>
    ensures { binds_left binds.new result
        ≡ unify_entry sorts.now sort_count entry_count nodes.now node_count
        node_entry_count binds.old var_count lhs.0 rhs.0 }
{
    let lent = Lent {
        sorts,
        sort_count,
        entry_count,
        nodes,
        node_count,
        node_entry_count,
        binds: &*binds,
        var_count,
    };
    lent.test_unify(lhs, rhs)?;
    let lengths = Lengths {
        sorts: sort_count as u16,
        entries: entry_count as u16,
        nodes: node_count as u16,
        arguments: node_entry_count as u16,
        variables: var_count as u16,
    };
    let places = Places {
        sorts,
        nodes,
        lengths,
    };
    Ok(unify_alone(places, binds, lhs, rhs))
}

// The entry for callers in other languages: a slice is a pointer and a length, places are numbers,
// and the answer is packed.
#[unsafe(no_mangle)]
pub extern "C" fn sort_unify(
    sorts: &[u16],
    sort_count: usize,
    entry_count: usize,
    nodes: &[u16],
    node_count: usize,
    node_entry_count: usize,
    binds: &mut [u16],
    var_count: usize,
    lhs: u16,
    rhs: u16,
) -> u64
    ensures { packed_binds binds.new result
        ≡ pack_binds_left (unify_entry sorts.now sort_count entry_count nodes.now
        node_count node_entry_count binds.old var_count lhs rhs) }
{
    let answer = unify(
        sorts,
        sort_count,
        entry_count,
        nodes,
        node_count,
        node_entry_count,
        binds,
        var_count,
        InferSortId(lhs),
        InferSortId(rhs),
    );
    pack(answer.map(pack_yes))
}
