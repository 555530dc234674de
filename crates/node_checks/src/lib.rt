// Checks 1 and 5 to 7 of document 01 over lent nodes and bindings, and the first of 5 to 7 that fails. Check 7, no
// variable reaches itself: round by round a variable is settled when it is free or when what it is bound to is settled,
// and a sort when all that stands in it is; as many rounds as there are variables settle all that can be, and where all
// are settled before, no further round is made. Where nothing is bound, none is.
#![tactic(auto)]

ghost use Rattle.std.specs.Prelude.{◌≡◌, ◌+◌, ◌<◌, ◌≤◌, false, length, get_or, take};
ghost use Rattle.resolved_sort.specs.Checks.{all_below, first_failing};
ghost use Rattle.unification.specs.declared.InferSort.{InferSort};
ghost use Rattle.unification.specs.Nodes.{max_nodes, is_place, binding_of, binds_of, max_vars, node_entries_of, node_at};
ghost use Rattle.unification.specs.Nodes.{node_shape};
ghost use Rattle.unification.specs.NodeChecks.{nodes_within_lent, bindings_within_lent, node_parts_fine, node_kind_fine};
ghost use Rattle.unification.specs.NodeChecks.{node_fine, nodes_fine, binding_fine, bindings_fine, node_checks};
ghost use Rattle.node_checks.specs.Inner.Tests.{arg_placed, is_free, nothing_bound};
ghost use Rattle.unification.specs.Acyclic.{place_settled, all_settled, shape_settled, nodes_settled, binding_settled};
ghost use Rattle.unification.specs.Acyclic.{vars_settled, all_true, acyclic as acyclicOf};

use infer_nodes::node;
use resolved_sort::{FIRST_CONTAINER, FUNCTION_KIND, MAX_ARGUMENTS, ROW_WORDS, Refusal, Run};
use sort_checks::storage_within;
use unification::{
    InferSort, InferSortId, MAX_NODES, MAX_VARS, NODE_ENTRIES_AT, NODE_NUMBERS, NodeId, Place,
    VARIABLE_KIND, binding_of,
};
use words::word;

// Check 1: m nodes and d entries are within the ceilings and within what was lent.
#[tactic(auto, unfolding(unification::specs::NodeChecks::nodes_within_lent))]
pub fn nodes_within_lent(nodes: &[u16], m: usize, d: usize) -> bool
    ensures { result ≡ nodes_within_lent nodes.now m d }
{
    storage_within(nodes, m, d, NODE_NUMBERS)
}

// Check 1: v bindings likewise.
#[tactic(auto, unfolding(unification::specs::NodeChecks::bindings_within_lent))]
pub fn bindings_within_lent(binds: &[u16], v: usize) -> bool
    ensures { result ≡ bindings_within_lent binds.now v }
{
    v <= MAX_VARS && v <= binds.len()
}

// Whether a place is a sort below n or a node below m.
pub fn is_place(n: usize, m: usize, p: InferSortId) -> bool
    ensures { result ≡ is_place n m p.0 }
{
    match Place::from(p) {
        Place::Sort(sort) => (sort.0 as usize) < n,
        Place::Node(at) => (at.0 as usize) < m,
    }
}

// Whether a node has a known kind: a container, a function or a variable.
// kept: a number, since the word may be no kind: that is what is asked.
#[tactic(auto, unfolding(unification::specs::NodeChecks::node_kind_fine))]
fn kind_fine(kind: u16) -> bool
    ensures { result ≡ node_kind_fine kind }
{
    kind == VARIABLE_KIND || (FIRST_CONTAINER <= kind && kind <= FUNCTION_KIND)
}

// Node storage as it was lent, with the counts given of it, and how many sorts and variables its parts may name.
// kept: beside sort_checks: rows are read otherwise, and parts are places and no numbers. A trait would say both anew.
#[derive(Clone, Copy)]
struct Lent<'a> {
    words: &'a [u16],
    nodes: usize,
    entries: usize,
    sorts: usize,
    variables: usize,
}

impl Lent<'_> {
    // Whether each argument of a run is a place below this node.
    fn arguments_placed(&self, id: NodeId, run: Run) -> bool
        ensures { result ≡ all_below run.count (arg_placed self.now.words.now self.now.sorts id.0 run.start) }
    {
        (0..run.count).all(|j| {
            let at = NODE_ENTRIES_AT + ((run.start as usize) + (j as usize));
            is_place(self.sorts, id.0 as usize, InferSortId(word(self.words, at)))
        })
    }

    // Whether a node that is a function has at most 16 arguments, a run inside the entries, and parts that are places
    // below it.
    #[tactic(auto, unfolding(unification::specs::NodeChecks::node_parts_fine))]
    fn function_fine(&self, id: NodeId, domain: Run, range: InferSortId) -> bool
        ensures { result
            ≡ node_parts_fine self.now.words.now self.now.entries self.now.sorts
            self.now.variables id.0 (InferSort.Function domain range) }
    {
        domain.count <= MAX_ARGUMENTS
            && (domain.start as usize) + (domain.count as usize) <= self.entries
            && is_place(self.sorts, id.0 as usize, range)
            && self.arguments_placed(id, domain)
    }

    // Whether the parts of a node are fine: places below it, and a variable of the list.
    #[tactic(auto, unfolding(unification::specs::NodeChecks::node_parts_fine))]
    fn parts_fine(&self, id: NodeId, says: InferSort) -> bool
        ensures { result
            ≡ node_parts_fine self.now.words.now self.now.entries self.now.sorts
            self.now.variables id.0 says }
    {
        match says {
            InferSort::Generic { op: _, subsort } => is_place(self.sorts, id.0 as usize, subsort),
            InferSort::Function { domain, range } => self.function_fine(id, domain, range),
            InferSort::Var(var) => (var.0 as usize) < self.variables,
        }
    }

    // Whether a node is fine.
    #[tactic(auto, unfolding(unification::specs::NodeChecks::node_fine))]
    fn node_fine(&self, id: NodeId) -> bool
        ensures { result
            ≡ node_fine self.now.words.now self.now.entries self.now.sorts self.now.variables id.0 }
    {
        kind_fine(word(self.words, ROW_WORDS * (id.0 as usize)))
            && self.parts_fine(id, node(self.words, id))
    }

    // Check 5: each of the nodes is fine.
    fn nodes_fine(&self) -> bool
        requires { self.now.nodes ≤ max_nodes }
        ensures { result
            ≡ nodes_fine self.now.words.now self.now.nodes self.now.entries self.now.sorts
            self.now.variables }
    {
        (0..self.nodes).all(|i| self.node_fine(NodeId(i as u16)))
    }
}

// Check 6: each of the v bindings is free or names a place.
// kept: v beside the bindings, and m beside the nodes below: a slice up to a count could be taken only where the count
// is known to be within the list, which no function of these checks asks.
fn bindings_fine(binds: &[u16], v: usize, n: usize, m: usize) -> bool
    ensures { result ≡ bindings_fine n m (binds_of binds.now v) }
{
    (0..v).all(|i| binding_fine(n, m, word(binds, i)))
}

#[tactic(auto, using(crate::proofs::Laws::bindings))]
fn binding_fine(n: usize, m: usize, w: u16) -> bool
    ensures { result ≡ binding_fine n m (binding_of w) }
{
    binding_of(w).is_none_or(|place| is_place(n, m, place))
}

// The flag at an index; past the end there is none.
fn flag(flags: &[bool], i: usize) -> bool
    ensures { result ≡ get_or flags.now i false }
{
    flags.get(i).copied().unwrap_or(false)
}

// Whether the sort at a place is settled. An interned sort is.
fn place_settled(flags: &[bool], place: InferSortId) -> bool
    ensures { result ≡ place_settled flags.now place.0 }
{
    match Place::from(place) {
        Place::Sort(_) => true,
        Place::Node(at) => flag(flags, at.0 as usize),
    }
}

// Whether each of a run of arguments is settled.
fn arguments_settled(nodes: &[u16], flags: &[bool], run: Run) -> bool
    ensures { result ≡ all_settled flags.now (node_entries_of nodes.now run.start run.count) }
{
    (0..run.count).all(|j| {
        let at = NODE_ENTRIES_AT + ((run.start as usize) + (j as usize));
        place_settled(flags, InferSortId(word(nodes, at)))
    })
}

// Whether a node is settled, by the variables and the nodes below it.
#[tactic(auto, using(crate::proofs::Settling::node_ways))]
fn node_settled(nodes: &[u16], vars: &[bool], flags: &[bool], id: NodeId) -> bool
    ensures { result
        ≡ shape_settled vars.now flags.now
        (node_shape nodes.now (node_at nodes.now id.0)) }
{
    match node(nodes, id) {
        InferSort::Generic { op: _, subsort } => place_settled(flags, subsort),
        InferSort::Function { domain, range } => {
            arguments_settled(nodes, flags, domain) && place_settled(flags, range)
        }
        InferSort::Var(var) => flag(vars, var.0 as usize),
    }
}

// The nodes in rising number.
fn settle_nodes(nodes: &[u16], m: usize, vars: &[bool], flags: &mut [bool])
    requires { (m ≤ max_nodes) × (m ≤ length flags.old) }
    ensures { take m flags.new ≡ nodes_settled nodes.now vars.now m }
{
    // kept: by index: a node is settled by the flags before its own, which a loop over all flags to be set would hold.
    for i in 0..m {
        let settled = node_settled(nodes, vars, &flags[..i], NodeId(i as u16));
        flags[i] = settled;
    }
}

#[tactic(auto, using(crate::proofs::Settling::bindings))]
fn binding_settled(flags: &[bool], w: u16) -> bool
    ensures { result ≡ binding_settled flags.now (binding_of w) }
{
    binding_of(w).is_none_or(|place| place_settled(flags, place))
}

// The variables, by the nodes.
fn settle_vars(binds: &[u16], v: usize, flags: &[bool], vars: &mut [bool])
    requires { v ≤ length vars.old }
    ensures { take v vars.new ≡ vars_settled flags.now (binds_of binds.now v) }
{
    for (x, var) in vars[..v].iter_mut().enumerate() {
        *var = binding_settled(flags, word(binds, x));
    }
}

// Whether all flags are set.
fn all_set(flags: &[bool]) -> bool
    ensures { result ≡ all_true flags.now }
{
    flags.iter().all(|&set| set)
}

// Whether a binding is free.
fn is_free(w: u16) -> bool
    ensures { result ≡ is_free (binding_of w) }
{
    binding_of(w).is_none()
}

// Whether nothing is bound: each of the v bindings is free.
fn nothing_bound(binds: &[u16], v: usize) -> bool
    ensures { result ≡ nothing_bound (binds_of binds.now v) }
{
    (0..v).all(|i| is_free(word(binds, i)))
}

// Check 7: no variable reaches itself, as none does where nothing is bound.
fn acyclic(nodes: &[u16], m: usize, binds: &[u16], v: usize) -> bool
    requires { (m ≤ max_nodes) × (v ≤ max_vars) }
    ensures { result ≡ acyclicOf nodes.now m (binds_of binds.now v) }
{
    if nothing_bound(binds, v) {
        return true;
    }
    let mut vars = [false; MAX_VARS];
    let mut flags = [false; MAX_NODES];
    for _round in 0..v {
        settle_nodes(nodes, m, &vars[..v], &mut flags);
        settle_vars(binds, v, &flags[..m], &mut vars);
        if all_set(&vars[..v]) {
            return true;
        }
    }
    all_set(&vars[..v])
}

// Checks 5 to 7: the first that fails.
// kept: counts beside lent words, which check 1 alone has compared.
pub fn test_nodes(
    sort_count: usize,
    nodes: &[u16],
    node_count: usize,
    node_entry_count: usize,
    binds: &[u16],
    var_count: usize,
) -> Result<(), Refusal>
    requires { (node_count ≤ max_nodes) × (var_count ≤ max_vars) }
    ensures { result
        ≡ first_failing (node_checks nodes.now node_count node_entry_count sort_count
        binds.now var_count) }
{
    let lent = Lent {
        words: nodes,
        nodes: node_count,
        entries: node_entry_count,
        sorts: sort_count,
        variables: var_count,
    };
    if !lent.nodes_fine() {
        return Err(Refusal::BadNode);
    }
    if !bindings_fine(binds, var_count, sort_count, node_count) {
        return Err(Refusal::BadBinding);
    }
    if !acyclic(nodes, node_count, binds, var_count) {
        return Err(Refusal::Cyclic);
    }
    Ok(())
}
