// Inference nodes in lent storage, and where bindings lead: from merc's unification.rs, shallow_normalize and occurs.
#![tactic(auto)]

ghost use Rattle.std.specs.Prelude.{◌≡◌, ◌+◌, ◌*◌, ◌<◌, ◌≤◌, length, get_or, eqb};
ghost use Rattle.std.proofs.Math.Option.{some};
ghost use Rattle.resolved_sort.specs.Storage.{function_kind, max_arguments, row_words};
ghost use Rattle.unification.specs.Inner.Term.{head_of, parts_of};
ghost use Rattle.unification.specs.Term.{Shape, kind_head, same_head};
ghost use Rattle.unification.specs.Nodes.{node_entries_at, op_of_kind, node_at, node_entry_at, binding_of, bound_of};
ghost use Rattle.unification.specs.Unify.{of_test, follow, occurs as occursIn, deep};
ghost use Rattle.unification.specs.Checked.{Placed};
ghost use Rattle.infer_nodes.specs.Inner.Bound.{bound_to, BindsPass};
ghost use Rattle.infer_nodes.specs.Inner.Parts.{NodesReady, var_at, var_by, number_by, SmallCount, RowAt};

use resolved_sort::{
    ComplexSort, DEF_KIND, ENTRIES_AT, FIRST_CONTAINER, FUNCTION_KIND, ROW_WORDS, Run,
};
use unification::{
    InferSort, InferSortId, Lengths, NODE_ENTRIES_AT, NodeId, Place, SortVar, binding_of,
};
use words::word;

// The container constructor of a kind. A kind below the containers' says List: that there is none is check 5's to show.
#[tactic(auto, using(crate::proofs::Ways::op_or_list))]
fn op_of_kind(kind: u16) -> ComplexSort
    requires { kind < function_kind }
    ensures { result ≡ op_of_kind kind }
{
    ComplexSort::try_from(kind).unwrap_or(ComplexSort::List)
}

// What a node says.
pub fn node(nodes: &[u16], id: NodeId) -> InferSort
    ensures { result ≡ node_at nodes.now id.0 }
{
    let row = ROW_WORDS * (id.0 as usize);
    let kind = word(nodes, row);
    let part = InferSortId(word(nodes, row + 1));
    if kind == FUNCTION_KIND {
        let start = word(nodes, row + 2);
        let count = word(nodes, row + 3);
        return InferSort::Function {
            domain: Run { start, count },
            range: part,
        };
    }
    if kind < FUNCTION_KIND {
        return InferSort::Generic {
            op: op_of_kind(kind),
            subsort: part,
        };
    }
    InferSort::Var(SortVar(part.0))
}

// The i-th argument entry.
pub fn argument(nodes: &[u16], i: u16) -> InferSortId
    ensures { result.0 ≡ node_entry_at nodes.now i }
{
    InferSortId(word(nodes, NODE_ENTRIES_AT + i as usize))
}

// The head of a sort: its kind, and the number of arguments of a function, or that of Def and TypeVar.
// kept: the kind as a word, as in Row.
#[derive(Clone, Copy, PartialEq, Eq)]
struct Head {
    kind: u16,
    number: u16,
}

// What stands at a place: the row of a sort or of a node, and the words in which its arguments stand, from `entries`
// on.
// kept: kind is the word of the row. Rows are of sorts or of nodes, with 15 kinds between them; same_head compares the
// words of two rows, whatever they say, and what else is asked (is it a function, a variable, a container, has it a
// number) is one comparison each. An enum would be read from each row by a match of 15 cases that nothing here needs.
#[derive(Clone, Copy)]
pub struct Row<'a> {
    kind: u16,
    part: u16,
    start: u16,
    count: u16,
    words: &'a [u16],
    entries: usize,
    ghost few: { kind ≡ function_kind → count ≤ max_arguments },
    ghost inside: { entries ≤ node_entries_at },
}

impl<'a> Row<'a> {
    ghost use Rattle.infer_nodes.specs.Places.{IsRow};

    // The i-th row of these words.
    fn at(words: &'a [u16], entries: usize, i: u16) -> Row<'a>
        requires { (entries ≤ node_entries_at)
            × SmallCount words.now (row_words * i)
            × (row_words * i + 3 < length words.now) }
        ensures { RowAt words.now (row_words * i) entries
            result.kind result.part result.start result.count
            result.words.now result.entries }
    {
        let row = ROW_WORDS * (i as usize);
        Row {
            kind: words[row],
            part: words[row + 1],
            start: words[row + 2],
            count: words[row + 3],
            words,
            entries,
        }
    }

    // The variable of a node's row, if it is one.
    fn variable(&self) -> Option<SortVar>
        ensures { result ≡ var_by self.now.kind self.now.part }
    {
        if self.kind <= FUNCTION_KIND {
            return None;
        }
        Some(SortVar(self.part))
    }

    fn head(&self) -> Head
        ensures { result
            ≡ record {
              kind = self.now.kind;
              number = number_by self.now.kind self.now.part self.now.count;
            } }
    {
        let number = if self.kind == FUNCTION_KIND {
            self.count
        } else if DEF_KIND <= self.kind {
            self.part
        } else {
            0
        };
        Head {
            kind: self.kind,
            number,
        }
    }

    // The kind of the head.
    pub fn kind(&self) -> u16
        ensures { (s : Shape) → IsRow self.now s → result ≡ kind_head (head_of s) }
    {
        self.kind
    }

    // Whether the head is that of a function.
    pub fn is_function(&self) -> bool
        ensures { (s : Shape) → IsRow self.now s
            → result ≡ eqb (kind_head (head_of s)) function_kind }
    {
        self.kind == FUNCTION_KIND
    }

    // Whether two rows have the same head: constructor, and number of arguments.
    pub fn same_head(&self, other: &Row<'_>) -> bool
        ensures { (s t : Shape) → IsRow self.now s → IsRow other.now t
            → result ≡ same_head (head_of s) (head_of t) }
    {
        self.head() == other.head()
    }

    // How many parts there are: the element of a container, the arguments of a function and then its range.
    pub fn part_count(&self) -> u16
        ensures { (s : Shape) → IsRow self.now s → result ≡ length (parts_of s) }
    {
        if self.kind == FUNCTION_KIND {
            return self.count + 1;
        }
        if FIRST_CONTAINER <= self.kind && self.kind < FUNCTION_KIND {
            return 1;
        }
        0
    }

    // The i-th part: of a function an argument, and after these the range.
    pub fn part(&self, i: u16) -> InferSortId
        ensures { (s : Shape) → IsRow self.now s → i < length (parts_of s)
            → result.0 ≡ get_or (parts_of s) i 0 }
    {
        if self.kind == FUNCTION_KIND && i < self.count {
            let argument = self.start as usize + i as usize;
            return InferSortId(word(self.words, self.entries + argument));
        }
        InferSortId(self.part)
    }
}

// Sorts and nodes that passed their checks, and how much of them is in use: the lists that places are of.
#[derive(Clone, Copy)]
pub struct Places<'a> {
    pub sorts: &'a [u16],
    pub nodes: &'a [u16],
    pub lengths: Lengths,
    pub ghost checked: { NodesReady sorts.now nodes.now lengths },
}

impl<'a> Places<'a> {
    ghost use Rattle.infer_nodes.specs.Places.{graph, IsRow};

    // What a node says.
    pub fn node(&self, id: NodeId) -> InferSort
        ensures { result ≡ node_at self.now.nodes.now id.0 }
    {
        node(self.nodes, id)
    }

    // The i-th argument entry.
    pub fn argument(&self, i: u16) -> InferSortId
        ensures { result.0 ≡ node_entry_at self.now.nodes.now i }
    {
        argument(self.nodes, i)
    }

    // The variable that stands at a place, where one does.
    pub fn variable_at(&self, id: InferSortId) -> Option<SortVar>
        requires { Placed self.now.lengths id.0 }
        ensures { result ≡ var_at (graph self.now id.0) }
    {
        match Place::from(id) {
            Place::Sort(_) => None,
            Place::Node(at) => Row::at(self.nodes, NODE_ENTRIES_AT, at.0).variable(),
        }
    }

    // What stands at a place.
    pub fn row(&self, id: InferSortId) -> Row<'a>
        requires { Placed self.now.lengths id.0 }
        ensures { IsRow result (graph self.now id.0) }
    {
        match Place::from(id) {
            Place::Sort(sort) => Row::at(self.sorts, ENTRIES_AT, sort.0),
            Place::Node(at) => Row::at(self.nodes, NODE_ENTRIES_AT, at.0),
        }
    }
}

// Places, and what the variables that stand there are bound to.
#[derive(Clone, Copy)]
pub struct Bindings<'p, 'b> {
    pub places: Places<'p>,
    pub binds: &'b [u16],
    pub ghost passed: { BindsPass places.sorts.now places.nodes.now binds.now places.lengths },
}

impl Bindings<'_, '_> {
    ghost use Rattle.infer_nodes.specs.Places.{graph, bindings};

    // What a variable is bound to, unless it is free.
    fn binding(&self, var: SortVar) -> Option<InferSortId>
        ensures { bound_of result ≡ binding_of (get_or self.now.binds.now var.0 0) }
    {
        binding_of(word(self.binds, var.0 as usize))
    }

    // What the variable at a place is bound to. A place without a variable is as one that is free.
    fn bound_to(&self, id: InferSortId) -> Option<InferSortId>
        requires { Placed self.now.places.lengths id.0 }
        ensures { bound_of result ≡ bound_to (graph self.now.places id.0) (bindings self.now) }
    {
        self.binding(self.places.variable_at(id)?)
    }

    // Follows variable bindings until the head of `id` is either no variable or an unbound one.
    // Only the head is followed: the parts may in turn be bound variables.
    pub fn shallow_normalize(&self, id: InferSortId) -> InferSortId
        requires { Placed self.now.places.lengths id.0 }
        ensures { follow (graph self.now.places) deep (bindings self.now) id.0 ≡ some result.0 }
    {
        let mut end = id;
        // kept: merc's loop: how long a chain is, is not known before; successors and last are no plainer.
        while let Some(next) = self.bound_to(end) {
            end = next;
        }
        end
    }

    // Whether `var` occurs in the sort denoted by `id`. An interned sort holds no variable.
    // Variables are compared at their ends, so one that is bound to `var` counts as `var`.
    pub fn occurs(&self, var: SortVar, id: InferSortId) -> bool
        requires { Placed self.now.places.lengths id.0 }
        ensures { occursIn (graph self.now.places) deep (bindings self.now) var.0 id.0
            ≡ of_test result }
    {
        match Place::from(self.shallow_normalize(id)) {
            Place::Sort(_) => false,
            Place::Node(at) => match self.places.node(at) {
                InferSort::Generic { op: _, subsort } => self.occurs(var, subsort),
                InferSort::Function { domain, range } => {
                    for i in 0..domain.count {
                        let argument = self.places.argument(domain.start + i);
                        if self.occurs(var, argument) {
                            return true;
                        }
                    }
                    self.occurs(var, range)
                }
                InferSort::Var(other) => var == other,
            },
        }
    }
}
