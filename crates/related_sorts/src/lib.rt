// The sorts strictly wider or narrower than the sort at a place: from merc's unification.rs,
// strict_related_sorts, related_numbers and related_container. Up is the Rust's Direction::Super.
// Nodes and sorts made for it are appended, inner ones first.
#![tactic(auto)]

ghost use Rattle.std.specs.Prelude.{◌≡◌, true, false, ◌+◌, ◌<◌, ◌≤◌, length, take};
ghost use Rattle.resolved_sort.specs.Tree.{primitive};
ghost use Rattle.resolved_sort.specs.Storage.{max_sorts, max_arguments, row_at};
ghost use Rattle.resolved_sort.specs.Rows.{Checked};
ghost use Rattle.unification.specs.Inner.Term.{parts_of};
ghost use Rattle.unification.specs.Nodes.{max_places, full_nodes, binds_of, node_at};
ghost use Rattle.unification.specs.Checked.{graph_of, Placed};
ghost use Rattle.unification.specs.Related.{related_container};
ghost use Rattle.unification.specs.Making.{push_node, related_over, push_functions, related_places};
ghost use Rattle.unification.specs.Making.{strict_related, made};
ghost use Rattle.related_sorts.specs.Listed.{places};
ghost use Rattle.related_sorts.specs.Inner.Outcome.{found_op, row, IsFunction, FunctionAt};
ghost use Rattle.related_sorts.specs.Inner.Ranges.{related_head, over_function, outwards, AllStand};
ghost use Rattle.related_sorts.specs.Inner.Ranges.{FinalRange, SixThere};

use infer_nodes::{Bindings, Places, node};
use resolved_sort::{
    ARGUMENT_WORDS, ComplexSort, Counts, FUNCTION_KIND, ResolvedSort, Sort, SortId,
};
use sort_interner::{generic_over, get, put_row, start_of};
use unification::{
    FIRST_NODE, Full, InferSort, InferSortId, Lengths, MAX_NODE_ENTRIES, MAX_PLACES,
    NODE_ENTRIES_AT, NODE_NUMBERS, NodeId, Place,
};
use words::copy;

mod listing;

pub use listing::Listed;

// The numbers strictly above or below `sort`, in ascending distance.
#[tactic(auto, unfolding(unification::specs::Related::related_numbers))]
fn related_numbers(sort: Sort, up: bool) -> Listed
    ensures { places result ≡ related_places up (primitive sort) }
{
    let pos = InferSortId::from(Sort::Pos);
    let nat = InferSortId::from(Sort::Nat);
    let int = InferSortId::from(Sort::Int);
    let real = InferSortId::from(Sort::Real);
    match (sort, up) {
        (Sort::Pos, true) => Listed::of(&[nat, int, real]),
        (Sort::Nat, true) => Listed::of(&[int, real]),
        (Sort::Int, true) => Listed::of(&[real]),
        (Sort::Nat, false) => Listed::of(&[pos]),
        (Sort::Int, false) => Listed::of(&[nat, pos]),
        (Sort::Real, false) => Listed::of(&[int, nat, pos]),
        _ => Listed::of(&[]),
    }
}

// The container constructor strictly above or below `op` in the finiteness ordering `FSet <= Set`, `FBag <= Bag`.
#[tactic(auto, unfolding(unification::specs::Related::related_container))]
fn related_container(op: ComplexSort, up: bool) -> Option<ComplexSort>
    ensures { result ≡ found_op (related_container up op) }
{
    match (op, up) {
        (ComplexSort::FSet, true) => Some(ComplexSort::Set),
        (ComplexSort::FBag, true) => Some(ComplexSort::Bag),
        (ComplexSort::Set, false) => Some(ComplexSort::FSet),
        (ComplexSort::Bag, false) => Some(ComplexSort::FBag),
        _ => None,
    }
}

// The first count parts of the sort at a place, as words to be stored.
// kept: an array with room for the most arguments, since there is no heap.
fn arguments(places: &Places, id: InferSortId, count: u16) -> [u16; ARGUMENT_WORDS]
    requires { IsFunction places.now.sorts.now places.now.nodes.now places.now.lengths id.0 count }
    ensures { take count result
        ≡ take count (parts_of (graph_of places.now.sorts.now places.now.nodes.now
        places.now.lengths id.0)) }
{
    let row = places.row(id);
    let mut words = [0u16; ARGUMENT_WORDS];
    for i in 0..count {
        words[i as usize] = row.part(i).0;
    }
    words
}

// The final range of a function: what stands at the end of the range of the last of the functions that follow one
// another, which are noted from the outermost on.
#[derive(Drop)]
struct Last {
    count: u16,
    range: InferSortId,
}

fn final_range(bindings: &Bindings, id: InferSortId, functions: &mut [u16]) -> Last
    requires { Placed bindings.now.places.lengths id.0 × (max_places ≤ length functions.old) }
    ensures { FinalRange bindings.now.places.sorts.now bindings.now.places.nodes.now
        bindings.now.binds.now bindings.now.places.lengths id.0
        functions.new result }
{
    let mut range = id;
    let mut row = bindings.places.row(range);
    let mut count: u16 = 0;
    // kept: how many functions follow one another is not known before, and what is noted comes with what is reached:
    // successors would answer one of them only.
    while row.is_function() {
        functions[count as usize] = range.0;
        count += 1;
        let last = row.part_count() - 1;
        range = bindings.shallow_normalize(row.part(last));
        row = bindings.places.row(range);
    }
    Last { count, range }
}

// The sorts and nodes as they grow, and how much of them is in use: what is made is appended.
// kept: beside Places of infer_nodes, which has the same parts: those are only read, and copied into what asks.
// kept: that the fixed sorts are there is asked by the four that need it, and is no ghost field: tried, and all but
// related_generic proved, where it stays to be shown that what the interner counts has grown.
// kept: bindings and `up` go beside it, and are no fields: the bindings are read on the way to an end alone, and what
// is asked of a place or a constructor is asked in one direction.
#[derive(Drop)]
pub struct Arena<'a> {
    pub sorts: &'a mut [u16],
    pub index: &'a mut [u16],
    pub nodes: &'a mut [u16],
    pub lengths: Lengths,
    pub ghost room: { full_nodes ≤ length nodes.now },
}

impl Arena<'_> {
    ghost use Rattle.related_sorts.specs.Arena.{world, node_of, Keeps, Lists, ListsSome, NodesIn, PlacedIn, ReadyIn, BindingsOf};
    ghost use Rattle.related_sorts.specs.Arena.{Indexes, IndexesOn};

    // The places, as they are.
    fn places(&self) -> Places<'_>
        requires { NodesIn self.now }
        ensures { (result.sorts.now ≡ self.now.sorts.now)
            × (result.nodes.now ≡ self.now.nodes.now)
            × (result.lengths ≡ self.now.lengths) }
    {
        let sorts = &*self.sorts;
        let nodes = &*self.nodes;
        Places {
            sorts,
            nodes,
            lengths: self.lengths,
        }
    }

    // One more node, where there is room.
    // Merc's arena only grows, and what a branch that is rolled back has made stays as harmless garbage. Here room has
    // an end, and the search gives these nodes back when the tries are over.
    // kept: the kind as the word of the row that is made, as in sort_interner.
    fn push(&mut self, kind: u16, part: InferSortId, arguments: &[u16]) -> Result<InferSortId, Full>
        requires fine { length arguments.now ≤ max_arguments }
        requires indexed { Indexes self.old }
        ensures keeps { Keeps self.old self.new }
        ensures indexed { IndexesOn result self.new }
        ensures pushed { node_of result (world self.new)
            ≡ push_node (row kind part.0 arguments.now) (world self.old) }
    {
        let n = self.lengths.nodes;
        let e = self.lengths.arguments;
        let count = arguments.len();
        if NODE_NUMBERS <= n {
            return Err(Full::Nodes);
        }
        if MAX_NODE_ENTRIES < (e as usize) + count {
            return Err(Full::Nodes);
        }
        put_row(self.nodes, n, kind, part.0, start_of(kind, e), count as u16);
        copy(
            self.nodes,
            NODE_ENTRIES_AT + e as usize,
            arguments,
            0,
            count,
        );
        self.lengths.nodes = n + 1;
        self.lengths.arguments = e + count as u16;
        Ok(InferSortId(FIRST_NODE + n))
    }

    // Functions of the same arguments over each of the ranges.
    fn push_functions(&mut self, domain: &[u16], ranges: Listed) -> Result<Listed, Full>
        requires fine { length domain.now ≤ max_arguments }
        requires indexed { Indexes self.old }
        ensures keeps { Keeps self.old self.new }
        ensures indexed { IndexesOn result self.new }
        ensures lists { Lists self.new result
            (push_functions domain.now (places ranges) (world self.old)) }
    {
        let mut ids = ranges.ids;
        for id in ids[..ranges.count].iter_mut() {
            *id = self.push(FUNCTION_KIND, *id, domain)?;
        }
        Ok(Listed {
            ids,
            count: ranges.count,
        })
    }

    // A container of the list: the related one is interned.
    fn related_generic(
        &mut self,
        op: ComplexSort,
        subsort: SortId,
        up: bool,
    ) -> Result<Listed, Full>
        requires fine { Checked self.old.sorts.now self.old.lengths.sorts self.old.lengths.entries
            × (subsort.0 < self.old.lengths.sorts) }
        requires indexed { Indexes self.old }
        ensures keeps { Keeps self.old self.new }
        ensures indexed { IndexesOn result self.new }
        ensures lists { Lists self.new result
            (related_over (related_container up op) true subsort.0 (world self.old)) }
    {
        let Some(related_op) = related_container(op, up) else {
            return Ok(Listed::of(&[]));
        };
        let counts = Counts::from(self.lengths);
        let words = &mut *self.sorts;
        let index = &mut *self.index;
        let (id, counts) = generic_over(words, index, counts, related_op, subsort);
        let id = id?;
        self.lengths = self.lengths.with_counts(counts);
        Ok(Listed::of(&[InferSortId::from(id)]))
    }

    // A container node: the related one is a node.
    fn push_generic(
        &mut self,
        op: ComplexSort,
        subsort: InferSortId,
        up: bool,
    ) -> Result<Listed, Full>
        requires indexed { Indexes self.old }
        ensures keeps { Keeps self.old self.new }
        ensures indexed { IndexesOn result self.new }
        ensures lists { Lists self.new result
            (related_over (related_container up op) false subsort.0 (world self.old)) }
    {
        let Some(related_op) = related_container(op, up) else {
            return Ok(Listed::of(&[]));
        };
        let place = self.push(u16::from(related_op), subsort, &[])?;
        Ok(Listed::of(&[place]))
    }

    // An interned sort.
    fn related_sort(&mut self, id: SortId, up: bool) -> Result<Option<Listed>, Full>
        requires fine { NodesIn self.old × PlacedIn self.old id.0 × (id.0 < max_sorts) }
        requires indexed { Indexes self.old }
        ensures keeps { Keeps self.old self.new }
        ensures indexed { IndexesOn result self.new }
        ensures lists { ListsSome self.new result (related_head up id.0 (world self.old)) }
    {
        match self.row(id) {
            ResolvedSort::Primitive(sort) => Ok(Some(related_numbers(sort, up))),
            ResolvedSort::Container { op, subsort } => {
                Ok(Some(self.related_generic(op, subsort, up)?))
            }
            ResolvedSort::Function {
                domain: _,
                range: _,
            } => Ok(None),
            ResolvedSort::Unit | ResolvedSort::Def(_) | ResolvedSort::TypeVar(_) => Ok(Some(
                Listed::of(&[]),
            )),
        }
    }

    // The row of a sort.
    fn row(&self, id: SortId) -> ResolvedSort
        ensures { result ≡ row_at self.now.sorts.now id.0 }
    {
        get(self.sorts, id)
    }

    // What a node says.
    fn node(&self, id: NodeId) -> InferSort
        ensures { result ≡ node_at self.now.nodes.now id.0 }
    {
        node(self.nodes, id)
    }

    // By the head at the end of a place. Of a function the range is not asked about: that is for `related_function`.
    fn related_head(&mut self, id: InferSortId, up: bool) -> Result<Option<Listed>, Full>
        requires fine { NodesIn self.old × PlacedIn self.old id.0 }
        requires indexed { Indexes self.old }
        ensures keeps { Keeps self.old self.new }
        ensures indexed { IndexesOn result self.new }
        ensures lists { ListsSome self.new result (related_head up id.0 (world self.old)) }
    {
        match Place::from(id) {
            Place::Sort(sort) => self.related_sort(sort, up),
            Place::Node(at) => match self.node(at) {
                InferSort::Generic { op, subsort } => {
                    Ok(Some(self.push_generic(op, subsort, up)?))
                }
                InferSort::Function {
                    domain: _,
                    range: _,
                } => Ok(None),
                InferSort::Var(_) => Ok(None),
            },
        }
    }

    // The functions over the ranges found.
    fn over_function(&mut self, id: InferSortId, ranges: Listed) -> Result<Listed, Full>
        requires fine { FunctionAt self.old.sorts.now self.old.nodes.now self.old.lengths id.0 }
        requires indexed { Indexes self.old }
        ensures keeps { Keeps self.old self.new }
        ensures indexed { IndexesOn result self.new }
        ensures lists { Lists self.new result
            (over_function id.0 (places ranges) (world self.old)) }
    {
        let places = self.places();
        let count = places.row(id).part_count() - 1;
        let domain = arguments(&places, id, count);
        self.push_functions(&domain[..count as usize], ranges)
    }

    // The functions over what was found for their final range, the innermost first.
    // kept: by index from the back: over `iter().rev()` the index is the length less the number of those yielded, and
    // the invariant has to say besides that these are the last functions, the last of them first.
    fn over_functions(&mut self, functions: &[u16], found: Listed) -> Result<Listed, Full>
        requires fine { AllStand functions.now (length functions.now) (made (places found) (world self.old)) }
        requires indexed { Indexes self.old }
        ensures keeps { Keeps self.old self.new }
        ensures indexed { IndexesOn result self.new }
        ensures lists { Lists self.new result
            (outwards functions.now (length functions.now) (made (places found) (world self.old))) }
    {
        let mut over = found;
        for i in (0..functions.len()).rev() {
            over = self.over_function(InferSortId(functions[i]), over)?;
        }
        Ok(over)
    }

    // A function value coerces to a wider range at the same domain by eta-expansion.
    // So only the range is varied, never an argument. The range of an interned function always has a list; that of a
    // node has none where it is free.
    // Down to the final range and back by loops, so that nesting takes no stack: the functions on the way are noted.
    // None comes twice, so there are no more than there are places.
    fn related_function(
        &mut self,
        binds: &[u16],
        id: InferSortId,
        up: bool,
    ) -> Result<Option<Listed>, Full>
        requires fine { ReadyIn self.old binds.now
            × PlacedIn self.old id.0
            × SixThere self.old.lengths
            × FunctionAt self.old.sorts.now self.old.nodes.now self.old.lengths id.0 }
        requires indexed { Indexes self.old }
        ensures keeps { Keeps self.old self.new }
        ensures indexed { IndexesOn result self.new }
        ensures lists { ListsSome self.new result
            (strict_related up (binds_of binds.now self.old.lengths.variables) id.0 (world self.old)) }
    {
        let mut functions = [0u16; MAX_PLACES];
        let last = final_range(&self.bindings(binds), id, &mut functions);
        let Some(ranges) = self.related_head(last.range, up)? else {
            return Ok(None);
        };
        Ok(Some(self.over_functions(&functions[..last.count as usize], ranges)?))
    }

    // The places, and what the variables there are bound to.
    fn bindings<'b>(&self, binds: &'b [u16]) -> Bindings<'_, 'b>
        requires { ReadyIn self.now binds.now }
        ensures { BindingsOf self.now binds.now result }
    {
        let places = self.places();
        Bindings { places, binds }
    }

    fn strict_related_sorts(
        &mut self,
        binds: &[u16],
        id: InferSortId,
        up: bool,
    ) -> Result<Option<Listed>, Full>
        requires fine { ReadyIn self.old binds.now × PlacedIn self.old id.0 × SixThere self.old.lengths }
        requires indexed { Indexes self.old }
        ensures keeps { Keeps self.old self.new }
        ensures indexed { IndexesOn result self.new }
        ensures lists { ListsSome self.new result
            (strict_related up (binds_of binds.now self.old.lengths.variables) id.0 (world self.old)) }
    {
        let end = self.bindings(binds).shallow_normalize(id);
        if self.places().row(end).is_function() {
            return self.related_function(binds, end, up);
        }
        self.related_head(end, up)
    }

    // The strict supersorts of `id` in ascending distance (`Pos` yields `[Nat, Int, Real]`), or no list for an unbound
    // variable, whose supersorts cannot be enumerated. Only the head constructor is widened: `Nat` has supersorts,
    // `List(Nat)` has none.
    // Nearest first, since the search takes the first that succeeds, and that is to be the least upcast.
    pub fn strict_super_sorts(
        &mut self,
        binds: &[u16],
        id: InferSortId,
    ) -> Result<Option<Listed>, Full>
        requires fine { ReadyIn self.old binds.now × PlacedIn self.old id.0 × SixThere self.old.lengths }
        requires indexed { Indexes self.old }
        ensures keeps { Keeps self.old self.new }
        ensures indexed { IndexesOn result self.new }
        ensures lists { ListsSome self.new result
            (strict_related true (binds_of binds.now self.old.lengths.variables) id.0 (world self.old)) }
    {
        self.strict_related_sorts(binds, id, true)
    }

    // The strict subsorts of `id` in ascending distance (`Real` yields `[Int, Nat, Pos]`), or no list
    // for an unbound variable.
    pub fn strict_sub_sorts(
        &mut self,
        binds: &[u16],
        id: InferSortId,
    ) -> Result<Option<Listed>, Full>
        requires fine { ReadyIn self.old binds.now × PlacedIn self.old id.0 × SixThere self.old.lengths }
        requires indexed { Indexes self.old }
        ensures keeps { Keeps self.old self.new }
        ensures indexed { IndexesOn result self.new }
        ensures lists { ListsSome self.new result
            (strict_related false (binds_of binds.now self.old.lengths.variables) id.0 (world self.old)) }
    {
        self.strict_related_sorts(binds, id, false)
    }
}
