// The sort that a place stands for: from merc's unification.rs, resolve and resolve_or_default. Both are one function
// here, with what stands for a free variable. New sorts are appended; where the answer is none, what was made stays.
#![tactic(auto)]

ghost use Rattle.std.specs.Prelude.{◌≡◌, [], ◌∷◌, ◌++◌, ◌<◌, Some, None};
ghost use Rattle.resolved_sort.specs.Rows.{left_at};
ghost use Rattle.resolved_sort.specs.Index.{Indexed};
ghost use Rattle.unification.specs.Term.{function_head, app};
ghost use Rattle.unification.specs.Nodes.{binds_of, node_entries_of};
ghost use Rattle.unification.specs.Unify.{follow, deep};
ghost use Rattle.unification.specs.Checked.{graph_of};
ghost use Rattle.unification.specs.Solutions.{terms_at};
ghost use Rattle.infer_nodes.specs.Inner.Bound.{RunPlaced};
ghost use Rattle.std.proofs.Math.Option.{some};

use infer_nodes::{Bindings, Places, argument, node};
use resolved_sort::{ARGUMENT_WORDS, NoRoom, Run, SortId};
use sort_interner::SortInterner;
use unification::{InferSort, InferSortId, Lengths, Place};

// What sorts are resolved from: nodes, what their variables are bound to, and what stands for a variable that is free,
// if anything. How many sorts there are is for the interner to say.
#[derive(Clone, Copy)]
pub struct Resolver<'a> {
    pub nodes: &'a [u16],
    pub binds: &'a [u16],
    pub lengths: Lengths,
    pub default: Option<SortId>,
}

impl Resolver<'_> {
    ghost use Rattle.resolver.specs.Resolver.{CanResolve, lengths_in, value_at, resolved, PlacedAt};

    // The end of a place through the bindings.
    fn end(&self, interner: &SortInterner, id: InferSortId) -> InferSortId
        requires { CanResolve self.now interner.now × PlacedAt self.now interner.now id.0 }
        ensures { follow
            (graph_of interner.now.words.now self.now.nodes.now (lengths_in self.now interner.now))
            deep (binds_of self.now.binds.now self.now.lengths.variables) id.0
            ≡ some result.0 }
    {
        let sorts = interner.sorts();
        let places = Places {
            sorts: sorts.words,
            nodes: self.nodes,
            lengths: self.lengths.with_counts(sorts.counts),
        };
        let bindings = Bindings {
            places,
            binds: self.binds,
        };
        bindings.shallow_normalize(id)
    }

    // Extracts the resolved sort denoted by `id`; where a free variable remains, the default stands for it. Nothing
    // where there is none, i.e. the sort is underdetermined.
    // With a default the solver accepts lists whose auxiliary sorts are never constrained, such as the element sort of
    // the empty list in `n = #[]`.
    #[cycle(resolve_resolve_function)]
    pub fn resolve(
        &self,
        interner: &mut SortInterner,
        id: InferSortId,
    ) -> Result<Option<SortId>, NoRoom>
        requires ready { CanResolve self.now interner.old × PlacedAt self.now interner.old id.0 }
        requires indexed { Indexed interner.old.words.now interner.old.counts.sorts interner.old.index.now }
        ensures same_reference { interner.new.words.ghost_name ≡ interner.old.words.ghost_name }
        ensures same_index { interner.new.index.ghost_name ≡ interner.old.index.ghost_name }
        ensures indexed { Indexed interner.new.words.now interner.new.counts.sorts interner.new.index.now }
        ensures resolved { left_at interner.new.words.now interner.new.counts result
            ≡ resolved self.now interner.old (value_at self.now interner.old id.0) }
    {
        match Place::from(self.end(interner, id)) {
            Place::Sort(sort) => Ok(Some(sort)),
            Place::Node(at) => match node(self.nodes, at) {
                InferSort::Generic { op, subsort } => {
                    let Some(subsort) = self.resolve(interner, subsort)? else {
                        return Ok(None);
                    };
                    Ok(Some(interner.generic(op, subsort)?))
                }
                InferSort::Function { domain, range } => {
                    self.resolve_function(interner, domain, range)
                }
                InferSort::Var(_) => Ok(self.default),
            },
        }
    }

    // A function: its arguments, left to right, then its range, then the whole. One loop goes through the arguments, so
    // that a level of nesting costs one call of this function, as in merc.
    #[cycle(resolve_resolve_function)]
    fn resolve_function(
        &self,
        interner: &mut SortInterner,
        domain: Run,
        range: InferSortId,
    ) -> Result<Option<SortId>, NoRoom>
        requires ready { CanResolve self.now interner.old
            × RunPlaced self.now.nodes.now (lengths_in self.now interner.old) domain.start domain.count
            × PlacedAt self.now interner.old range.0 }
        requires indexed { Indexed interner.old.words.now interner.old.counts.sorts interner.old.index.now }
        ensures same_reference { interner.new.words.ghost_name ≡ interner.old.words.ghost_name }
        ensures same_index { interner.new.index.ghost_name ≡ interner.old.index.ghost_name }
        ensures indexed { Indexed interner.new.words.now interner.new.counts.sorts interner.new.index.now }
        ensures resolved { left_at interner.new.words.now interner.new.counts result
            ≡ resolved self.now interner.old
            (app (function_head domain.count)
            (terms_at (value_at self.now interner.old)
            (node_entries_of self.now.nodes.now domain.start domain.count ++ (range.0 ∷ [])))) }
    {
        let mut ids = [SortId(0); ARGUMENT_WORDS];
        for i in 0..domain.count {
            let next = argument(self.nodes, domain.start + i);
            let Some(id) = self.resolve(interner, next)? else {
                return Ok(None);
            };
            ids[i as usize] = id;
        }
        let Some(range) = self.resolve(interner, range)? else {
            return Ok(None);
        };
        Ok(Some(interner.function(&ids[..domain.count as usize], range)?))
    }
}
