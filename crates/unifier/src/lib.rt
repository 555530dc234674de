// Unification over lent storage: from merc's unification.rs, unify and bind. A trail of the variables bound stands in
// for the snapshots of ena, and undoing it for rollback_to.
#![tactic(auto)]

ghost use Rattle.std.specs.Prelude.{◌≡◌, ◌+◌, ◌-◌, ◌<◌, ◌≤◌, length, set, eqb};
ghost use Rattle.words.specs.Inner.Bits.{most_word};
ghost use Rattle.unification.specs.Unify.{occurs as occursIn, bind_unless, unify_variables, unify_shapes};
ghost use Rattle.unification.specs.Unify.{unify as unifyOf, deep};
ghost use Rattle.unification.specs.Checked.{Ready, Placed};
ghost use Rattle.unification.specs.Trail.{undo as undoOf};
ghost use Rattle.unifier.specs.Inner.Trying.{Solid, VariableAt};

use infer_nodes::{Bindings, Places};
use unification::{FREE_WORD, InferSortId, SortVar};
use words::put;

// Frees the last variables on the trail, down to `base`.
// Tries are undone innermost first. Merc forbids making a variable inside a snapshot, since the rollback would destroy
// it; here a search makes none at all.
pub fn undo(binds: &mut [u16], trail: &[u16], base: u16, count: u16)
    requires { (base ≤ count) × (count ≤ length trail.now) }
    ensures { binds.new ≡ undoOf trail.now base (count - base) binds.old }
{
    for i in (base..count).rev() {
        put(binds, trail[i as usize] as usize, FREE_WORD);
    }
}

// Places, what the variables there are bound to, and the trail: the variables that were bound, one after another, of
// which so many count.
// kept: a count beside the lent trail, since what is lent is longer than what counts.
#[derive(Drop)]
pub struct Unifier<'p, 'b> {
    pub places: Places<'p>,
    pub binds: &'b mut [u16],
    pub trail: &'b mut [u16],
    pub count: u16,
}

impl Unifier<'_, '_> {
    ghost use Rattle.unifier.specs.Unifier.{graph, bindings, CanTry, IsFree, Keeps, Leaves};

    // What the variables are bound to by now.
    fn bindings(&self) -> Bindings<'_, '_>
        requires { Ready self.now.places.sorts.now self.now.places.nodes.now
            self.now.binds.now self.now.places.lengths }
        ensures { (result.places ≡ self.now.places) × (result.binds.now ≡ self.now.binds.now) }
    {
        let binds = &*self.binds;
        Bindings {
            places: self.places,
            binds,
        }
    }

    // Binds a variable, and puts it on the trail.
    fn put_binding(&mut self, var: SortVar, value: InferSortId)
        requires { (var.0 < length self.old.binds.now)
            × (self.old.count < length self.old.trail.now)
            × (length self.old.trail.now ≤ most_word) }
        ensures keeps { Keeps self.old self.new }
        ensures leaves { (self.new.binds.now ≡ set self.old.binds.now var.0 value.0)
            × (self.new.trail.now ≡ set self.old.trail.now self.old.count var.0)
            × (self.new.count ≡ self.old.count + 1) }
    {
        self.binds[var.0 as usize] = value.0;
        self.trail[self.count as usize] = var.0;
        self.count += 1;
    }

    // Binds `var` to `value` after the occurs check, which rejects the cyclic (infinite) sort that a
    // binding like `?t := List(?t)` would create.
    fn bind(&mut self, var: SortVar, value: InferSortId) -> bool
        requires { CanTry self.old × IsFree self.old var.0 × Placed self.old.places.lengths value.0 }
        ensures keeps { Keeps self.old self.new }
        ensures leaves { Leaves
            (bind_unless (graph self.old)
            (occursIn (graph self.old) deep (bindings self.old) var.0 value.0)
            (bindings self.old) var.0 value.0)
            self.old self.new result }
    {
        if self.bindings().occurs(var, value) {
            return false;
        }
        self.put_binding(var, value);
        true
    }

    // Two free variables: the left one is bound to the right end, unless they are one.
    // Both are free after following, so no two bindings can conflict, and there is no structure to compare.
    fn bind_variables(&mut self, lhs: SortVar, rhs: SortVar, value: InferSortId) -> bool
        requires { CanTry self.old
            × IsFree self.old lhs.0
            × IsFree self.old rhs.0
            × Placed self.old.places.lengths value.0
            × VariableAt self.old.places.sorts.now self.old.places.nodes.now
            self.old.places.lengths value.0 rhs.0 }
        ensures keeps { Keeps self.old self.new }
        ensures leaves { Leaves
            (unify_variables (graph self.old) (eqb lhs.0 rhs.0) (bindings self.old) lhs.0 value.0)
            self.old self.new result }
    {
        if lhs == rhs {
            return true;
        }
        self.put_binding(lhs, value);
        true
    }

    // Makes `lhs` and `rhs` denote the same sort, binding variables as needed, and answers whether they are unifiable.
    // On failure bindings made before the mismatch was found remain; callers undo the trail.
    #[cycle(unify_unify_parts)]
    pub fn unify(&mut self, lhs: InferSortId, rhs: InferSortId) -> bool
        requires { CanTry self.old
            × Placed self.old.places.lengths lhs.0
            × Placed self.old.places.lengths rhs.0 }
        ensures keeps { Keeps self.old self.new }
        ensures leaves { Leaves (unifyOf (graph self.old) (bindings self.old) lhs.0 rhs.0)
            self.old self.new result }
    {
        let places = self.places;
        let l = self.bindings().shallow_normalize(lhs);
        let r = self.bindings().shallow_normalize(rhs);
        if l == r {
            return true;
        }
        match (places.variable_at(l), places.variable_at(r)) {
            (Some(left), Some(right)) => self.bind_variables(left, right, r),
            (Some(left), None) => self.bind(left, r),
            (None, Some(right)) => self.bind(right, l),
            (None, None) => self.unify_parts(l, r),
        }
    }

    // Two ends that are no variables. Parts are unified left to right: arguments, and the range of a function last.
    // Interning is canonical, so two interned sorts are equal exactly when their numbers are. Equal ones are a yes at
    // once in unify, so of two that differ only the first parts that differ are gone down.
    #[cycle(unify_unify_parts)]
    fn unify_parts(&mut self, l: InferSortId, r: InferSortId) -> bool
        requires { CanTry self.old
            × Solid self.old.places.sorts.now self.old.places.nodes.now self.old.places.lengths l.0
            × Solid self.old.places.sorts.now self.old.places.nodes.now self.old.places.lengths r.0 }
        ensures keeps { Keeps self.old self.new }
        ensures leaves { Leaves
            (unify_shapes (graph self.old) deep (unifyOf (graph self.old)) (bindings self.old)
            l.0 (graph self.old l.0) r.0 (graph self.old r.0))
            self.old self.new result }
    {
        let places = self.places;
        let left = places.row(l);
        let right = places.row(r);
        if !left.same_head(&right) {
            return false;
        }
        for i in 0..left.part_count() {
            let p = left.part(i);
            let q = right.part(i);
            if !self.unify(p, q) {
                return false;
            }
        }
        true
    }

    // Frees the last variables on the trail, down to `base`.
    pub fn undo(&mut self, base: u16)
        requires { (base ≤ self.old.count) × (self.old.count ≤ length self.old.trail.now) }
        ensures keeps { Keeps self.old self.new }
        ensures leaves { (self.new.binds.now
            ≡ undoOf self.old.trail.now base (self.old.count - base) self.old.binds.now)
            × (self.new.trail.now ≡ self.old.trail.now)
            × (self.new.count ≡ base) }
    {
        let count = self.count;
        self.count = base;
        let binds = &mut *self.binds;
        let trail = &mut *self.trail;
        undo(binds, trail, base, count);
    }
}
