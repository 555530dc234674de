// The answer of a listing.

ghost use Rattle.std.specs.Prelude.{◌≡◌, ◌≤◌, length};

use unification::InferSortId;

// Places that were listed, nearest first: at most three, of which so many count.
// kept: an array with a count, since there is no heap, and three are the most.
#[derive(Clone, Copy, Drop)]
pub struct Listed {
    pub ids: [InferSortId; 3],
    pub count: usize,
    pub ghost few: { count ≤ 3 },
}

impl Listed {
    ghost use Rattle.related_sorts.specs.Listed.{numbers, places};

    // These places.
    pub(crate) fn of(ids: &[InferSortId]) -> Listed
        requires { length ids.now ≤ 3 }
        ensures { places result ≡ numbers ids.now }
    {
        let count = ids.len();
        let mut listed = [InferSortId(0); 3];
        listed[..count].copy_from_slice(ids);
        Listed { ids: listed, count }
    }
}
