// What entries answer and leave: document 01's number and the values of an answer, packed into one number; and sort
// storage in which given sorts stand as they were.

#![tactic(auto)]

ghost use Rattle.std.specs.Prelude.{◌≡◌, Ok};
ghost use Rattle.entry_answers.specs.Packing.{pack_number, pack_answered};

use resolved_sort::Refusal;
use words::BIT_8;

// An answer as one number, for callers in other languages: its values, which leave the lowest byte free; or the code of
// a refusal.
#[tactic(auto, unfolding(crate::specs::Packing::pack_number))]
pub fn pack(answer: Result<u64, Refusal>) -> u64
    ensures { result ≡ pack_number answer }
{
    answer.unwrap_or_else(|refusal| refusal.code() as u64)
}

// The value of a yes or a no in its field, above a code of 0.
#[tactic(auto, unfolding(crate::specs::Packing::packed, crate::specs::Packing::in_fields))]
pub fn pack_yes(yes: bool) -> u64
    ensures { result ≡ pack_answered (Ok yes) }
{
    (yes as u64) * BIT_8
}
