//! Laws of the definitions: each is the contract of a function that does nothing.

ghost use Rattle.mm_fragment.specs.Telling.{ExclusiveTell, SmallestTell};

use mm_tree::laws::{answers_are_smallest, exclusive_answers};

/// The answers of `slca` tell of each node which of its children hold every word of the query: those
/// that have an answer at or below them. So do the answers of `elca`.
pub fn answers_tell()
    ensures smallest { SmallestTell }
    ensures exclusive { ExclusiveTell }
{
    answers_are_smallest();
    exclusive_answers();
}
