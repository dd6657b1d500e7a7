//! Laws of the definitions: each is the contract of a function that does nothing.

ghost use Rattle.mm_match.specs.Contributors.{KeptAreContributors, KeptRise, PathsAreOfTree};

/// Kept are the root's mark, and each mark whose parent's is kept and whose words are no strict subset of a
/// sibling's, in the order of the document. The marks are those of a tree, as `masks` gives them.
pub fn kept_are_contributors()
    ensures kept { KeptAreContributors }
    ensures rising { KeptRise }
    ensures paths { PathsAreOfTree }
{}
