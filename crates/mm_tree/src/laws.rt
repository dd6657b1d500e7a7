//! Laws of the definitions: each is the contract of a function that does nothing.

ghost use Rattle.std.specs.Prelude.{◌≡◌, ℕ, List, false};
ghost use Rattle.mm_tree.specs.Fragments.{Named, all_rows, bares, contributors, relevant, rows_of};
ghost use Rattle.mm_tree.specs.Order.{PreorderIsLabelOrder};
ghost use Rattle.mm_tree.specs.Owners.{AnswersAreExclusive, ExclusiveAreFull, ExclusiveRise, SmallestAreExclusive};
ghost use Rattle.mm_tree.specs.Search.{some_full};
ghost use Rattle.mm_tree.specs.Smallest.{AnswersAreNodes, AnswersAreSmallest, FullNodesHaveAnswers, AnswersAreApart, AnswersRise};
ghost use Rattle.mm_tree.specs.Staying.{DeleteStaysFormed, InsertStaysFormed, LoadStaysFormed, ReplaceStaysFormed};
ghost use Rattle.mm_tree.specs.Trees.{Trees};
ghost use Rattle.mm_tree.specs.Untouched.{LoadLeaves, InsertLeaves, DeleteLeaves, ReplaceLeaves};

use mm_label::laws::lies_between;

/// The nodes of a well-formed forest, each before its children and these before its later
/// siblings, are in the order of their labels.
pub fn preorder_is_label_order()
    ensures { PreorderIsLabelOrder }
{}

/// The nodes outside the edited subtree keep their labels, kinds and order, and no other nodes are
/// there beside the subtree's. A load keeps all nodes, and those of the new tree stand behind them.
pub fn untouched()
    ensures load { LoadLeaves }
    ensures insert { InsertLeaves }
    ensures delete { DeleteLeaves }
    ensures replace { ReplaceLeaves }
{}

/// A load, an insertion, a deletion and a replacement that aren't refused, of valid trees, leave a well-formed
/// forest well formed.
pub fn edits_stay_formed()
    ensures load { LoadStaysFormed }
    ensures insert { InsertStaysFormed }
    ensures delete { DeleteStaysFormed }
    ensures replace { ReplaceStaysFormed }
{
    lies_between()
}

/// The answers of `slca` are what they are called: labels of full nodes that have no full node below
/// them. Each full node has one of them at or below it, none of them is an ancestor of another, and
/// they stand in the order of the document.
pub fn answers_are_smallest()
    ensures nodes { AnswersAreNodes }
    ensures smallest { AnswersAreSmallest }
    ensures reached { FullNodesHaveAnswers }
    ensures apart { AnswersAreApart }
    ensures rising { AnswersRise }
{}

/// The answers of `elca` are what they are called: the full nodes with an occurrence of each word of the
/// query at or below them that is at or below no full node properly below them. Each answer of `slca` is
/// one of them, and they stand in the order of the document, each once.
pub fn exclusive_answers()
    ensures exclusive { AnswersAreExclusive }
    ensures smallest { SmallestAreExclusive }
    ensures full { ExclusiveAreFull }
    ensures rising { ExclusiveRise }
{}

/// Below a node none of whose children is full, as below a smallest lowest common ancestor, the fragment
/// keeps what MaxMatch's contributor rule keeps.
pub fn contributors_are_relevant()
    ensures { (query : List (List ℕ)) (inner : Trees Named) → some_full query (bares inner) ≡ false → contributors query (rows_of query inner) inner ≡ relevant query (all_rows query inner) inner }
{}
