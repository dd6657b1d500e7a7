// The shortest keyword list of a query's words.
ghost use Rattle.std.specs.Prelude.{◌≡◌, ◌+◌, ◌≤◌, ◌<◌, IfOk, length};
ghost use Rattle.mm_tree.specs.Trees.{Trees};
ghost use Rattle.mm_tree.specs.Numbering.{Labelled};
ghost use Rattle.mm_tree.specs.Search.{worded};
ghost use Rattle.mm_lists.specs.Leaves.{Leaves};
ghost use Rattle.mm_lists.specs.Shortest.{Betters, IsShortest};

use crate::lists::Lists;
use mm_host::Fault;
use mm_steps::Steps;
use mm_words::Word;
use std::sync::ledger::Ledger;

/// Which word of a query has the shortest list, counted from 0, and how many nodes that has.
#[derive(Clone, Copy, Debug, PartialEq, Eq)]
pub struct Shortest {
    pub at: usize,
    pub size: u64,
}

fn better(best: Shortest, at: usize, size: u64) -> Shortest
    ensures { Betters at size best.at best.size result.at result.size }
{
    if at == 0 || size < best.size {
        Shortest { at, size }
    } else {
        best
    }
}

/// Which of the lists is the shortest. Counts each once, which is a step for each word.
pub fn find_shortest<X: Lists, L: Ledger>(
    words: &[Word],
    lists: &mut X,
    steps: &mut Steps<L>,
) -> Result<Shortest, Fault>
    requires { 0 < length words.now }
    ensures value { (f : Trees Labelled) → X.stands lists.old f → IfOk result (λ s. IsShortest words.now (worded f) s.at s.size) }
    ensures within { IfOk result (λ s. s.at < length words.now) }
    ensures leaves { Leaves X.stands X.same_ground X.blames X.fault_count X.spent lists.old lists.new result }
    ensures cost { steps.new ≤ steps.old + length words.now }
{
    let mut best = Shortest {
        at: 0,
        size: u64::MAX,
    };
    for (i, word) in words.iter().enumerate() {
        let size = lists.count(word, steps)?;
        best = better(best, i, size);
    }
    Ok(best)
}
