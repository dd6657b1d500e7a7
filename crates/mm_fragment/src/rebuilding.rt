//! A tree from its nodes in document order, gone over from the last to the first: each takes in the trees
//! that were made last, as far as they lie below it.

ghost use Rattle.std.specs.Prelude.{◌≡◌, [], Option, IfOk, MatchOption};
ghost use Rattle.mm_tree.specs.Trees.{Tree, one};
ghost use Rattle.mm_tree.specs.Fragments.{Named, fragment_tree, fragment_trees};
ghost use Rattle.mm_fragment.specs.Inside.Piling.{TakesBelow, TakesOff, piled, roots};
ghost use Rattle.mm_tree.specs.Formed.{name_label};
ghost use Rattle.mm_tree.specs.Rebuild.{rebuild};

use mm_label::Label;
use mm_list::Items;
use mm_tree::Fragment;
use std::alloc::{AllocError, Global};

/// Takes the last of the stack off where it lies below x.
fn take_one(x: &Label, stack: &mut Items<Fragment>) -> Result<Option<Fragment>, AllocError>
    ensures { IfOk result (λ o. TakesOff x.now stack.old stack.new o) }
{
    let Some(top) = stack.pop() else {
        return Ok(None);
    };
    if x.is_prefix(&top.label) {
        return Ok(Some(top));
    }
    stack.push(top)?;
    Ok(None)
}

/// Takes off what lies below x, in document order.
fn take_below(
    alloc: Global,
    x: &Label,
    stack: &mut Items<Fragment>,
) -> Result<Items<Fragment>, AllocError>
    ensures { IfOk result (TakesBelow x.now stack.old stack.new) }
{
    let mut below = Items::new(alloc);
    while let Some(top) = take_one(x, stack)? {
        below.push(top)?;
    }
    Ok(below)
}

/// The node with these fragments as its children.
fn with_children(node: Fragment, children: Items<Fragment>) -> Fragment
    ensures { fragment_tree result ≡ ((fragment_tree node).0, fragment_trees children) }
{
    let Fragment {
        label,
        name,
        matches,
        children: _none,
    } = node;
    Fragment {
        label,
        name,
        matches,
        children,
    }
}

/// The trees of these nodes, the first of them last.
fn stacked(alloc: Global, nodes: Items<Fragment>) -> Result<Items<Fragment>, AllocError>
    ensures { IfOk result (λ stack. piled stack ≡ rebuild name_label (roots nodes)) }
{
    let mut stack = Items::new(alloc);
    let mut left = nodes;
    while let Some(node) = left.pop() {
        let children = take_below(alloc, &node.label, &mut stack)?;
        stack.push(with_children(node, children))?;
    }
    Ok(stack)
}

/// The tree of these nodes, of which the first is the root; None where there is no node.
pub fn rebuild(alloc: Global, nodes: Items<Fragment>) -> Result<Option<Fragment>, AllocError>
    ensures tree { (t : Tree Named) → rebuild name_label (roots nodes) ≡ one t → IfOk result (λ r. MatchOption r ⊥ (λ f. fragment_tree f ≡ t)) }
    ensures alone { nodes ≡ [] → IfOk result (λ r. r ≡ Option.None) }
{
    let mut stack = stacked(alloc, nodes)?;
    Ok(stack.pop())
}
