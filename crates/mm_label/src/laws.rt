//! The laws of labels: each is the contract of a function that does nothing.

ghost use Rattle.std.specs.Prelude.{◌≡◌, ◌↔◌, ◌++◌, List, ℤ, Option, IsTrue, IfSome};
ghost use Rattle.std.specs.Cmp.Lexicographic.{slice_cmp};
ghost use Rattle.std.specs.Ordering.{nat_cmp, int_cmp};
ghost use Rattle.mm_label.specs.Bytes.{bytes_of};
ghost use Rattle.mm_label.specs.Components.{components};
ghost use Rattle.mm_label.specs.Label.{IsLabel, IsAncestorOrSelf, IsPrefix, is_segment, lca};
ghost use Rattle.mm_label.specs.Text.{text_of};
ghost use Rattle.mm_label.specs.Between.{between, IsOrdered, LiesBetween};
ghost use Rattle.mm_label.specs.Fronts.{Apart, IsAtOrBefore, IsPast, Le};

/// Byte order is label order.
pub fn byte_order()
    ensures { (a b : List ℤ) → IsLabel a → IsLabel b → slice_cmp nat_cmp (bytes_of a) (bytes_of b) ≡ slice_cmp int_cmp a b }
{}

/// The bytes of a are a prefix of those of b exactly where a is b or an ancestor of it.
pub fn ancestry()
    ensures { (a b : List ℤ) → IsLabel a → IsLabel b → IsPrefix (bytes_of a) (bytes_of b) ↔ IsAncestorOrSelf a b }
{}

/// Bytes spell at most one label.
pub fn one_label()
    ensures { (a b : List ℤ) → IsLabel a → IsLabel b → bytes_of a ≡ bytes_of b → a ≡ b }
{}

/// The components that the bytes of a label spell are the label.
pub fn reads_back()
    ensures { (a : List ℤ) → IsLabel a → components (bytes_of a) ≡ a }
{}

/// A text is the canonical text of at most one label.
pub fn one_text()
    ensures { (a b : List ℤ) → IsLabel a → IsLabel b → text_of a ≡ text_of b → a ≡ b }
{}

/// What stands between two neighbours is a segment, above the left one and below the right one.
pub fn lies_between()
    ensures { (l r : Option (List ℤ)) → IfSome l (λ s. IsTrue (is_segment s)) → IfSome r (λ s. IsTrue (is_segment s))
        → IsOrdered l r → LiesBetween l (between l r) r }
{}

/// A label is an ancestor of both or one of them exactly where it is their lowest common ancestor or
/// an ancestor of it.
pub fn lowest_common_ancestor()
    ensures { (a b z : List ℤ) → IsLabel z → (IsAncestorOrSelf z a × IsAncestorOrSelf z b) ↔ IsAncestorOrSelf z (lca a b) }
{}

/// A label is b or an ancestor of it exactly where b goes on from it.
pub fn fronts_are_ancestors()
    ensures { (a b : List ℤ) → IsAncestorOrSelf a b ↔ ((rest : List ℤ) × (b ≡ a ++ rest)) }
{}

/// The order by recursion is the order of labels.
pub fn order_is_label_order()
    ensures { (a b : List ℤ) → Le a b ↔ IsAtOrBefore a b }
{}

/// Lying apart is coming after all of the subtree.
pub fn apart_is_past()
    ensures { (a b : List ℤ) → Apart a b ↔ IsPast a b }
{}
