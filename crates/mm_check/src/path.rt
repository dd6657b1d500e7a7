//! The elements above a label, from the top down.

ghost use Rattle.std.specs.Prelude.{◌≡◌, ◌||◌, [], filter};
ghost use Rattle.std.specs.List.{list_any};
ghost use Rattle.mm_label.specs.Fronts.{is_front};
ghost use Rattle.mm_label.specs.Label.{is_child};
ghost use Rattle.mm_check.specs.Inside.Path.{AreAbove, AreBefore, AreLabels, AreNested, ends_above};

use mm_label::Label;
use mm_list::Items;

/// Whether the last one is at or above the label, if there is any.
fn ends_above(path: &[Label], label: &Label) -> bool
    ensures { result ≡ ends_above label.now path.now }
{
    match path.last() {
        Some(last) => last.is_prefix(label),
        None => true,
    }
}

/// Leaves those that aren't at or above the label. Each stands above those behind it.
fn leave(path: &mut Items<Label>, label: &Label)
    ensures { AreNested path.old → path.new ≡ filter (λ y. is_front y label.now) path.old }
{
    while !ends_above(path.as_slice(), label) {
        let _left = path.pop();
    }
}

/// Whether the label is one segment, or that of one of these and one segment, where all are above it.
fn hangs(path: &[Label], label: &Label) -> bool
    ensures { AreAbove path.now label.now → AreBefore path.now label.now → AreNested path.now → AreLabels path.now → result ≡ (is_child [] label.now || list_any (λ y. is_child y label.now) path.now) }
{
    let _spelled = label.as_bytes();
    let level = label.level();
    if level == 1 {
        return true;
    }
    match path.last() {
        Some(last) => last.level() == level - 1,
        None => false,
    }
}

/// Whether the label hangs on one of these, once those that aren't above it are left.
pub fn takes(path: &mut Items<Label>, label: &Label) -> bool
    ensures left { AreNested path.old → path.new ≡ filter (λ y. is_front y label.now) path.old }
    ensures takes { AreBefore path.old label.now → AreNested path.old → AreLabels path.old → result ≡ (is_child [] label.now || list_any (λ y. is_child y label.now) (filter (λ y. is_front y label.now) path.old)) }
{
    leave(path, label);
    hangs(path.as_slice(), label)
}
