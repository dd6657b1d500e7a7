/// Where a new tree goes: directly before or after the target, or as its first or last child.
#[derive(Clone, Copy, Debug, PartialEq, Eq)]
pub enum Place {
    Before,
    After,
    First,
    Last,
}
