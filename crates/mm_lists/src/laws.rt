//! Laws of the definitions: each is the contract of a function that does nothing.

ghost use Rattle.std.specs.Prelude.{◌≡◌, false};
ghost use Rattle.mm_host.specs.declared.damage.Fault.{Fault};
ghost use Rattle.mm_host.specs.declared.damage.Fault.TheVariants.{Memory};
ghost use Rattle.mm_lists.specs.Causes.{CauseOf, IsSound};

/// Lists that never fail and are never spent are refused for want of memory alone, where they stand for
/// a forest.
pub fn memory_alone()
    ensures { (e : Fault) → CauseOf 0 0 false e → IsSound e → e ≡ Memory }
{}
