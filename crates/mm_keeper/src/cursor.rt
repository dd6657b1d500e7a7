// A cursor in a keeper's map.
ghost use Rattle.std.specs.Prelude.{◌≡◌, ◌<◌, ◌+◌, [], false, ⊤, Some, length, option_map, slice_get, is_some, IsSome, IfSome, IfOk, OnOk, OnErr};
ghost use Rattle.std.specs.declared.option.Option.{Option};
ghost use Rattle.std.specs.Borrow.{follows_so, sem};
ghost use mathlib.Core.Option.{none};
ghost use mir.Syntax.{named};
ghost use Rattle.mm_host.specs.Moments.{LeavesAsBefore};
ghost use Rattle.mm_keeper.specs.Entries.{within, one_before, first_from, last_to};
ghost use Rattle.mm_keeper.specs.Keeping.{Keeps, WritesNothing, fault_of};
ghost use Rattle.mm_keeper.specs.Lending.{lend_fault_of};

use crate::keeper::Keeper;
use crate::lend_error::LendError;
use mm_host::Fault;
use mm_steps::Steps;
use std::sync::ledger::Ledger;

/// Holds a keeper for writing, and stands at one of its entries, or at none.
pub struct Cursor<'a, K: Keeper> {
    keeper: &'a mut K,
    spot: Option<K::Spot>,
}

impl<K: Keeper> Drop for Cursor<'_, K> {
    fn drop(self)
        ensures { self.exit.0.now ≡ self.entry.keeper.now }
    {
        let Cursor {
            keeper: _keeper,
            spot: _spot,
        } = self;
    }
}

impl<'a, K: Keeper> Cursor<'a, K> {
    ghost use Rattle.mm_keeper.specs.contracts.cursor.Cursor.{the_row};

    /// A cursor that stands at no entry.
    pub fn new(keeper: &'a mut K) -> Cursor<'a, K>
        ensures same_reference { result.keeper.ghost_name ≡ keeper.entry.ghost_name }
        ensures same { result.keeper.now ≡ keeper.old }
        ensures none { result.spot ≡ Option.None }
    {
        Cursor { keeper, spot: None }
    }

    /// Stands at the first entry at or above the key, and answers whether there is one.
    pub fn seek<L: Ledger>(&mut self, key: &[u8], steps: &mut Steps<L>) -> Result<bool, Fault>
        requires { K.is_sound self.old.keeper.now }
        ensures found { K.has_maps self.old.keeper.now → OnOk result (option_map (K.seen self.old.keeper.now).place self.new.spot ≡ first_from (K.seen self.old.keeper.now).now key.now) }
        ensures told { IfOk result (λ stands. stands ≡ is_some self.new.spot) }
        ensures stays { OnErr result (self.new.spot ≡ self.old.spot) }
        ensures same_reference { self.new.keeper.ghost_name ≡ self.old.keeper.ghost_name }
        ensures same { K.has_maps self.old.keeper.now → K.seen self.new.keeper.now ≡ K.seen self.old.keeper.now }
        ensures quiet { K.tells → WritesNothing K.written K.changes 0 self.old.keeper.now self.new.keeper.now }
        ensures any_moment { K.has_maps self.old.keeper.now → LeavesAsBefore K.moment K.left_since self.old.keeper.now self.new.keeper.now }
        ensures keeps { Keeps K.over K.has_maps K.is_sound K.is_spent K.fault_count K.want_count false self.old.keeper.now self.new.keeper.now (fault_of result) }
        ensures step { steps.new ≡ steps.old + 1 }
    {
        match self.keeper.up(key, steps) {
            Ok(spot) => {
                self.spot = spot;
                Ok(self.spot.is_some())
            }
            Err(fault) => Err(fault),
        }
    }

    /// Stands at the last entry at or below the key, and answers whether there is one.
    pub fn seek_back<L: Ledger>(&mut self, key: &[u8], steps: &mut Steps<L>) -> Result<bool, Fault>
        requires { K.is_sound self.old.keeper.now }
        ensures found { K.has_maps self.old.keeper.now → OnOk result (option_map (K.seen self.old.keeper.now).place self.new.spot ≡ last_to (K.seen self.old.keeper.now).now key.now) }
        ensures told { IfOk result (λ stands. stands ≡ is_some self.new.spot) }
        ensures stays { OnErr result (self.new.spot ≡ self.old.spot) }
        ensures same_reference { self.new.keeper.ghost_name ≡ self.old.keeper.ghost_name }
        ensures same { K.has_maps self.old.keeper.now → K.seen self.new.keeper.now ≡ K.seen self.old.keeper.now }
        ensures quiet { K.tells → WritesNothing K.written K.changes 0 self.old.keeper.now self.new.keeper.now }
        ensures any_moment { K.has_maps self.old.keeper.now → LeavesAsBefore K.moment K.left_since self.old.keeper.now self.new.keeper.now }
        ensures keeps { Keeps K.over K.has_maps K.is_sound K.is_spent K.fault_count K.want_count false self.old.keeper.now self.new.keeper.now (fault_of result) }
        ensures step { steps.new ≡ steps.old + 1 }
    {
        match self.keeper.down(key, steps) {
            Ok(spot) => {
                self.spot = spot;
                Ok(self.spot.is_some())
            }
            Err(fault) => Err(fault),
        }
    }

    /// Stands at the next entry, and answers whether there is one.
    pub fn next<L: Ledger>(&mut self, steps: &mut Steps<L>) -> Result<bool, Fault>
        requires sound { K.is_sound self.old.keeper.now }
        requires some { IsSome self.old.spot }
        requires stands { K.has_maps self.old.keeper.now → IfSome self.old.spot (λ s. (K.seen self.old.keeper.now).place s < length (K.seen self.old.keeper.now).now) }
        ensures found { K.has_maps self.old.keeper.now → OnOk result (IfSome self.old.spot (λ s. option_map (K.seen self.old.keeper.now).place self.new.spot ≡ within (K.seen self.old.keeper.now).now ((K.seen self.old.keeper.now).place s + 1))) }
        ensures told { IfOk result (λ stands. stands ≡ is_some self.new.spot) }
        ensures stays { OnErr result (self.new.spot ≡ self.old.spot) }
        ensures same_reference { self.new.keeper.ghost_name ≡ self.old.keeper.ghost_name }
        ensures same { K.has_maps self.old.keeper.now → K.seen self.new.keeper.now ≡ K.seen self.old.keeper.now }
        ensures quiet { K.tells → WritesNothing K.written K.changes 0 self.old.keeper.now self.new.keeper.now }
        ensures any_moment { K.has_maps self.old.keeper.now → LeavesAsBefore K.moment K.left_since self.old.keeper.now self.new.keeper.now }
        ensures keeps { Keeps K.over K.has_maps K.is_sound K.is_spent K.fault_count K.want_count false self.old.keeper.now self.new.keeper.now (fault_of result) }
        ensures step { steps.new ≡ steps.old + 1 }
    {
        match self.spot {
            Some(spot) => match self.keeper.after(spot, steps) {
                Ok(next) => {
                    self.spot = next;
                    Ok(self.spot.is_some())
                }
                Err(fault) => Err(fault),
            },
            None => unreachable!(),
        }
    }

    /// Stands at the entry before, and answers whether there is one.
    pub fn back<L: Ledger>(&mut self, steps: &mut Steps<L>) -> Result<bool, Fault>
        requires sound { K.is_sound self.old.keeper.now }
        requires some { IsSome self.old.spot }
        requires stands { K.has_maps self.old.keeper.now → IfSome self.old.spot (λ s. (K.seen self.old.keeper.now).place s < length (K.seen self.old.keeper.now).now) }
        ensures found { K.has_maps self.old.keeper.now → OnOk result (IfSome self.old.spot (λ s. option_map (K.seen self.old.keeper.now).place self.new.spot ≡ one_before ((K.seen self.old.keeper.now).place s))) }
        ensures told { IfOk result (λ stands. stands ≡ is_some self.new.spot) }
        ensures stays { OnErr result (self.new.spot ≡ self.old.spot) }
        ensures same_reference { self.new.keeper.ghost_name ≡ self.old.keeper.ghost_name }
        ensures same { K.has_maps self.old.keeper.now → K.seen self.new.keeper.now ≡ K.seen self.old.keeper.now }
        ensures quiet { K.tells → WritesNothing K.written K.changes 0 self.old.keeper.now self.new.keeper.now }
        ensures any_moment { K.has_maps self.old.keeper.now → LeavesAsBefore K.moment K.left_since self.old.keeper.now self.new.keeper.now }
        ensures keeps { Keeps K.over K.has_maps K.is_sound K.is_spent K.fault_count K.want_count false self.old.keeper.now self.new.keeper.now (fault_of result) }
        ensures step { steps.new ≡ steps.old + 1 }
    {
        match self.spot {
            Some(spot) => match self.keeper.before(spot, steps) {
                Ok(next) => {
                    self.spot = next;
                    Ok(self.spot.is_some())
                }
                Err(fault) => Err(fault),
            },
            None => unreachable!(),
        }
    }

    /// Whether it stands at an entry.
    pub fn stands(&self) -> bool
        ensures { result ≡ is_some self.now.spot }
    {
        self.spot.is_some()
    }

    /// Lends the key of the entry at which it stands. It takes no step.
    pub fn key(&mut self) -> Result<&[u8], LendError>
        requires sound { K.is_sound self.old.keeper.now }
        requires some { IsSome self.old.spot }
        requires stands { K.has_maps self.old.keeper.now → IfSome self.old.spot (λ s. (K.seen self.old.keeper.now).place s < length (K.seen self.old.keeper.now).now) }
        ensures* rests { sem 𝓛 (follows_so (the_row (record { mir = named 1; lft = [] }) K.row K.Spot.row) (the_row (record { mir = named 1; lft = [] }) K.row K.Spot.row) self.entry.ghost_name none (λ _ _. ⊤)
            (λ n. (n.keeper.ghost_name ≡ self.old.keeper.ghost_name) × (n.spot ≡ self.old.spot)
            × (K.has_maps self.old.keeper.now → K.seen n.keeper.now ≡ K.seen self.old.keeper.now)
            × (K.tells → WritesNothing K.written K.changes 0 self.old.keeper.now n.keeper.now)
            × (K.has_maps self.old.keeper.now → LeavesAsBefore K.moment K.left_since self.old.keeper.now n.keeper.now)
            × Keeps K.over K.has_maps K.is_sound K.is_spent K.fault_count K.want_count false self.old.keeper.now n.keeper.now (lend_fault_of result))) }
        ensures lent { K.has_maps self.old.keeper.now → IfOk result (λ k. IfSome self.old.spot (λ s. option_map (λ e. e.0) (slice_get (K.seen self.old.keeper.now).now ((K.seen self.old.keeper.now).place s)) ≡ Some k.now)) }
    {
        match self.spot {
            Some(spot) => match self.keeper.entry(spot) {
                Ok(entry) => Ok(entry.key),
                Err(error) => Err(error),
            },
            None => unreachable!(),
        }
    }

    /// Lends the value of the entry at which it stands. It takes no step.
    pub fn value(&mut self) -> Result<&[u8], LendError>
        requires sound { K.is_sound self.old.keeper.now }
        requires some { IsSome self.old.spot }
        requires stands { K.has_maps self.old.keeper.now → IfSome self.old.spot (λ s. (K.seen self.old.keeper.now).place s < length (K.seen self.old.keeper.now).now) }
        ensures* rests { sem 𝓛 (follows_so (the_row (record { mir = named 1; lft = [] }) K.row K.Spot.row) (the_row (record { mir = named 1; lft = [] }) K.row K.Spot.row) self.entry.ghost_name none (λ _ _. ⊤)
            (λ n. (n.keeper.ghost_name ≡ self.old.keeper.ghost_name) × (n.spot ≡ self.old.spot)
            × (K.has_maps self.old.keeper.now → K.seen n.keeper.now ≡ K.seen self.old.keeper.now)
            × (K.tells → WritesNothing K.written K.changes 0 self.old.keeper.now n.keeper.now)
            × (K.has_maps self.old.keeper.now → LeavesAsBefore K.moment K.left_since self.old.keeper.now n.keeper.now)
            × Keeps K.over K.has_maps K.is_sound K.is_spent K.fault_count K.want_count false self.old.keeper.now n.keeper.now (lend_fault_of result))) }
        ensures lent { K.has_maps self.old.keeper.now → IfOk result (λ v. IfSome self.old.spot (λ s. option_map (λ e. e.1) (slice_get (K.seen self.old.keeper.now).now ((K.seen self.old.keeper.now).place s)) ≡ Some v.now)) }
    {
        match self.spot {
            Some(spot) => match self.keeper.entry(spot) {
                Ok(entry) => Ok(entry.value),
                Err(error) => Err(error),
            },
            None => unreachable!(),
        }
    }
}
