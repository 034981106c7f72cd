// What a log holds besides its reasoner and its domain.
ghost use Rattle.std.specs.Prelude.{◌≡◌, true, false, ◌&&◌, ltb, [], ◌∷◌, ◌++◌, length, replicate, if◌then◌else◌, ◌==◌, nat_lt, slice_index, slice_index_or, slice_set};
ghost use Rattle.literals.specs.Recorded.{recorded};
ghost use Rattle.literals.specs.Tables.{empty};

use lists::slices::put;
use literals::orders::Orders;
use literals::table::Table;

// Of each moment, whether the look there is owed. It lies apart from the orders, since those alone are lent to a reasoner.
#[derive(Clone, Copy)]
pub(crate) struct Owed {
    moments: [bool; 32],
    ghost long: { length moments ≡ 32 },
}

impl Owed {
    pub(crate) fn none() -> Self
        ensures { result.moments ≡ replicate 32 false }
    {
        Owed {
            moments: [false; 32],
        }
    }

    pub(crate) fn at(&self, moment: usize) -> bool
        ensures { result ≡ slice_index_or self.now.moments moment false }
    {
        self.moments.get(moment).copied().unwrap_or(false)
    }

    // Past the moments nothing changes.
    pub(crate) fn put(&mut self, moment: usize, owed: bool)
        ensures { self.new.moments ≡ slice_set self.old.moments moment owed }
    {
        put(&mut self.moments, moment, owed);
    }
}

// The orders and looks so far, the told facts, and the looks that are owed.
#[derive(Clone, Copy)]
pub(crate) struct State {
    pub(crate) orders: Orders,
    pub(crate) told: Table,
    pub(crate) owed: Owed,
}

impl State {
    // Nothing was ordered, told or looked at.
    pub(crate) fn new() -> Self
        ensures orders { recorded result.orders ≡ [] }
        ensures told { result.told.sets ≡ empty }
        ensures owed { result.owed.moments ≡ replicate 32 false }
    {
        State {
            orders: Orders::none(),
            told: Table::empty(),
            owed: Owed::none(),
        }
    }

    // Whether the look of an action at a moment is owed.
    pub(crate) fn owes(&self, action: u8, moment: u8) -> bool
        ensures { result ≡ (slice_index_or self.now.owed.moments moment false && (nat_lt moment (length (recorded self.now.orders)) && slice_index (recorded self.now.orders) moment == action)) }
    {
        self.owed.at(usize::from(moment)) & is_at(self.orders.as_slice(), moment, action)
    }

    // One order or look more, where there is room.
    pub(crate) fn enter(&mut self, action: u8)
        ensures orders { recorded self.new.orders ≡ (if ltb (length (recorded self.old.orders)) 32 then recorded self.old.orders ++ action ∷ [] else recorded self.old.orders) }
        ensures told { self.new.told ≡ self.old.told }
        ensures owed { self.new.owed ≡ self.old.owed }
    {
        self.orders.push(action);
    }

    // One look more, which is owed, where there is room; the answer is its moment.
    pub(crate) fn look(&mut self, action: u8) -> u8
        ensures value { result ≡ length (recorded self.old.orders) }
        ensures orders { recorded self.new.orders ≡ (if ltb (length (recorded self.old.orders)) 32 then recorded self.old.orders ++ action ∷ [] else recorded self.old.orders) }
        ensures told { self.new.told ≡ self.old.told }
        ensures owed { self.new.owed.moments ≡ slice_set self.old.owed.moments (length (recorded self.old.orders)) true }
    {
        let moment = self.orders.len();
        self.owed.put(moment, true);
        self.enter(action);
        moment as u8
    }
}

// Whether an action stands at a moment.
fn is_at(orders: &[u8], moment: u8, action: u8) -> bool
    ensures { result ≡ (nat_lt moment (length orders.now) && slice_index orders.now moment == action) }
{
    orders
        .get(usize::from(moment))
        .is_some_and(|ordered| *ordered == action)
}
