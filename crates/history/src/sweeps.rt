// Sweeps of the rules over the moments.
ghost use Rattle.std.specs.Prelude.{◌≡◌, suc, ◌<◌, ◌≤◌, not, length, slice_index};
ghost use Rattle.literals.specs.Recorded.{recorded};
ghost use Rattle.literals.specs.Tables.{same};
ghost use Rattle.domain.specs.Accessors.{effects_of};
ghost use Rattle.domain.specs.Domains.{sheet};
ghost use Rattle.knowledge.specs.Sweeps.{between, put_both, passed, sweep, sweeps, room};

use crate::pairs::between;
use crate::sets::all_grouped;
use domain::record::Domain;
use literals::orders::Orders;
use literals::table::Table;

// Sweeps until one adds nothing. Each that adds leaves less room for more, so they come to an end. The domain and the orders go beside the
// table, which alone changes: in one value with it, each function would have to promise that they stay.
pub(crate) fn close(domain: &Domain, orders: &Orders, table: &mut Table)
    ensures { table.new.sets ≡ sweeps (sheet domain.now) (recorded orders.now) (room table.old.sets) table.old.sets }
{
    while sweep(domain, orders, table) {}
}

// A sweep, and whether it added something.
fn sweep(domain: &Domain, orders: &Orders, table: &mut Table) -> bool
    ensures table { table.new.sets ≡ sweep (sheet domain.now) (recorded orders.now) table.old.sets }
    ensures value { result ≡ not (same table.new.sets table.old.sets) }
{
    let before = *table;
    add(domain, orders, table);
    !table.same(&before)
}

// What the groups and all orders and looks give.
fn add(domain: &Domain, orders: &Orders, table: &mut Table)
    ensures { table.new.sets ≡ sweep (sheet domain.now) (recorded orders.now) table.old.sets }
{
    table.put(0, all_grouped(domain.groups(), table.at(0)));
    pass(domain, orders.as_slice(), table);
}

// What each order or look gives, the first one first.
fn pass(domain: &Domain, orders: &[u8], table: &mut Table)
    requires { length orders.now ≤ 32 }
    ensures { table.new.sets ≡ passed (sheet domain.now) orders.now (length orders.now) 0 table.old.sets }
{
    for (moment, &action) in orders.iter().enumerate() {
        turn(domain, action, moment, table);
    }
}

// What the order or look at a moment gives.
fn turn(domain: &Domain, action: u8, moment: usize, table: &mut Table)
    requires { moment < 32 }
    ensures { table.new.sets ≡ put_both table.old.sets moment (between (effects_of (sheet domain.now) action) (slice_index table.old.sets moment, slice_index table.old.sets (suc moment))) }
{
    let facts = (table.at(moment), table.at(moment + 1));
    let (before, after) = between(domain.effects(action), facts);
    table.put(moment, before);
    table.put(moment + 1, after);
}
