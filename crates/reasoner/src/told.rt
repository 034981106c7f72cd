// Told facts.
ghost use Rattle.std.specs.Prelude.{◌≡◌, suc, length};
ghost use Rattle.literals.specs.Recorded.{recorded};
ghost use Rattle.literals.specs.Tables.{empty};
ghost use Rattle.domain.specs.Domains.{sheet};
ghost use Rattle.knowledge.specs.Sweeps.{told_from};

use domain::record::Domain;
use literals::orders::Orders;
use literals::set::all;
use literals::table::Table;

// The told facts that count: those of the domain's fluents, at moments up to now. A zip of the sets is no
// plainer: the moments are what the table is about.
pub fn counted(domain: &Domain, orders: &Orders, told: &Table) -> Table
    ensures { result.sets ≡ told_from (sheet domain.now).fluents told.now.sets (suc (length (recorded orders.now))) 0 empty }
{
    let fluents = domain.fluents();
    let mut table = Table::empty();
    for moment in 0..orders.len() + 1 {
        table.put(moment, told.at(moment) & all(fluents));
    }
    table
}
