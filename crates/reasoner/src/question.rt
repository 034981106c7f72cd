use domain::record::Domain;
use literals::orders::Orders;
use literals::table::Table;

// What a reasoner is asked: a domain, the orders and looks so far, and the told facts. Public calls take the three apart, as they did.
#[derive(Clone, Copy)]
pub struct Question<'a> {
    pub domain: &'a Domain,
    pub orders: &'a Orders,
    pub told: &'a Table,
}
