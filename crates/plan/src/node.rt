// One node of a plan: an end, or an order or a look with its action's number.
#[derive(Clone, Copy, Debug, PartialEq, Eq)]
pub enum Node {
    End,
    Order { action: u8 },
    Look { action: u8 },
}
