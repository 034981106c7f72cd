ghost use Rattle.std.specs.Prelude.{◌≡◌, true};
ghost use Rattle.domain.specs.Rows.{parts_sheet};
ghost use Rattle.domain.specs.Sheet.{lawful as is_lawful};

use crate::action::Parts;

// A domain sheet: how many fluents there are, the initial literals, the one-of groups, the actions, and the strong and weak goals.
#[derive(Clone, Copy)]
pub struct Domain {
    pub(crate) parts: Parts,
    ghost lawful: { is_lawful (parts_sheet parts) ≡ true },
}
