ghost use Rattle.std.specs.Prelude.{◌≡◌, ◌≤◌};

// How many bits a field has: at most 16.
#[derive(Clone, Copy)]
pub struct Width {
    bits: u8,
    ghost few: { bits ≤ 16 },
}

impl Width {
    pub const ONE: Width = Width { bits: 1 };

    pub const TWO: Width = Width { bits: 2 };

    pub const THREE: Width = Width { bits: 3 };

    pub const FOUR: Width = Width { bits: 4 };

    pub const FIVE: Width = Width { bits: 5 };

    pub const SIX: Width = Width { bits: 6 };

    pub const SIXTEEN: Width = Width { bits: 16 };

    pub fn bits(self) -> u8
        ensures { result ≡ self.bits }
    {
        self.bits
    }
}
