use lists::fixed_list::FixedList;

// The actions that were ordered, the first one first: at most 32.
#[derive(Clone, Copy)]
pub struct Orders {
    actions: FixedList<u8, 32>,
}

impl Orders {
    ghost use Rattle.std.specs.Prelude.{◌≡◌, ◌≤◌, [], ◌∷◌, ◌++◌, length, if◌then◌else◌, nat_lt};
    ghost use Rattle.literals.specs.Recorded.{recorded};

    // Nothing was ordered yet.
    pub fn none() -> Self
        ensures { recorded result ≡ [] }
    {
        Orders {
            actions: FixedList::empty(0),
        }
    }

    pub fn len(&self) -> usize
        ensures { result ≡ length (recorded self.now) }
    {
        self.as_slice().len()
    }

    // The actions so far.
    pub fn as_slice(&self) -> &[u8]
        ensures { result.now ≡ recorded self.now }
    {
        self.actions.as_slice()
    }

    // One action more, and whether there was room for it; without room nothing changes.
    pub fn push(&mut self, action: u8) -> bool
        ensures room { result ≡ nat_lt (length (recorded self.old)) 32 }
        ensures actions { recorded self.new ≡ (if result then recorded self.old ++ action ∷ [] else recorded self.old) }
    {
        self.actions.push(action)
    }
}
