ghost use Rattle.std.specs.Prelude.{◌≡◌, ◌≤◌, [], ◌∷◌, ◌++◌, length, if◌then◌else◌, nat_lt, ⊤};

use std::alloc::AllocError;

// A list of at most N items, which lie in the value itself. Places past the count hold items that do not count. It is `Copy`, as the
// library's vector of fixed capacity is not, and so are the records that hold it.
#[derive(Drop)]
pub struct FixedList<T, const N: usize> {
    pub table: [T; N],
    pub count: usize,
    ghost few: { count ≤ N },
    ghost long: { length table ≡ N },
}

// By hand: tried as a derive, which is refused over the ghost fields.
impl<T: Copy, const N: usize> Clone for FixedList<T, N> {
    ghost is_clone = { λ s r. r ≡ s };

    ghost is_infallible = { λ _. ⊤ };

    fn clone(&self) -> Result<Self, AllocError> {
        Ok(*self)
    }
}

impl<T: Copy, const N: usize> Copy for FixedList<T, N> {}

impl<T: Copy, const N: usize> FixedList<T, N> {
    ghost use Rattle.lists.specs.Lists.{items_of};

    // No items; the filler lies in each place.
    pub fn empty(filler: T) -> Self
        ensures { items_of result ≡ [] }
    {
        FixedList {
            table: [filler; N],
            count: 0,
        }
    }

    // The items, the first one first.
    pub fn as_slice(&self) -> &[T]
        ensures items { result.now ≡ items_of self.now }
        ensures few { length result.now ≤ N }
    {
        &self.table[..self.count]
    }

    // One item more, and whether there was room for it; without room nothing changes.
    pub fn push(&mut self, item: T) -> bool
        ensures room { result ≡ nat_lt (length (items_of self.old)) N }
        ensures items { items_of self.new ≡ (if result then items_of self.old ++ item ∷ [] else items_of self.old) }
    {
        if self.count >= N {
            return false;
        }
        self.table[self.count] = item;
        self.count += 1;
        true
    }
}
