ghost use Rattle.std.specs.Prelude.{◌≡◌, ◌≤◌, length, set, slice_index, slice_set};
ghost use Rattle.literals.specs.Tables.{AreSets, told, filled, empty, moments, full, each_covers, is_full, same, common};

use crate::set::{Literal, LiteralSet, all, covers, with};
use lists::slices::put;

// A set of literals for each moment from 0 to 32.
#[derive(Clone, Copy, PartialEq, Eq)]
pub struct Table {
    sets: [u64; 33],
    ghost long: { length sets ≡ 33 },
    ghost small: { AreSets sets },
}

impl Table {
    // It shows nothing.
    pub fn empty() -> Self
        ensures { result.sets ≡ empty }
    {
        filled(0, 0)
    }

    // It shows every literal of the fluents at each moment up to the last.
    pub fn full(fluents: u8, last: usize) -> Self
        ensures { result.sets ≡ full fluents last }
    {
        filled(moments(last), all(fluents))
    }

    // The set at a moment; past the table it is empty.
    pub fn at(&self, moment: usize) -> LiteralSet
        ensures { result ≡ slice_index self.now.sets moment }
    {
        self.sets.get(moment).copied().unwrap_or(0)
    }

    // Another set at a moment; past the table nothing changes.
    pub fn put(&mut self, moment: usize, literals: LiteralSet)
        ensures { self.new.sets ≡ slice_set self.old.sets moment literals }
    {
        put(&mut self.sets, moment, literals);
    }

    // One literal more at a moment.
    pub fn tell(&mut self, moment: usize, literal: Literal)
        ensures { self.new.sets ≡ told self.old.sets moment literal }
    {
        self.put(moment, with(self.at(moment), literal));
    }

    // Whether it shows every literal of the fluents at each moment up to the last.
    pub fn is_full(&self, fluents: u8, last: usize) -> bool
        ensures { result ≡ is_full fluents last self.now.sets }
    {
        each_covers(&self.sets[0..moments(last)], all(fluents))
    }

    // Whether the other shows the same at each moment.
    #[tactic(auto, using(crate::proofs::Facts::same_from_pointwise))]
    pub fn same(&self, other: &Table) -> bool
        ensures { result ≡ same self.now.sets other.now.sets }
    {
        self == other
    }

    // What both show.
    pub fn common(&self, other: &Table) -> Table
        ensures { result.sets ≡ common self.now.sets other.now.sets }
    {
        both(self, other)
    }

    // The sets from moment 0 on.
    pub fn as_slice(&self) -> &[u64]
        ensures { result.now ≡ self.now.sets }
    {
        &self.sets
    }
}

// The same set at the first moments, and empty sets after them.
fn filled(count: usize, literals: LiteralSet) -> Table
    requires { count ≤ 33 }
    ensures { result.sets ≡ filled count literals }
{
    let mut sets = [0; 33];
    sets[..count].fill(literals);
    Table { sets }
}

// How many moments there are up to the last.
fn moments(last: usize) -> usize
    ensures { result ≡ moments last }
{
    last.min(32) + 1
}

// Whether the part is in each set.
fn each_covers(sets: &[u64], part: LiteralSet) -> bool
    ensures { result ≡ each_covers sets.now part }
{
    sets.iter().all(|set| covers(*set, part))
}

// What both show, moment by moment, with its proof by hand, so that a wrong line of `common` is refused at that line. A zip of the sets is
// no plainer: the moments are what the table is about.
fn both(one: &Table, other: &Table) -> Table
    ensures { result.sets ≡ common one.now.sets other.now.sets }
{
    let mut shared = *one;
    for moment in 0..33 {
        shared.put(moment, one.at(moment) & other.at(moment));
    }
    shared
}
