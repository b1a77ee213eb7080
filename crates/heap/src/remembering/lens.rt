//! Sets that are taken back to what they were.
ghost use Rattle.std.specs.Prelude.{◌≡◌, ℕ, List, length, map};
ghost use Rattle.heap.specs.Growth.{AreGrown};

use arrayvec::ArrayVec;
use remembered_set::Remembered;
use std::alloc::Allocator;

/// How many members each set has.
pub(crate) fn lens<A: Allocator + Clone>(sets: &Remembered<A>) -> ArrayVec<usize, 4>
    ensures { result.items ≡ map length sets.now }
{
    let mut lens = ArrayVec::new();
    for h in 0..sets.generations() {
        lens.push(sets.len(h));
    }
    lens
}

/// Takes back what was noted since the sets had so many members.
pub(crate) fn cut_back<A: Allocator + Clone>(sets: &mut Remembered<A>, lens: &[usize])
    requires { length lens.now ≡ length sets.old }
    ensures { (start : List (List ℕ)) → lens.now ≡ map length start → AreGrown start sets.old → sets.new ≡ start }
{
    for h in 0..lens.len() {
        sets.cut(h, lens[h]);
    }
}
