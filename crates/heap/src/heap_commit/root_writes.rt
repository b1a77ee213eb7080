//! Roots that are put at their new places.
ghost use Rattle.std.specs.Prelude.{◌≡◌, ℕ, map, nat_eq};
ghost use Rattle.std.specs.List.{IsDistinct};
ghost use Rattle.heap.specs.RootView.{root_pair};
ghost use Rattle.heap.specs.Roots.{root_word, renamed_word};

use crate::heap_commit::moves::RenamedRoot;
use crate::roots::Roots;
use std::alloc::Allocator;

/// Puts the roots at their new places.
pub(crate) fn write_roots<A: Allocator>(roots: &mut Roots<A>, renamed: &[RenamedRoot])
    requires { IsDistinct nat_eq (map (λ r. r.number) renamed.now) }
    ensures { (n : ℕ) → root_word roots.new.slots n
        ≡ renamed_word (map root_pair renamed.now) n (root_word roots.old.slots n) }
{
    for root in renamed {
        roots.set(root.number, root.place);
    }
}
