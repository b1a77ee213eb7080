//! The names in use.
ghost use Rattle.std.specs.Prelude.{◌≡◌, ◌<◌, ℕ, List, [], IfOk, IsTrue, OnOk, OnErr, not, filter, length, map};
ghost use Rattle.std.specs.Option.{option_map};
ghost use Rattle.std.specs.Ordering.{nat_cmp, eq_by_cmp};
ghost use Rattle.std.specs.Cmp.Lexicographic.{slice_cmp};
ghost use Rattle.std.specs.FinMap.{find, put};
ghost use Rattle.std.specs.FinMap.Entries.{is_sorted};
ghost use Rattle.std.specs.HashMap.{spare};
ghost use Rattle.heap_text.specs.HeapLines.{name_value};
ghost use Rattle.trace_session.specs.NamesView.{names_view};

use super::hash::SeededHash;
use heap::RootId;
use heap_text::Name;
use std::alloc::{AllocError, Allocator, Global};
use std::collections::HashMap;
use std::marker::Model;

/// The roots by name.
pub(crate) type Roots<A> = HashMap<Vec<u8, A>, RootId, SeededHash, A>;

/// Room for one more name, and its bytes. Nothing else changes. The error says that memory ran out.
pub(crate) fn room_for<A: Allocator + Clone>(
    roots: &mut Roots<A>,
    alloc: &A,
    name: &[u8],
) -> Result<Vec<u8, A>, AllocError>
    ensures text { IfOk result (λ text. text.items ≡ name.now) }
    ensures room { OnOk result (0 < spare roots.new) }
    ensures names { names_view roots.new ≡ names_view roots.old }
{
    let text = Vec::from_slice(alloc.clone()?, name)?;
    roots.reserve(1)?;
    Ok(text)
}

/// The name leads to this root from now on, whether it was in use or not.
pub(crate) fn put_in<A: Allocator + Clone>(roots: &mut Roots<A>, text: Vec<u8, A>, root: RootId)
    requires { 0 < spare roots.old }
    ensures { names_view roots.new ≡ put (slice_cmp nat_cmp) text.items root.number (names_view roots.old) }
{
    let Ok(_before) = roots.insert(text, root) else {
        unreachable!();
    };
}

/// What each name in use leads to. A look-up or change finds it by its hash.
#[derive(Drop)]
pub struct Names<A: Allocator = Global> {
    pub(crate) roots: Roots<A>,
}

impl<A: Allocator> Model for Names<A> {
    ghost use Rattle.std.specs.Prelude.{◌≡◌, ℕ, List};

    // The names in byte order, each with the number of its root.
    ghost Value = { List (List ℕ × ℕ) };

    ghost use Rattle.trace_session.specs.NamesView.{names_view};

    ghost view = { λ n. names_view n.roots };
}

impl<A: Allocator + Clone> Names<A> {
    /// No names. The seed is that of the hash by which they are found.
    pub fn new(alloc: A, seed: u128) -> Names<A>
        ensures { result ≡ [] }
    {
        Names {
            roots: HashMap::with_hasher(alloc, SeededHash::new(seed)),
        }
    }

    /// The root that a name leads to.
    pub fn get(&self, name: &[u8]) -> Option<RootId>
        ensures { option_map (λ r. r.number) result ≡ find (slice_cmp nat_cmp) name.now self.now }
    {
        self.roots.get(name).copied()
    }

    /// The name leads to this root from now on, whether it was in use or not.
    pub fn insert(&mut self, alloc: &A, name: &[u8], root: RootId) -> Result<(), AllocError>
        ensures ok { OnOk result (self.new ≡ put (slice_cmp nat_cmp) name.now root.number self.old) }
        ensures err { OnErr result (self.new ≡ self.old) }
    {
        let text = room_for(&mut self.roots, alloc, name)?;
        put_in(&mut self.roots, text, root);
        Ok(())
    }

    /// Takes a name away, and gives the root that it led to.
    pub fn remove(&mut self, name: &[u8]) -> Option<RootId>
        ensures root { option_map (λ r. r.number) result ≡ find (slice_cmp nat_cmp) name.now self.old }
        ensures names { self.new ≡ filter (λ e. not (eq_by_cmp (slice_cmp nat_cmp) name.now e.0)) self.old }
    {
        let _count = self.roots.len();
        self.roots.remove(name)
    }

    /// The names in byte order, each with its root. The error says that memory ran out.
    pub fn list(&self, alloc: A) -> Result<Vec<Name<'_>, A>, AllocError>
        ensures names { IfOk result (λ list. map name_value list.items ≡ self.now) }
        ensures sorted { IfOk result (λ _. IsTrue (is_sorted (slice_cmp nat_cmp) self.now)) }
    {
        let mut list = Vec::new(alloc);
        for (text, root) in self.roots.iter() {
            list.push(Name {
                text: text.as_slice(),
                root: *root,
            })?;
        }
        list.sort_unstable_by_key(|name| name.text);
        Ok(list)
    }
}
