//! A name of a trace, and the object that it leads to.
ghost use Rattle.std.specs.Prelude.{◌≡◌, ◌∷◌, ◌++◌, ◌≤◌, not, filter, length, None, IfOk, OnOk, OnErr};
ghost use Rattle.std.specs.List.{insert, position_or_len};
ghost use Rattle.std.specs.Ordering.{nat_cmp, eq_by_cmp, is_lt};
ghost use Rattle.std.specs.Cmp.Lexicographic.{slice_cmp};
ghost use Rattle.std.specs.FinMap.{find, put};
ghost use Rattle.reference.specs.NamePlace.{place_of};

use std::alloc::{AllocError, Allocator, Global};
use std::cmp::Ordering;
use std::marker::Model;

/// A name of a trace, and the object that it leads to, by the object's own name, a number.
#[derive(Drop)]
pub struct Named<A: Allocator = Global> {
    text: Vec<u8, A>,
    name: usize,
}

impl<A: Allocator> Model for Named<A> {
    ghost use Rattle.std.specs.Prelude.{ℕ, List};

    ghost Value = { List ℕ × ℕ };

    ghost view = { λ n. (n.text.items, n.name) };
}

impl<A: Allocator> Named<A> {
    /// The name of the object, a number.
    pub fn name(&self) -> usize
        ensures { result ≡ self.now.1 }
    {
        self.name
    }

    /// The name as it stands in the trace.
    pub fn text(&self) -> &[u8]
        ensures { result.now ≡ self.now.0 }
    {
        self.text.as_slice()
    }

    /// An error says that memory ran out.
    pub fn new(alloc: A, text: &[u8], name: usize) -> Result<Self, AllocError>
        ensures { IfOk result (λ n. n ≡ (text.now, name)) }
    {
        let text = Vec::from_slice(alloc, text)?;
        Ok(Named { text, name })
    }
}

fn is_same(text: &[u8], other: &[u8]) -> bool
    ensures { result ≡ eq_by_cmp (slice_cmp nat_cmp) text.now other.now }
{
    matches!(text.cmp(other), Ordering::Equal)
}

fn is_before(text: &[u8], other: &[u8]) -> bool
    ensures { result ≡ is_lt (slice_cmp nat_cmp text.now other.now) }
{
    matches!(text.cmp(other), Ordering::Less)
}

/// What the text leads to.
pub fn find_name<A: Allocator>(names: &[Named<A>], text: &[u8]) -> Option<usize>
    ensures { result ≡ find (slice_cmp nat_cmp) text.now names.now }
{
    for named in names {
        if is_same(text, named.text()) {
            return Some(named.name());
        }
    }
    None
}

/// The place of the first name after the text.
fn place_of<A: Allocator>(names: &[Named<A>], text: &[u8]) -> usize
    ensures place { result ≡ place_of text.now names.now }
    ensures within { result ≤ length names.now }
{
    for (i, named) in names.iter().enumerate() {
        if is_before(text, named.text()) {
            return i;
        }
    }
    names.len()
}

/// Adds a name. An error says that memory ran out.
pub fn add_name<A: Allocator>(
    names: &mut Vec<Named<A>, A>,
    named: Named<A>,
) -> Result<(), AllocError>
    requires { find (slice_cmp nat_cmp) named.0 names.old.items ≡ None }
    ensures ok { OnOk result (names.new.items ≡ put (slice_cmp nat_cmp) named.0 named.1 names.old.items) }
    ensures err { OnErr result (names.new.items ≡ names.old.items) }
{
    let place = place_of(names.as_slice(), named.text());
    names.insert(place, named)?;
    Ok(())
}

/// Takes a name out.
pub fn drop_name<A: Allocator>(names: &mut Vec<Named<A>, A>, text: &[u8])
    ensures { names.new.items ≡ filter (λ e. not (eq_by_cmp (slice_cmp nat_cmp) text.now e.0)) names.old.items }
{
    names.retain(|named| !is_same(text, named.text()));
}
