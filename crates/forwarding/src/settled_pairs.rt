//! Whether all that is known was won.
ghost use Rattle.std.specs.Prelude.{◌≡◌, ◌↔◌, IsTrue, All, Contains};

use layout::Place;

/// Whether the two pairs are one. A place's word tells it from all others.
fn is_same(one: &(u32, Place), other: &(u32, Place)) -> bool
    ensures { IsTrue result ↔ (one.now ≡ other.now) }
{
    one.0 == other.0 && one.1.to_word() == other.1.to_word()
}

/// Whether the pair is in the list.
fn is_among(pair: &(u32, Place), list: &[(u32, Place)]) -> bool
    ensures { IsTrue result ↔ Contains list.now pair.now }
{
    list.iter().any(|other| is_same(other, pair))
}

/// Whether each pair of the first list is in the second. It takes no memory.
pub fn settled(known: &[(u32, Place)], won: &[(u32, Place)]) -> bool
    ensures { IsTrue result ↔ All (λ pair. Contains won.now pair) known.now }
{
    for pair in known {
        if !is_among(pair, won) {
            return false;
        }
    }
    true
}
