//! What contracts alone remember.
ghost use Rattle.std.specs.Prelude.{◌≡◌};
ghost use Rattle.std.specs.Borrow.{ftrue};

use std::marker::{Model, PhantomData};

/// How a `T` is told of a value.
pub trait Tells<X, T> {
    ghost told: { X → T };
}

/// A `T` as contracts see it. It has no bytes and owns nothing: no `T` is made, and `of` does nothing when it runs.
pub struct Remembered<T> {
    marker: PhantomData<T>,
    pub ghost value: { T },
}

impl<T> Model for Remembered<T> {
    ghost also_owns = { λ _. ftrue };
}

impl<T> Remembered<T> {
    /// What the rule tells of the value.
    #[inline(always)]
    pub(crate) fn of<X, R: Tells<X, T>>(x: &X) -> Remembered<T>
        ensures { result.value ≡ R.told x.now }
    {
        let _ = x;
        Remembered {
            marker: PhantomData,
        }
    }
}

impl<T> Drop for Remembered<T> {
    #[inline(always)]
    fn drop(self) {
        let Self { marker: _ } = self;
    }
}

// A struct with `also_owns` has neither by itself. This one owns nothing.
unsafe impl<T> Send for Remembered<T> {}

unsafe impl<T> Sync for Remembered<T> {}
