//! An allocator that refuses one of its requests, or each from one on, and counts, for tests of what happens where memory runs out.
//! Threads share it by `&`.
#![tactic(auto)]

use std::alloc::{AllocError, Allocator};
use std::sync::atomic::{AtomicU64, Ordering};

/// How many requests there were, which are refused, how many blocks came back, and how many bytes these and those had.
#[derive(Drop)]
pub struct Requests {
    asked: AtomicU64,
    returned: AtomicU64,
    bytes_granted: AtomicU64,
    bytes_returned: AtomicU64,
    first_refused: u64,
    last_refused: u64,
}

impl Requests {
    ghost use Rattle.std.specs.Prelude.{◌≡◌};

    /// None yet, of which those from the first of these numbers to the last will be refused.
    fn refusing(first_refused: u64, last_refused: u64) -> Requests
        ensures first { result.first_refused ≡ first_refused }
        ensures last { result.last_refused ≡ last_refused }
    {
        Requests {
            asked: AtomicU64::new(0),
            returned: AtomicU64::new(0),
            bytes_granted: AtomicU64::new(0),
            bytes_returned: AtomicU64::new(0),
            first_refused,
            last_refused,
        }
    }
}

/// Counts a request for so many bytes, and says whether it is one to refuse. The bytes of such a one don't count.
fn refuses_next(requests: &Requests, size: usize) -> bool {
    let number = requests.asked.fetch_add(1, Ordering::SeqCst);
    if requests.first_refused <= number && number <= requests.last_refused {
        return true;
    }
    requests
        .bytes_granted
        .fetch_add(size as u64, Ordering::SeqCst);
    false
}

/// Counts a block of so many bytes that comes back.
fn counts_return(requests: &Requests, size: usize) {
    requests.returned.fetch_add(1, Ordering::SeqCst);
    requests
        .bytes_returned
        .fetch_add(size as u64, Ordering::SeqCst);
}

/// Hands each request to an inner allocator but one, or but those from one on, which it refuses. `&Refusing<B>` is an allocator
/// too.
#[derive(Drop)]
pub struct Refusing<B: Allocator> {
    inner: B,
    requests: Requests,
}

impl<B: Allocator> Refusing<B> {
    ghost use Rattle.std.specs.Prelude.{◌≡◌};
    ghost use Rattle.refusing.specs.Refused.{first_refused, last_refused, inner_allocator};

    /// Refuses the request of this number, counted from 0, and no other.
    pub fn new(inner: B, refused: u64) -> Refusing<B>
        ensures first { first_refused result ≡ refused }
        ensures last { last_refused result ≡ refused }
        ensures inner { inner_allocator result ≡ inner }
    {
        Refusing {
            inner,
            requests: Requests::refusing(refused, refused),
        }
    }

    /// Refuses the request of this number, counted from 0, and each that comes after it.
    pub fn from_on(inner: B, first: u64) -> Refusing<B>
        ensures first { first_refused result ≡ first }
        ensures last { last_refused result ≡ 18446744073709551615 }
        ensures inner { inner_allocator result ≡ inner }
    {
        Refusing {
            inner,
            requests: Requests::refusing(first, u64::MAX),
        }
    }

    /// The number of requests so far, the refused ones among them. What it is no contract can say.
    pub fn asked(&self) -> u64 {
        self.requests.asked.load(Ordering::SeqCst)
    }

    /// The number of blocks that came back so far. What it is no contract can say.
    pub fn returned(&self) -> u64 {
        self.requests.returned.load(Ordering::SeqCst)
    }

    /// How many bytes were asked for so far and not refused here, and have not come back. What they are no contract can say.
    pub fn bytes_held(&self) -> u64 {
        let returned = self.requests.bytes_returned.load(Ordering::SeqCst);
        let granted = self.requests.bytes_granted.load(Ordering::SeqCst);
        granted.saturating_sub(returned)
    }
}

unsafe impl<B: Allocator> Allocator for Refusing<B> {
    ghost dealloc_token = { λ heap ty ptr. B.dealloc_token heap.inner ty ptr };

    fn allocate(&self, size: usize, align: usize) -> Result<*mut u8, AllocError> {
        if refuses_next(&self.requests, size) {
            return Err(AllocError);
        }
        self.inner.allocate(size, align)
    }

    unsafe fn deallocate(&self, ptr: *mut u8, size: usize, align: usize) {
        counts_return(&self.requests, size);
        self.inner.deallocate(ptr, size, align);
    }
}

#[cfg(test)]
mod tests {
    use super::*;
    use std::alloc::Global;
    use std::test::Fail;

    /// Two vectors of one element each.
    fn pair<A: Allocator + Clone>(alloc: A) -> Result<u64, AllocError> {
        let mut first = Vec::new(alloc.clone()?);
        first.push(1_u64)?;
        let mut second = Vec::new(alloc);
        second.push(2_u64)?;
        Ok(
            first
                .as_slice()
                .iter()
                .chain(second.as_slice().iter())
                .copied()
                .count() as u64,
        )
    }

    #[test]
    fn refuses_each_request_in_turn(rt: HostRuntime) -> Result<(), Fail> {
        let refusing = Refusing::new(rt.alloc(), 0);
        assert!(rt; pair(&refusing).is_err());
        assert_eq!(rt; (refusing.asked(), refusing.returned()), (1, 0));

        let refusing = Refusing::new(rt.alloc(), 1);
        assert!(rt; pair(&refusing).is_err());
        assert_eq!(rt; (refusing.asked(), refusing.returned()), (2, 1));

        let refusing = Refusing::new(rt.alloc(), 2);
        assert!(rt; pair(&refusing).is_ok());
        assert_eq!(rt; (refusing.asked(), refusing.returned()), (2, 2));
        Ok(())
    }

    #[test]
    fn refuses_each_request_from_one_on(rt: HostRuntime) -> Result<(), Fail> {
        let refusing = Refusing::from_on(rt.alloc(), 1);
        for number in 0_u64..3 {
            assert!(rt; pair(&refusing).is_err());
            // The first of the first pair is granted, and nothing after it.
            assert_eq!(rt; (refusing.asked(), refusing.returned()), (number + 2, 1));
        }
        Ok(())
    }

    #[test]
    fn counts_the_bytes_that_are_held(rt: HostRuntime) -> Result<(), Fail> {
        let refusing = Refusing::new(rt.alloc(), 2);
        let first: Vec<u64, _> = Vec::with_capacity(&refusing, 100)?;
        assert_eq!(rt; refusing.bytes_held(), 800);
        let second: Vec<u32, _> = Vec::with_capacity(&refusing, 100)?;
        assert_eq!(rt; refusing.bytes_held(), 1_200);
        // What is refused holds none.
        assert!(rt; pair(&refusing).is_err());
        assert_eq!(rt; refusing.bytes_held(), 1_200);
        drop(first);
        assert_eq!(rt; refusing.bytes_held(), 400);
        drop(second);
        assert_eq!(rt; refusing.bytes_held(), 0);
        Ok(())
    }
}
