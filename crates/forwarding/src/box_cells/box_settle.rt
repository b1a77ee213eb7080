//! What the passes of boxed cells know and won in the end.
ghost use Rattle.std.specs.Prelude.{◌≡◌, ◌≢◌, ◌↔◌, ◌<◌, ◌≤◌, ◌^◌, IsTrue, ℕ, All, AllPairs, Err, IfOk, OnOk, length, slice_index_or};
ghost use Rattle.std.specs.List.{sum_by};
ghost use Rattle.std.specs.declared.option.Option.TheVariants.{None};
ghost use Rattle.forwarding.specs.Noted.{IsPassOf, IsApart, IsStep, bid_at, known_at, won_by};
ghost use Rattle.forwarding.specs.Gathered.{IsGathered, win_count};
ghost use Rattle.forwarding.specs.Settled.{IsSettled, Agree, all_pairs, ones, wins_of};
ghost use Rattle.forwarding.specs.BoxSettled.{AllWon};
ghost use Rattle.forwarding.specs.declared.cells.forwards.SettleError.TheVariants.{Unsettled, NoMemory};

use crate::box_cells::box_cells::{BoxCells, BoxPass};
use crate::cells::{Forwards, SettleError};
use std::alloc::Allocator;

// One pass, which knows nothing, learns what all others know.
fn gather(all: &mut BoxPass, passes: &mut [BoxPass])
    requires cells { All (IsPassOf all.old.cells) passes.old }
    requires new { (name : ℕ) → bid_at all.old.known name ≡ None }
    requires many { length all.old.known ≡ length all.old.cells }
    ensures passes { passes.new ≡ passes.old }
    ensures all { IsStep all.old all.new }
    ensures many { length all.new.known ≡ length all.new.cells }
    ensures gathered { IsGathered (length passes.old) passes.old all.new.known }
{
    for pass in passes {
        all.learn(pass);
    }
}

// How many pairs the passes won.
fn count_wins(passes: &[BoxPass]) -> usize
    requires { sum_by win_count passes.now < 2 ^ 64 }
    ensures { result ≡ sum_by win_count passes.now }
{
    passes.iter().map(|pass| pass.win_count()).sum()
}

// Whether all that is known was won. Each known name was won once at most, and no other: so it is enough to count.
fn is_each_won(all: &BoxPass, passes: &[BoxPass]) -> bool
    requires { sum_by win_count passes.now < 2 ^ 64 }
    ensures { IsTrue result ↔ (sum_by ones all.now.known ≡ sum_by win_count passes.now) }
{
    all.known_count() == count_wins(passes)
}

impl BoxCells {
    /// The place of each name that was won. It takes the passes that `new` gave with these cells, each once: each name
    /// that has a place was won once, by one pass, and what the passes know is what they won. `Unsettled` says that a
    /// pass knows a place that no pass won; the passes agree nevertheless, and no name was won twice. `NoMemory` says that memory ran out.
    pub fn settle<B: Allocator>(
        self,
        alloc: B,
        mut passes: Vec<BoxPass, B>,
    ) -> Result<Forwards<B>, SettleError>
        requires passes { All (IsPassOf self) passes.items }
        requires apart { AllPairs IsApart passes.items }
        ensures settled { IfOk result
            (λ f. IsSettled known_at won_by passes.items (length self) (λ name. slice_index_or f name None)) }
        ensures many { IfOk result (λ f. length f ≡ length self) }
        ensures all_won { OnOk result (AllWon known_at won_by passes.items) }
        ensures not_won { result ≡ Err Unsettled → ¬ AllWon known_at won_by passes.items }
        ensures agree { result ≢ Err NoMemory → Agree known_at passes.items }
        ensures won_once { result ≢ Err NoMemory → (name : ℕ) → wins_of name (all_pairs won_by passes.items) ≤ 1 }
    {
        let Ok(mut all) = self.new_pass(0) else {
            return Err(SettleError::NoMemory);
        };
        gather(&mut all, &mut passes);
        if !is_each_won(&all, &passes) {
            return Err(SettleError::Unsettled);
        }
        match all.words(alloc) {
            Ok(words) => Ok(Forwards::of(words)),
            Err(_) => Err(SettleError::NoMemory),
        }
    }
}
