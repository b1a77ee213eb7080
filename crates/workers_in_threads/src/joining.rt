//! What workers on threads of their own brought together: the contract of the function is a theorem, and its body is empty.
ghost use Rattle.std.specs.Prelude.{◌≡◌, ◌<◌, ℕ, List, Option, length};
ghost use Rattle.model.specs.LiveCount.{LiveWords};
ghost use Rattle.model.specs.SpaceBound.{space_bound};
ghost use Rattle.model.specs.Destination.{dest_count};
ghost use Rattle.workers_in_threads.specs.Refusing.{Refusing};
ghost use Rattle.layout.specs.declared.place.Place.{Place};
ghost use Rattle.workers.specs.Kept.{Kept};
ghost use Rattle.block_pool.specs.BlockValue.{BlockValue};
ghost use Rattle.steps.specs.ReportValue.{WorkerLists, all_won};
ghost use Rattle.steps.specs.SettledValue.{IsSettled};
ghost use Rattle.workers_in_threads.specs.Reported.{Reported};
ghost use Rattle.workers_in_threads.specs.Reports.{IsStuckApart};
ghost use Rattle.workers_in_threads.specs.Threads.{ThreadValue, Gathered, KeptBy};

/// What is made of it may be committed.
pub fn threads_settle<P, A>()
    ensures { (known : P → ℕ → Option Place) (won : P →
        List (ℕ × Place)) (all : Gathered P A known won) (reports : List WorkerLists) (blocks : List BlockValue)
        (places : List (Option Place)) → Reported all reports blocks places →
        IsSettled all.heap all.collection places blocks (all_won reports) }
{}

/// What they brought is what a collection keeps.
pub fn threads_keep<P, A>()
    ensures { (known : P → ℕ → Option Place) (won : P → List (ℕ × Place)) (all : Gathered P A known won) → KeptBy all }
{}

/// Where one is refused a block, it can look, and all that were free were drawn.
pub fn threads_are_stuck<P, A>()
    ensures { (known : P → ℕ → Option Place) (won : P → List (ℕ × Place)) (all : Refusing P A known won) →
        IsStuckApart all.heap all.collection.generation all.workers }
{}

/// Where one is refused a block, fewer were free than the space bound.
pub fn threads_below_bound<P, A>()
    ensures { (known : P → ℕ → Option Place) (won : P → List (ℕ × Place)) (all : Refusing P A known won) (words : ℕ) →
        LiveWords all.heap.graph all.collection.generation all.heap.config.block_words words →
        length all.heap.free < space_bound words all.heap.config.block_words all.workers
        (dest_count all.heap.config.shape all.collection.generation) }
{}
