//! What the workers bring may be committed: the contract of the function is a theorem, and its body is empty.
ghost use Rattle.std.specs.Prelude.{ℕ, List, Option};
ghost use Rattle.layout.specs.declared.place.Place.{Place};
ghost use Rattle.block_pool.specs.BlockValue.{BlockValue};
ghost use Rattle.steps.specs.HeapValue.{HeapValue};
ghost use Rattle.steps.specs.CollectionValue.{CollectionValue};
ghost use Rattle.steps.specs.SettledValue.{IsSettled};
ghost use Rattle.workers.specs.Joined.{Part};
ghost use Rattle.settling.specs.Brings.{Brings};

/// What the workers bring may be committed.
pub fn parts_settle()
    ensures { (heap : HeapValue) (c : CollectionValue) (workers : ℕ) (f : ℕ →
        Option ℕ) (parts : List Part) (places : List (Option Place)) (blocks : List BlockValue) (won : List (ℕ × ℕ))
        → Brings heap c workers f parts places blocks won → IsSettled heap c places blocks won }
{}
