//! What a run of the system concludes, where it ended and where it was refused a block, and in which order one worker scans.
ghost use Rattle.std.specs.Prelude.{◌≡◌, ◌<◌, ◌≤◌, ℕ, Bool, List, Some, length, slice_get};
ghost use Rattle.model.specs.Graph.{Graph};
ghost use Rattle.model.specs.Destination.{Shape};
ghost use Rattle.model.specs.LiveCount.{LiveWords};
ghost use Rattle.model.specs.SpaceBound.{space_bound};
ghost use Rattle.workers.specs.Setting.{Setting, setting_of};
ghost use Rattle.workers.specs.Worker.{Worker};
ghost use Rattle.workers.specs.System.{System, Event, opening};
ghost use Rattle.workers.specs.Joined.{Each};
ghost use Rattle.model.specs.Collected.{IsLiveOrOlder};
ghost use Rattle.workers.specs.Lawful.{IsRefused, AllEnded, next_alone};
ghost use Rattle.workers.specs.Finish.{IsReached, Stepped};
ghost use Rattle.workers.specs.Alone.{HasStarts, AreEmpty, RunBrings, TellsSmall, ScannedInOrder};

/// A run that ended brings what a collection keeps, in blocks that were free.
pub fn ended_run_brings()
    ensures { (graph : Graph) (g : ℕ) (shape : Shape) (block_words d n : ℕ) (slots free : List ℕ) (s : System) →
        IsReached (setting_of graph g shape block_words n) d n slots free s → AllEnded s → block_words ≤ 65536 →
        HasStarts graph g slots → Each (IsLiveOrOlder graph g) slots → AreEmpty graph free →
        RunBrings graph g shape block_words d n slots free s }
{}

/// Where a run is refused a block, fewer were free than the space bound.
pub fn refused_run_below_bound()
    ensures { (graph : Graph) (g : ℕ) (shape : Shape) (block_words d n : ℕ) (slots free : List ℕ) (s : System) →
        IsReached (setting_of graph g shape block_words n) d n slots free s → Each (IsLiveOrOlder graph g) slots →
        (event : Event) → IsRefused (setting_of graph g shape block_words n) s event → (words : ℕ) →
        LiveWords graph g block_words words → length free < space_bound words block_words n d }
{}

/// One worker by itself, with one destination, scans small objects in the order in which it copied them, and large ones in the order in which it claimed them.
pub fn alone_in_order()
    ensures { (setting : Setting) (d : ℕ) (slots free : List ℕ) (small : ℕ → Bool) (count : ℕ) (s : System) →
        IsReached setting d 1 slots free s → Stepped setting (next_alone setting) (opening d 1 slots free) count s →
        AllEnded s → d ≤ 1 → setting.block_words ≤ 65536 → TellsSmall setting free small → (w : Worker) →
        slice_get s.workers 0 ≡ Some w → ScannedInOrder small w }
{}
