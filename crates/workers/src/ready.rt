//! What a worker's calls may rely on, as its run so far tells. Each body is empty.
ghost use Rattle.std.specs.Prelude.{ℕ};
ghost use Rattle.model.specs.Graph.{Graph};
ghost use Rattle.model.specs.Destination.{Shape};
ghost use Rattle.workers.specs.Setting.{setting_of};
ghost use Rattle.workers.specs.Worker.{Worker};
ghost use Rattle.workers.specs.WorkerRun.{WorkerRun, History};
ghost use Rattle.workers.specs.Joined.{Each, IsOpening, Roomy};
ghost use Rattle.model.specs.Collected.{IsLiveOrOlder};
ghost use Rattle.workers.specs.Ready.{IsHanded, IsReady};

/// A worker that took only blocks as workers hand them on is ready for its next call.
pub fn run_is_ready()
    ensures { (graph : Graph) (g : ℕ) (shape : Shape) (block_words workers : ℕ) (start w : Worker) (h : History) →
        IsOpening start → Roomy (setting_of graph g shape block_words workers) start →
        Each (IsHanded graph g shape block_words workers) h.taken →
        WorkerRun (setting_of graph g shape block_words workers) start w h →
        IsReady (setting_of graph g shape block_words workers) w }
{}

/// What it has aside, of which it hands on the first next, and what it handed on, is as workers hand it on.
pub fn exports_are_handed()
    ensures { (graph : Graph) (g : ℕ) (shape : Shape) (block_words workers : ℕ) (start w : Worker) (h : History) →
        IsOpening start → Roomy (setting_of graph g shape block_words workers) start →
        Each (IsLiveOrOlder graph g) start.starts → Each (IsHanded graph g shape block_words workers) h.taken →
        WorkerRun (setting_of graph g shape block_words workers) start w h →
        Each (IsHanded graph g shape block_words workers) w.aside ×
        Each (IsHanded graph g shape block_words workers) h.exported }
{}
