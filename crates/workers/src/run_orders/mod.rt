//! In which order the workers of a run scan and take: the contract of each function is a theorem, and its body is empty.
ghost use Rattle.std.specs.Prelude.{◌≤◌, ℕ, List};
ghost use Rattle.model.specs.Graph.{Graph};
ghost use Rattle.model.specs.Destination.{Shape};
ghost use Rattle.workers.specs.Setting.{Setting, setting_of};
ghost use Rattle.workers.specs.System.{System};
ghost use Rattle.workers.specs.Lawful.{AllEnded};
ghost use Rattle.workers.specs.Finish.{IsReached};
ghost use Rattle.workers.specs.Alone.{AreEmpty};
ghost use Rattle.workers.specs.Scans.{ScansInBlocks};
ghost use Rattle.workers.specs.Taken.{AreTakenInOrder};

/// In each state of a run the exports of each worker were taken in their order, each once, and the others are queued.
pub fn exports_are_taken_in_order()
    ensures { (setting : Setting) (d n : ℕ) (slots free : List ℕ) (s : System) → IsReached setting d n slots free s →
        AreTakenInOrder s }
{}

/// Where all ended, one worker alone won places in a block, and it scanned them in that order, one other perhaps the last.
pub fn run_scans_in_order()
    ensures { (graph : Graph) (g : ℕ) (shape : Shape) (block_words d n : ℕ) (slots free : List ℕ) (s : System) →
        IsReached (setting_of graph g shape block_words n) d n slots free s → AllEnded s → block_words ≤ 65536 →
        AreEmpty graph free → ScansInBlocks s.workers free }
{}
