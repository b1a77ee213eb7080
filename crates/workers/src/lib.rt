//! What several workers of a collection do together: the contract of each function is a theorem, and its body is empty.
#![tactic(auto)]

mod alone;
mod ready;
mod run_orders;

ghost use Rattle.std.specs.Prelude.{◌≡◌, ◌<◌, ◌≤◌, ◌⊎◌, ◌+◌, ◌*◌, ℕ, true, List, length, Option, Some, None, slice_get};
ghost use Rattle.model.specs.Graph.{Graph};
ghost use Rattle.model.specs.Destination.{Shape};
ghost use Rattle.workers.specs.Setting.{Setting, setting_of};
ghost use Rattle.workers.specs.System.{System, Event};
ghost use Rattle.workers.specs.Steps.{Step};
ghost use Rattle.workers.specs.Joined.{Part, Joined};
ghost use Rattle.workers.specs.Kept.{Brought, Kept, AreFresh};
ghost use Rattle.workers.specs.Lawful.{IsChosen, order_of_worker, order_of_one, IsLawful, IsRefused, IsNext, AllEnded, IsEnd, next_lawful, next_alone};
ghost use Rattle.workers.specs.Measure.{measure, measure_bound, Covers, IsWake, wakes, young_names_of};
ghost use Rattle.workers.specs.Finish.{Stepped, Finishes, IsReached, NothingLeft};
ghost use Rattle.model.specs.LiveCount.{LiveWords};
ghost use Rattle.model.specs.SpaceBound.{space_bound};
ghost use Rattle.workers.specs.Refused.{Refused};
ghost use Rattle.workers.specs.Ordered.{TurnRun, Ordered, AreHandedOn, GoOn, ScanOwn};

pub use alone::{alone_in_order, ended_run_brings, refused_run_below_bound};
pub use ready::{exports_are_handed, run_is_ready};
pub use run_orders::{exports_are_taken_in_order, run_scans_in_order};

/// Whatever workers brought together, it is what a collection keeps.
pub fn parts_suffice()
    ensures { (graph : Graph) (g : ℕ) (shape : Shape) (block_words workers : ℕ) (f : ℕ → Option ℕ) (parts : List Part) →
        Brought graph g shape block_words workers f parts → Kept graph g shape block_words workers f parts }
{}

/// In each state of a run the next event is lawful, and there is none only where every worker ended.
pub fn next_is_lawful()
    ensures { (setting : Setting) (d n : ℕ) (slots free : List ℕ) (s : System) → IsReached setting d n slots free s →
        IsNext setting s (next_lawful setting s) × IsNext setting s (next_alone setting s) }
{}

/// Where every worker ended nothing comes next.
pub fn ended_has_no_next()
    ensures { (setting : Setting) (d n : ℕ) (slots free : List ℕ) (s : System) → IsReached setting d n slots free s →
        AllEnded s → (next_lawful setting s ≡ None) × (next_alone setting s ≡ None) }
{}

/// It is the first lawful event of the order, of the lowest worker that isn't idle.
pub fn next_is_first()
    ensures { (setting : Setting) (d n : ℕ) (slots free : List ℕ) (s : System) → IsReached setting d n slots free s →
        IsChosen setting order_of_worker s (next_lawful setting s) ×
        IsChosen setting order_of_one s (next_alone setting s) }
{}

/// A lawful event can come, but for a look that wants a block where none is free.
pub fn lawful_comes()
    ensures { (setting : Setting) (d n : ℕ) (slots free : List ℕ) (s : System) → IsReached setting d n slots free s →
        (event : Event) → IsLawful setting s event →
        ((s' : System) × Step setting s event s') ⊎ IsRefused setting s event }
{}

/// Once a worker ended, nothing is left and only ends are lawful.
pub fn ended_is_done()
    ensures { (setting : Setting) (d n : ℕ) (slots free : List ℕ) (s : System) → IsReached setting d n slots free s →
        (t : ℕ) → slice_get s.ended t ≡ Some true →
        NothingLeft s × ((event : Event) → IsLawful setting s event → IsEnd event) }
{}

/// Each event but a wake makes the measure less.
pub fn events_lessen()
    ensures { (setting : Setting) (d n : ℕ) (slots free : List ℕ) (s : System) → IsReached setting d n slots free s →
        (names : List ℕ) → Covers setting names → (s' : System) (event : Event) → Step setting s event s' →
        (IsWake event → ⊥) → measure setting names s' < measure setting names s }
{}

/// In each state of a run, also after wakes, the measure is at most this.
pub fn measure_is_bounded()
    ensures { (setting : Setting) (d n : ℕ) (slots free : List ℕ) (s : System) → IsReached setting d n slots free s →
        (names : List ℕ) → Covers setting names → measure setting names s ≤ measure_bound setting n slots names }
{}

/// A run has no more events than this, and two for each wake.
pub fn runs_are_short()
    ensures { (setting : Setting) (d n : ℕ) (slots free : List ℕ) (s : System) →
        (reached : IsReached setting d n slots free s) → (names : List ℕ) → Covers setting names →
        length reached.events + measure setting names s ≤ measure_bound setting n slots names + 2 * wakes
        reached.events }
{}

/// Stepping by next events comes to its end in no more events than the measure.
pub fn stepping_ends()
    ensures { (setting : Setting) (d n : ℕ) (slots free : List ℕ) (s : System) → IsReached setting d n slots free s →
        (names : List ℕ) → Covers setting names →
        Finishes setting (next_lawful setting) names s × Finishes setting (next_alone setting) names s }
{}

/// The names of a heap's collected objects serve for the measure.
pub fn young_names_cover()
    ensures { (graph : Graph) (g : ℕ) (shape : Shape) (block_words workers : ℕ) →
        Covers (setting_of graph g shape block_words workers) (young_names_of graph g) }
{}

/// Where a worker is refused a block, fewer were free than the space bound.
pub fn refused_below_bound()
    ensures { (graph : Graph) (g : ℕ) (shape : Shape) (block_words workers destinations drawn words : ℕ)
        (parts : List Part) → Refused graph g shape block_words workers destinations drawn parts →
        LiveWords graph g block_words words → drawn < space_bound words block_words (length parts) destinations }
{}

/// In which order the places of each block were scanned, and by whom.
pub fn parts_in_order()
    ensures { (setting : Setting) (f : ℕ → Option ℕ) (parts : List Part) → Joined setting f parts →
        setting.block_words ≤ 65536 → AreFresh setting parts →
        ((t : ℕ) (part : Part) → slice_get parts t ≡ Some part → TurnRun setting t part) →
        Ordered setting parts × (AreHandedOn parts × (GoOn parts × ScanOwn parts)) }
{}
