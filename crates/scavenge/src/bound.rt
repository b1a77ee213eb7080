//! How many blocks a collection may want.
ghost use Rattle.std.specs.Prelude.{◌≡◌, ◌≤◌};
ghost use Rattle.model.specs.SpaceBound as model;

/// With at least so many free blocks no collection by `workers` workers is refused for want of one, where the small live
/// objects take `words` words in blocks of `block_words` words and go to `destinations` destinations.
pub fn space_bound(words: u64, block_words: u32, workers: u32, destinations: u32) -> u64
    requires least_words { 16 ≤ block_words }
    requires most_words { block_words ≤ 512 }
    requires most_workers { workers ≤ 64 }
    requires most_destinations { destinations ≤ 28 }
    ensures { result ≡ model.space_bound words block_words workers destinations }
{
    let least_filled = block_words - block_words / 4 + 1;
    words / least_filled as u64 + workers as u64 * destinations as u64
}
