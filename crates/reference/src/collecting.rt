//! A collection of a store.
ghost use Rattle.std.specs.Prelude.{◌≡◌, IfOk, OnOk, OnErr, count_by, string_bytes};
ghost use Rattle.model.specs.Store.{kept_or_gone, survivors, collected, full_rooms, empty_store, present};
ghost use Rattle.model.specs.Commands.{line_of};
ghost use Rattle.model.specs.Text.{collection_line};
ghost use Rattle.reference.specs.Plain.{is_young_slot};

use crate::reference_data::{Config, Object, full_rooms, has};
use crate::store::Store;
use std::alloc::{AllocError, Allocator};
use std::fmt::Write;

fn collection_line<A: Allocator>(
    alloc: A,
    word: &str,
    g: u64,
    kept: usize,
    freed: usize,
) -> Result<String<A>, AllocError>
    ensures { IfOk result (λ text. string_bytes text ≡ collection_line word.now g kept freed) }
{
    let mut text = String::from_str(alloc, word)?;
    writeln!(text, " {g}: {kept} kept, {freed} freed")?;
    Ok(text)
}

fn kept_or_gone<A: Allocator>(
    config: &Config,
    g: u64,
    is_live: bool,
    slot: Option<Object<A>>,
) -> Option<Object<A>>
    ensures { result ≡ kept_or_gone config.now.shape g is_live slot }
{
    match slot {
        Some(object) => {
            if object.generation() > g {
                Some(object)
            } else if is_live {
                Some(object.moved(config))
            } else {
                None
            }
        }
        None => None,
    }
}

fn sweep<A: Allocator>(config: &Config, g: u64, live: &[usize], objects: &mut [Option<Object<A>>])
    ensures { objects.new ≡ survivors config.now.shape g live.now 0 objects.old }
{
    for (name, slot) in objects.iter_mut().enumerate() {
        *slot = kept_or_gone(config, g, has(live, name), slot.take());
    }
}

fn is_young<A: Allocator>(slot: &Option<Object<A>>, g: u64) -> bool
    ensures { result ≡ is_young_slot g slot.now }
{
    match slot {
        Some(object) => object.generation() <= g,
        None => false,
    }
}

impl<A: Allocator + Clone> Store<A> {
    /// No object and no name, and empty nurseries.
    /// An error says that memory ran out.
    pub fn empty(alloc: A, config: &Config) -> Result<Self, AllocError>
        ensures { IfOk result (λ store. store ≡ empty_store config.now) }
    {
        let rooms = full_rooms(alloc.clone()?, config.mutators, config.nursery_blocks)?;
        Ok(Store {
            objects: Vec::new(alloc.clone()?),
            names: Vec::new(alloc),
            rooms,
        })
    }

    fn young_count(&self, g: u64) -> usize
        ensures { result ≡ count_by (is_young_slot g) self.now.objects }
    {
        self.objects.iter().filter(|slot| is_young(slot, g)).count()
    }

    /// Collects the generations 0 to `g`, and returns the line that says so.
    /// An error says that memory ran out, and the store is as before.
    pub(crate) fn collect(
        &mut self,
        alloc: A,
        config: &Config,
        word: &str,
        g: u64,
    ) -> Result<String<A>, AllocError>
        ensures line { IfOk result (λ text. string_bytes text ≡ line_of word.now g self.old) }
        ensures collected { OnOk result (self.new ≡ collected config.now g self.old) }
        ensures err { OnErr result (self.new ≡ self.old) }
    {
        let live = self.live(alloc.clone()?, g)?;
        let rooms = full_rooms(alloc.clone()?, config.mutators, config.nursery_blocks)?;
        let freed = self.young_count(g).saturating_sub(live.len());
        let line = collection_line(alloc, word, g, live.len(), freed)?;
        sweep(config, g, live.as_slice(), self.objects.as_mut_slice());
        self.rooms = rooms;
        Ok(line)
    }
}
