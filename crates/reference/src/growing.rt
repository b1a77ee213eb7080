//! The commands that take memory.
ghost use Rattle.std.specs.Prelude.{◌≡◌, ◌+◌, ◌<◌, ◌≤◌, length, None, IfOk, IfErr, OnOk, OnErr, OnSome, string_bytes};
ghost use Rattle.model.specs.Commands as meant;
ghost use Rattle.model.specs.Commands.{carried, named, with_new, with_room, room_in, placed, placed_at_size, is_large_size};
ghost use Rattle.reference.specs.Plain.{IsDone, IfFault};

use crate::reference_data::{Config, Named, Object, Room, add_name};
use crate::refusal::Refusal;
use crate::store::Store;
use model::Kind;
use std::alloc::{AllocError, Allocator};

impl<A: Allocator + Clone> Store<A> {
    /// The new name leads to the object that pointer `field` of the name's object leads to.
    /// After a refusal the store is as before.
    pub fn get(
        &mut self,
        alloc: A,
        _config: &Config,
        new_text: &[u8],
        text: &[u8],
        field: u64,
    ) -> Result<(), Refusal>
        ensures { IsDone (carried _config.now self.old (meant.Get new_text.now text.now field)) self.old self.new
            result }
    {
        if self.named(new_text).is_some() {
            return Err(Refusal::Fault(Kind::NameInUse));
        }
        let name = self.named(text).ok_or(Refusal::Fault(Kind::UnknownName))?;
        let object = self
            .object_at(name)
            .ok_or(Refusal::Fault(Kind::UnknownName))?;
        let pointers = object.pointers();
        if field >= pointers.len() as u64 {
            return Err(Refusal::Fault(Kind::NoField));
        }
        let target = pointers[field as usize].ok_or(Refusal::Fault(Kind::NilPointer))?;
        let named = Named::new(alloc, new_text, target).map_err(|_| Refusal::NoMemory)?;
        add_name(&mut self.names, named).map_err(|_| Refusal::NoMemory)?;
        Ok(())
    }

    fn add_object(&mut self, alloc: A, text: &[u8], p: u64, q: u64) -> Result<(), AllocError>
        requires unused { named self.old text.now ≡ None }
        requires pointers { p ≤ 100000 }
        requires plain { q ≤ 100000 }
        ensures ok { OnOk result (self.new ≡ with_new text.now p q self.old) }
        ensures err { OnErr result (self.new ≡ self.old) }
    {
        let object = Object::fresh(alloc.clone()?, p, q)?;
        let named = Named::new(alloc, text, self.objects.len())?;
        self.objects.push(Some(object))?;
        let added = add_name(&mut self.names, named);
        if added.is_err() {
            self.objects.pop();
        }
        added
    }

    fn room_in(&self, config: &Config, mutator: u64, size: u64) -> Option<Room>
        ensures room { result ≡ room_in config.now mutator size self.now }
        ensures within { OnSome result (mutator < length self.now.rooms) }
    {
        if mutator < self.rooms.len() as u64 {
            self.rooms[mutator as usize].after(config.block_words, size)
        } else {
            None
        }
    }

    fn add_in(
        &mut self,
        alloc: A,
        mutator: u64,
        room: Room,
        text: &[u8],
        p: u64,
        q: u64,
    ) -> Result<(), AllocError>
        requires unused { named self.old text.now ≡ None }
        requires within { mutator < length self.old.rooms }
        requires pointers { p ≤ 100000 }
        requires plain { q ≤ 100000 }
        ensures ok { OnOk result (self.new ≡ with_new text.now p q (with_room mutator room self.old)) }
        ensures err { OnErr result (self.new ≡ self.old) }
    {
        self.add_object(alloc, text, p, q)?;
        self.rooms[mutator as usize] = room;
        Ok(())
    }

    fn add_after_collection(
        &mut self,
        alloc: A,
        config: &Config,
        text: &[u8],
        mutator: u64,
        p: u64,
        q: u64,
    ) -> Result<String<A>, AllocError>
        requires unused { named self.old text.now ≡ None }
        requires pointers { p ≤ 100000 }
        requires plain { q ≤ 100000 }
        ensures { IfOk result
            (λ line. Ok (self.new, string_bytes line) ≡ placed config.now text.now mutator p q self.old None) }
    {
        let line = self.collect(alloc.clone()?, config, "auto", 0)?;
        if let Some(room) = self.room_in(config, mutator, 1 + p + q) {
            self.add_in(alloc, mutator, room, text, p, q)?;
        }
        Ok(line)
    }

    fn add_small(
        &mut self,
        alloc: A,
        config: &Config,
        text: &[u8],
        mutator: u64,
        p: u64,
        q: u64,
    ) -> Result<String<A>, AllocError>
        requires unused { named self.old text.now ≡ None }
        requires pointers { p ≤ 100000 }
        requires plain { q ≤ 100000 }
        ensures { IfOk result
            (λ line. Ok (self.new, string_bytes line) ≡
            placed config.now text.now mutator p q self.old (room_in config.now mutator (1 + p + q) self.old)) }
    {
        match self.room_in(config, mutator, 1 + p + q) {
            Some(room) => {
                self.add_in(alloc.clone()?, mutator, room, text, p, q)?;
                Ok(String::new(alloc))
            }
            None => self.add_after_collection(alloc, config, text, mutator, p, q),
        }
    }

    fn add_sized(
        &mut self,
        alloc: A,
        config: &Config,
        text: &[u8],
        mutator: u64,
        p: u64,
        q: u64,
    ) -> Result<String<A>, AllocError>
        requires unused { named self.old text.now ≡ None }
        requires pointers { p ≤ 100000 }
        requires plain { q ≤ 100000 }
        ensures { IfOk result
            (λ line. Ok (self.new, string_bytes line) ≡
            placed_at_size config.now text.now mutator p q self.old (is_large_size config.now (1 + p + q))) }
    {
        if config.block_words / 4 < 1 + p + q {
            self.add_object(alloc.clone()?, text, p, q)?;
            Ok(String::new(alloc))
        } else {
            self.add_small(alloc, config, text, mutator, p, q)
        }
    }

    /// A new object of a mutator with so many pointers and plain words, and what is written: the line of the
    /// collection that a full nursery made. After a fault the store is as before; where memory ran out it may be as
    /// that collection left it.
    pub fn add(
        &mut self,
        alloc: A,
        config: &Config,
        text: &[u8],
        mutator: u64,
        pointers: u64,
        plain_words: u64,
    ) -> Result<String<A>, Refusal>
        ensures ok { IfOk result
            (λ line. carried config.now self.old (meant.New text.now mutator pointers plain_words) ≡
            Ok (self.new, string_bytes line)) }
        ensures fault { IfErr result
            (λ e. IfFault e (λ kind. (carried config.now self.old (meant.New text.now mutator pointers plain_words) ≡
            Err kind) × (self.new ≡ self.old))) }
    {
        if self.named(text).is_some() {
            return Err(Refusal::Fault(Kind::NameInUse));
        }
        if mutator >= config.mutators {
            return Err(Refusal::Fault(Kind::NoMutator));
        }
        if pointers > 100_000 || plain_words > 100_000 {
            return Err(Refusal::Fault(Kind::TooBig));
        }
        self.add_sized(alloc, config, text, mutator, pointers, plain_words)
            .map_err(|_| Refusal::NoMemory)
    }

    /// Collects the generations 0 to `generation`, and returns the line that is written. After a refusal the store is as before.
    pub fn collect_to(
        &mut self,
        alloc: A,
        config: &Config,
        generation: u64,
    ) -> Result<String<A>, Refusal>
        ensures ok { IfOk result (λ line. carried config.now self.old (meant.Collect generation) ≡
            Ok (self.new, string_bytes line)) }
        ensures fault { IfErr result
            (λ e. IfFault e (λ kind. carried config.now self.old (meant.Collect generation) ≡ Err kind)) }
        ensures err { OnErr result (self.new ≡ self.old) }
    {
        if generation >= config.generations {
            return Err(Refusal::Fault(Kind::NoGeneration));
        }
        self.collect(alloc, config, "collected", generation)
            .map_err(|_| Refusal::NoMemory)
    }
}
