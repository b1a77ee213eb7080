//! The commands that write nothing and take no memory.
ghost use Rattle.std.specs.Prelude.{◌≡◌, ◌<◌, length, slice_set, Some, IfSome};
ghost use Rattle.std.specs.Option.{ForSome};
ghost use Rattle.model.specs.Graph.{with_pointer};
ghost use Rattle.model.specs.Store.{object_at};
ghost use Rattle.model.specs.Commands as meant;
ghost use Rattle.model.specs.Commands.{carried, named, with_object, target_of};
ghost use Rattle.reference.specs.Plain.{IsSilent};

use crate::reference_data::{Config, Object, drop_name, find_name};
use crate::store::Store;
use model::Kind;
use std::alloc::Allocator;

fn set_pointer_in<A: Allocator>(slot: &mut Option<Object<A>>, field: usize, target: Option<usize>)
    requires { ForSome slot.old (λ o. field < length o.pointers) }
    ensures { IfSome slot.old (λ o. slot.new ≡ Some (with_pointer o field target)) }
{
    if let Some(object) = slot {
        object.set_pointer(field, target);
    }
}

fn set_plain_in<A: Allocator>(slot: &mut Option<Object<A>>, field: usize, value: u64)
    requires { ForSome slot.old (λ o. field < length o.plain) }
    ensures { IfSome slot.old (λ o. slot.new ≡ Some (record o { plain = slice_set o.plain field value })) }
{
    if let Some(object) = slot {
        object.set_plain(field, value);
    }
}

impl<A: Allocator + Clone> Store<A> {
    pub(crate) fn named(&self, text: &[u8]) -> Option<usize>
        ensures { result ≡ named self.now text.now }
    {
        find_name(self.names.as_slice(), text)
    }

    /// The name leads to nothing any more.
    /// A fault says what is wrong, and the store is as before.
    pub fn forget(&mut self, _config: &Config, text: &[u8]) -> Result<(), Kind>
        ensures { IsSilent (carried _config.now self.old (meant.Drop text.now)) self.old self.new result }
    {
        if self.named(text).is_none() {
            return Err(Kind::UnknownName);
        }
        drop_name(&mut self.names, text);
        Ok(())
    }

    /// Pointer `field` of the name's object becomes the target's object, or nil.
    /// A fault says what is wrong, and the store is as before.
    pub fn set(
        &mut self,
        _config: &Config,
        text: &[u8],
        field: u64,
        target: Option<&[u8]>,
    ) -> Result<(), Kind>
        ensures { IsSilent (carried _config.now self.old
            (meant.Set text.now field (target_of (λ x. x.now) target.entry))) self.old self.new result }
    {
        let name = self.named(text).ok_or(Kind::UnknownName)?;
        let object = self.object_at(name).ok_or(Kind::UnknownName)?;
        if field >= object.pointers().len() as u64 {
            return Err(Kind::NoField);
        }
        let value = match target {
            Some(other) => Some(self.named(other).ok_or(Kind::UnknownName)?),
            None => None,
        };
        set_pointer_in(&mut self.objects[name], field as usize, value);
        Ok(())
    }

    /// Plain word `field` of the name's object becomes the value.
    /// A fault says what is wrong, and the store is as before.
    pub fn put(&mut self, _config: &Config, text: &[u8], field: u64, value: u64) -> Result<(), Kind>
        ensures { IsSilent (carried _config.now self.old (meant.Put text.now field value)) self.old self.new result }
    {
        let name = self.named(text).ok_or(Kind::UnknownName)?;
        let object = self.object_at(name).ok_or(Kind::UnknownName)?;
        if field >= object.plain().len() as u64 {
            return Err(Kind::NoField);
        }
        set_plain_in(&mut self.objects[name], field as usize, value);
        Ok(())
    }
}
