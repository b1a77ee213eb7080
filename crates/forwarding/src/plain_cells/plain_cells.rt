//! Plain cells, which are exact, for one thread.
ghost use Rattle.std.specs.Prelude.{◌≡◌};
ghost use Rattle.forwarding.specs.Minds.{filled};

use crate::cells::{Cells, Outcome};
use crate::plain_cells::minds::{Filled, Holdings};
use crate::plain_cells::plain_pass::PlainPass;
use crate::plain_cells::remembered::Remembered;
use crate::short_words::{place_in, short_word_of};
use layout::Place;
use std::alloc::{AllocError, Allocator, Global};
use std::marker::Model;

/// Cells of one thread, with passes for several workers. A look gives what was won, and a race is won exactly when
/// nothing was. A cell is four bytes: 0, or the short word of the place that was won. A look reads it and writes nothing; a
/// race reads it, and writes it where it was 0.
#[derive(Drop)]
pub struct PlainCells<A: Allocator = Global> {
    pub(crate) words: Vec<u32, A>,
    pub(crate) passes: usize,
    pub(crate) held: Remembered<Holdings>,
}

impl<A: Allocator> Model for PlainCells<A> {
    ghost use Rattle.std.specs.Prelude.{map};
    ghost use Rattle.forwarding.specs.Plain.{PlainValue, ArePlainCells};
    ghost use Rattle.forwarding.specs.ShortWords.{long_word};

    ghost Value = { PlainValue };

    ghost view = { λ c. record { held = c.held.value; passes = c.passes } };

    ghost invariant = { λ c. ArePlainCells (map long_word c.words.items) c.held.value c.passes };
}

/// The name's cell holds the place, which the pass has won. This is remembered for contracts alone.
#[inline(always)]
fn holding(
    held: &Remembered<Holdings>,
    pass: &PlainPass,
    name: u32,
    place: Place,
) -> Remembered<Holdings>
    ensures { result.value ≡ filled held.now.value pass.now.number name place }
{
    Remembered::of::<(&Remembered<Holdings>, &PlainPass, u32, Place), Filled>(&(
        held, pass, name, place,
    ))
}

impl<A: Allocator> Cells for PlainCells<A> {
    ghost use Rattle.std.specs.Prelude.{◌≡◌, ◌<◌, length};
    ghost use Rattle.forwarding.specs.Plain.{IsAtHome, IsFit, Differ, RacesTo, place_held, known_by};

    type Pass = PlainPass;

    ghost limit = { λ c. length c.held };

    ghost fits = { IsFit };

    ghost at_home = { IsAtHome };

    ghost known = { known_by };

    ghost won = { λ p. p.won };

    ghost apart = { Differ };

    ghost look_gives = { λ c name r. r ≡ place_held c.held name };

    ghost race_gives = { RacesTo };

    ghost may_refuse = { ⊥ };

    fn count(&self) -> u32 {
        self.words.len() as u32
    }

    #[inline(always)]
    fn look(&mut self, pass: &mut PlainPass, name: u32) -> Option<Place> {
        let shown = place_in(self.words[name as usize])?;
        pass.learn(name, shown);
        Some(shown)
    }

    #[inline(always)]
    fn race(
        &mut self,
        pass: &mut PlainPass,
        name: u32,
        place: Place,
    ) -> Result<Outcome, AllocError> {
        let at = name as usize;
        match place_in(self.words[at]) {
            Some(first) => {
                pass.learn(name, first);
                Ok(Outcome::Lost(first))
            }
            None => {
                self.words[at] = short_word_of(place);
                self.held = holding(&self.held, pass, name, place);
                pass.learn(name, place);
                pass.win(name, place);
                Ok(Outcome::Won)
            }
        }
    }
}
