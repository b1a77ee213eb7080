//! The census as text.
ghost use Rattle.std.specs.Prelude.{◌≡◌, ◌++◌, map, flat_map, IfOk, OnOk, string_bytes};
ghost use Rattle.model.specs.Destination.{numbers_from, all_steps};
ghost use Rattle.model.specs.Census.{step_count};
ghost use Rattle.model.specs.Store.{present, store_census};
ghost use Rattle.model.specs.Text.{step_line, census_text};
ghost use Rattle.reference.specs.Plain.{totals_text};

use crate::reference_data::Config;
use crate::store::Store;
use std::alloc::{AllocError, Allocator};
use std::fmt::Write;

fn push_steps<A: Allocator>(
    found: &mut Vec<(u64, u64), A>,
    generation: u64,
    steps: u64,
) -> Result<(), AllocError>
    ensures { OnOk result (found.new.items ≡ found.old.items ++ map (λ s. (generation, s)) (numbers_from 0 steps)) }
{
    for step in 0..steps {
        found.push((generation, step))?;
    }
    Ok(())
}

fn all_steps<A: Allocator>(
    alloc: A,
    generations: u64,
    steps: u64,
) -> Result<Vec<(u64, u64), A>, AllocError>
    ensures { IfOk result (λ v. v.items ≡ all_steps (record { generations = generations; steps = steps })) }
{
    let mut found = Vec::new(alloc);
    let oldest = generations.saturating_sub(1);
    for generation in 0..oldest {
        push_steps(&mut found, generation, steps)?;
    }
    found.push((oldest, 0))?;
    Ok(found)
}

fn push_totals<A: Allocator>(
    text: &mut String<A>,
    objects: usize,
    words: u128,
    roots: usize,
    remembered: usize,
) -> Result<(), AllocError>
    ensures { OnOk result (string_bytes text.new ≡ totals_text (string_bytes text.old) objects words roots remembered) }
{
    writeln!(text, "large: {objects} objects {words} words")?;
    writeln!(text, "roots: {roots}")?;
    writeln!(text, "remembered: {remembered}")
}

impl<A: Allocator + Clone> Store<A> {
    fn push_step(
        &self,
        config: &Config,
        text: &mut String<A>,
        generation: u64,
        step: u64,
    ) -> Result<(), AllocError>
        ensures { OnOk result
            (string_bytes text.new ≡
            string_bytes text.old ++ step_line
            (step_count config.now.block_words (present self.now) (generation, step))) }
    {
        let objects = self.count_in(config, Some((generation, step)));
        let words = self.words_in(config, Some((generation, step)));
        writeln!(
            text,
            "gen {generation} step {step}: {objects} objects {words} words"
        )
    }

    fn step_lines(&self, alloc: A, config: &Config) -> Result<String<A>, AllocError>
        ensures { IfOk result
            (λ text. string_bytes text ≡ flat_map step_line (store_census config.now self.now).steps) }
    {
        let mut text = String::new(alloc.clone()?);
        for (generation, step) in all_steps(alloc, config.generations, config.steps)?.as_slice() {
            self.push_step(config, &mut text, *generation, *step)?;
        }
        Ok(text)
    }

    /// The census, line by line.
    /// An error says that memory ran out.
    pub fn census(&self, alloc: A, config: &Config) -> Result<String<A>, AllocError>
        ensures { IfOk result (λ text. string_bytes text ≡ census_text (store_census config.now self.now)) }
    {
        let mut text = self.step_lines(alloc, config)?;
        let objects = self.count_in(config, None);
        let words = self.words_in(config, None);
        let roots = self.names.len();
        let remembered = self.remembered_count();
        push_totals(&mut text, objects, words, roots, remembered)?;
        Ok(text)
    }
}
