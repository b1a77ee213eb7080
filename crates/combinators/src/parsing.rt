//! Terms from text: `SKKx` is `((S K) K) x`, and brackets group.
ghost use Rattle.std.specs.Prelude.{◌≡◌, IfErr};

use crate::nodes::{Nodes, Trouble};
use heap::RootId;
use std::alloc::Global;

/// The terms of the brackets that are open, each as far as it is read.
#[derive(Drop)]
struct Open {
    terms: Vec<Option<RootId>>,
}

impl Open {
    /// Applies the innermost term to this one, or begins it.
    fn add(&mut self, alloc: Global, nodes: &mut Nodes, term: RootId) -> Result<(), Trouble> {
        let innermost = self.terms.pop().ok_or(Trouble::NoTerm)?;
        let whole = match innermost {
            Some(function) => nodes.application(alloc, function, term)?,
            None => term,
        };
        self.terms.push(Some(whole)).map_err(|_| Trouble::NoMemory)
    }

    fn open(&mut self) -> Result<(), Trouble>
        ensures { IfErr result (λ e. e ≡ Trouble.NoMemory) }
    {
        self.terms.push(None).map_err(|_| Trouble::NoMemory)
    }

    fn close(&mut self) -> Result<RootId, Trouble>
        ensures { IfErr result (λ e. e ≡ Trouble.NoTerm) }
    {
        self.terms.pop().flatten().ok_or(Trouble::NoTerm)
    }
}

/// The term of a text, by its root.
pub(crate) fn parse(alloc: Global, nodes: &mut Nodes, text: &[u8]) -> Result<RootId, Trouble> {
    let mut open = Open {
        terms: Vec::new(alloc),
    };
    open.open()?;
    for byte in text {
        match *byte {
            b' ' | b'\n' => {}
            b'(' => open.open()?,
            b')' => {
                let term = open.close()?;
                open.add(alloc, nodes, term)?;
            }
            letter => {
                let term = nodes.symbol(alloc, letter)?;
                open.add(alloc, nodes, term)?;
            }
        }
    }
    let term = open.close()?;
    if !open.terms.is_empty() {
        return Err(Trouble::NoTerm);
    }
    Ok(term)
}
