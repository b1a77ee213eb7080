//! Rewriting: `I x` is `x`, `K x y` is `x`, and `S f g x` is `f x (g x)`, leftmost first.
ghost use Rattle.std.specs.Prelude.{◌≡◌, ◌⊎◌, IfErr};

use crate::nodes::{Nodes, Trouble};
use heap::RootId;
use std::alloc::Global;

/// A term as a head and the applications above it, the outermost first. Their roots are the spine's.
#[derive(Drop)]
pub(crate) struct Spine {
    pub(crate) applications: Vec<RootId>,
    pub(crate) head: RootId,
}

/// After so many steps a rewriting is given up.
const MOST_STEPS: u32 = 1_000_000;

impl Spine {
    /// Goes down to the function of the head, which is an application.
    fn descend(&mut self, nodes: &mut Nodes) -> Result<(), Trouble>
        ensures { IfErr result (λ e. (e ≡ Trouble.BadNode) ⊎ (e ≡ Trouble.NoMemory)) }
    {
        let function = nodes.function(self.head)?;
        self.applications
            .push(self.head)
            .map_err(|_| Trouble::NoMemory)?;
        self.head = function;
        Ok(())
    }

    /// The innermost application, taken off.
    fn pop(&mut self) -> Result<RootId, Trouble> {
        self.applications.pop().ok_or(Trouble::BadNode)
    }

    /// The argument of the innermost application, which is taken off.
    fn pop_argument(&mut self, nodes: &mut Nodes) -> Result<RootId, Trouble> {
        let application = self.pop()?;
        let argument = nodes.argument(application)?;
        nodes.release(application)?;
        Ok(argument)
    }

    /// Another head, to which the innermost application leads then.
    fn replace_head(&mut self, nodes: &mut Nodes, head: RootId) -> Result<(), Trouble> {
        nodes.release(self.head)?;
        self.head = head;
        match self.applications.last() {
            Some(application) => nodes.set_function(*application, head),
            None => Ok(()),
        }
    }

    /// `I x` is `x`.
    fn identity(&mut self, nodes: &mut Nodes) -> Result<(), Trouble> {
        let argument = self.pop_argument(nodes)?;
        self.replace_head(nodes, argument)
    }

    /// `K x y` is `x`.
    fn constant(&mut self, nodes: &mut Nodes) -> Result<(), Trouble> {
        let kept = self.pop_argument(nodes)?;
        let gone = self.pop_argument(nodes)?;
        nodes.release(gone)?;
        self.replace_head(nodes, kept)
    }

    /// `S f g x` is `f x (g x)`. The application to `x` is changed in place, so that all who share it have the result.
    fn distribute(&mut self, alloc: Global, nodes: &mut Nodes) -> Result<(), Trouble> {
        let (first, second) = (self.pop_argument(nodes)?, self.pop_argument(nodes)?);
        let whole = *self.applications.last().ok_or(Trouble::BadNode)?;
        let (one, other) = (nodes.argument(whole)?, nodes.argument(whole)?);
        let function = nodes.application(alloc, first, one)?;
        let argument = nodes.application(alloc, second, other)?;
        nodes.set_argument(whole, argument)?;
        nodes.release(argument)?;
        self.replace_head(nodes, function)
    }

    /// One step, if there is one: down to a function, or a rule.
    fn step(&mut self, alloc: Global, nodes: &mut Nodes) -> Result<bool, Trouble> {
        match (nodes.letter(self.head), self.applications.len()) {
            (None, _) => self.descend(nodes)?,
            (Some(b'I'), 1..) => self.identity(nodes)?,
            (Some(b'K'), 2..) => self.constant(nodes)?,
            (Some(b'S'), 3..) => self.distribute(alloc, nodes)?,
            _ => return Ok(false),
        }
        Ok(true)
    }
}

/// Rewrites a term until its head is a symbol that no rule fits. The term's root is given back.
pub(crate) fn rewrite(alloc: Global, nodes: &mut Nodes, term: RootId) -> Result<Spine, Trouble> {
    let mut spine = Spine {
        applications: Vec::new(alloc),
        head: term,
    };
    for _step in 0..MOST_STEPS {
        if !spine.step(alloc, nodes)? {
            return Ok(spine);
        }
    }
    Err(Trouble::NoEnd)
}
