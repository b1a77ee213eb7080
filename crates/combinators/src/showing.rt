//! The text of a term: its head, and then its arguments, each rewritten.
ghost use Rattle.std.specs.Prelude.{◌≡◌, IfErr};

use crate::nodes::{Nodes, Trouble};
use crate::rewriting::rewrite;
use heap::RootId;
use std::alloc::Global;

/// What is still to be written.
#[derive(Clone, Copy)]
enum Task {
    /// A term, in brackets where it is an argument that has arguments itself.
    Show { term: RootId, is_argument: bool },
    Close,
}

/// After so many symbols and brackets no more is written.
const MOST_TASKS: u32 = 1_000_000;

/// A text as far as it is written, and what is to come, the last first.
#[derive(Drop)]
struct Writing {
    text: Vec<u8>,
    tasks: Vec<Task>,
}

impl Writing {
    fn write(&mut self, letter: u8) -> Result<(), Trouble>
        ensures { IfErr result (λ e. e ≡ Trouble.NoMemory) }
    {
        self.text.push(letter).map_err(|_| Trouble::NoMemory)
    }

    fn plan(&mut self, task: Task) -> Result<(), Trouble>
        ensures { IfErr result (λ e. e ≡ Trouble.NoMemory) }
    {
        self.tasks.push(task).map_err(|_| Trouble::NoMemory)
    }

    /// Writes the head of a term, and plans its arguments, the innermost to come first.
    fn show(
        &mut self,
        alloc: Global,
        nodes: &mut Nodes,
        term: RootId,
        is_argument: bool,
    ) -> Result<(), Trouble> {
        let spine = rewrite(alloc, nodes, term)?;
        if is_argument && !spine.applications.is_empty() {
            self.write(b'(')?;
            self.plan(Task::Close)?;
        }
        self.write(nodes.letter(spine.head).ok_or(Trouble::BadNode)?)?;
        nodes.release(spine.head)?;
        for application in spine.applications.iter() {
            let term = nodes.argument(*application)?;
            nodes.release(*application)?;
            self.plan(Task::Show {
                term,
                is_argument: true,
            })?;
        }
        Ok(())
    }
}

/// The text of what a term is rewritten to. Its root is given back.
pub(crate) fn show(alloc: Global, nodes: &mut Nodes, term: RootId) -> Result<Vec<u8>, Trouble> {
    let mut writing = Writing {
        text: Vec::new(alloc),
        tasks: Vec::new(alloc),
    };
    writing.plan(Task::Show {
        term,
        is_argument: false,
    })?;
    for _task in 0..MOST_TASKS {
        match writing.tasks.pop() {
            Some(Task::Show { term, is_argument }) => {
                writing.show(alloc, nodes, term, is_argument)?
            }
            Some(Task::Close) => writing.write(b')')?,
            None => return Ok(writing.text),
        }
    }
    Err(Trouble::NoEnd)
}
