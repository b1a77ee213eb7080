//! Nodes in a heap: made, read and changed by their roots, and collected where a nursery is full.
ghost use Rattle.std.specs.Prelude.{◌≡◌, ◌≢◌, ◌↔◌, ◌⊎◌, Some, Err, IsSome, IsTrue, IsOk, IfOk, IfErr, OnOk, OnErr};
ghost use Rattle.model.specs.Graph.{root_at, without_root};
ghost use Rattle.heap.specs.HeapValue.{empty_heap};
ghost use Rattle.heap.specs.Commands.{Loads, Stores, HasPointer, MustNote};
ghost use Rattle.combinators.specs.Nodes.{node_sizes, letter_of, WasCollected, MayBeCollected, HasChild, AreParts, IsWant, AddsNode, AddsSymbol, AddsApplication};

use heap::{AllocateError, Config, Heap, LoadError, MakeError, RootId, Sizes, StoreError};
use one_worker::{CollectError, collect_one};
use std::alloc::Global;
use std::marker::Model;
use thiserror::Error;

/// Why a term was not rewritten.
#[derive(Clone, Copy, Debug, PartialEq, Eq, Error)]
pub(crate) enum Trouble {
    #[error("the term is too large for the heap")]
    HeapFull,
    #[error("no memory")]
    NoMemory,
    #[error("no term, or a bracket without its other")]
    NoTerm,
    #[error("no end after many steps")]
    NoEnd,
    #[error("a node isn't what it should be")]
    BadNode,
}

/// No memory, or no room in the heap.
fn trouble_of(error: AllocateError) -> Trouble
    ensures memory { (result ≡ Trouble.NoMemory) ↔ (error ≡ AllocateError.NoMemory) }
    ensures want { IsWant result }
{
    match error {
        AllocateError::NoMemory => Trouble::NoMemory,
        _ => Trouble::HeapFull,
    }
}

/// The nodes of terms. An application has two pointers, to a function and to its argument; a symbol has one word.
/// A root that a call gives is the caller's, who gives it back by `release`.
#[derive(Drop)]
pub(crate) struct Nodes {
    heap: Heap,
    collections: u64,
}

impl Model for Nodes {
    ghost use Rattle.heap.specs.HeapValue.{HeapValue, heap_code};

    ghost Value = { HeapValue };

    ghost coded = { heap_code };

    ghost view = { λ nodes. nodes.heap };
}

/// After so many collections of the young generation the old one is collected too.
const YOUNG_COLLECTIONS: u64 = 8;

impl Nodes {
    /// No node yet.
    pub(crate) fn new(alloc: Global) -> Result<Self, Trouble>
        ensures ok { IfOk result (λ nodes. nodes ≡ empty_heap node_sizes) }
        ensures err { IfErr result (λ e. e ≡ Trouble.NoMemory) }
    {
        let sizes = Sizes {
            block_words: 64,
            blocks: 1000,
            mutators: 1,
            nursery_blocks: 4,
            generations: 2,
            steps: 1,
        };
        let Ok(config) = Config::new(sizes) else {
            unreachable!();
        };
        match Heap::new(alloc, config) {
            Ok(heap) => Ok(Nodes {
                heap,
                collections: 0,
            }),
            Err(MakeError::HeapFull) => unreachable!(),
            Err(MakeError::NoMemory) => Err(Trouble::NoMemory),
        }
    }

    /// Whatever no root leads to gives its room back.
    fn collect(&mut self, alloc: Global) -> Result<(), Trouble>
        ensures ok { OnOk result (WasCollected self.old self.new) }
        ensures want { IfErr result IsWant }
        ensures err { OnErr result (self.new ≡ self.old) }
    {
        self.collections = self.collections.saturating_add(1);
        let oldest = if self.collections % YOUNG_COLLECTIONS == 0 {
            1
        } else {
            0
        };
        match collect_one(alloc, &mut self.heap, oldest) {
            Ok(report) => {
                self.heap.reuse(report);
                Ok(())
            }
            Err(CollectError::NoMemory) => Err(Trouble::NoMemory),
            Err(CollectError::HeapFull | CollectError::NoGeneration) => Err(Trouble::HeapFull),
        }
    }

    /// A new object. Where the nursery has no room for it the heap is collected first.
    fn allocate(&mut self, alloc: Global, pointers: u64, words: u64) -> Result<RootId, Trouble>
        ensures ok { IfOk result (λ node. AddsNode self.old pointers words node.number self.new) }
        ensures want { IfErr result IsWant }
        ensures err { OnErr result (MayBeCollected self.old self.new) }
    {
        match self.heap.allocate(0, pointers, words) {
            Ok(node) => return Ok(node),
            Err(AllocateError::NurseryFull) => self.collect(alloc)?,
            Err(error) => return Err(trouble_of(error)),
        }
        match self.heap.allocate(0, pointers, words) {
            Ok(node) => Ok(node),
            Err(error) => Err(trouble_of(error)),
        }
    }

    /// A node for a letter. An error says that there is no room, or no memory; the heap may have been collected.
    pub(crate) fn symbol(&mut self, alloc: Global, letter: u8) -> Result<RootId, Trouble>
        ensures ok { IfOk result (λ node. AddsSymbol self.old letter node.number self.new) }
        ensures want { IfErr result IsWant }
        ensures err { OnErr result (MayBeCollected self.old self.new) }
    {
        let node = self.allocate(alloc, 0, 1)?;
        let Ok(()) = self.heap.put(node, 0, letter as u64) else {
            unreachable!();
        };
        Ok(node)
    }

    /// Whether it is the root of a node.
    fn is_node(&self, node: RootId) -> bool
        ensures { IsTrue result ↔ IsSome (root_at self.now.graph node.number) }
    {
        self.heap.target(node).is_some()
    }

    /// A function with its argument, whose roots are given back. `BadNode` says that one of them is no root, or both are
    /// the same; then nothing changes. Another error says that there is no room, or no memory; the heap may have been
    /// collected.
    pub(crate) fn application(
        &mut self,
        alloc: Global,
        function: RootId,
        argument: RootId,
    ) -> Result<RootId, Trouble>
        ensures ok { IfOk result
            (λ node. AddsApplication self.old function.number argument.number node.number self.new) }
        ensures bad_node { (result ≡ Err Trouble.BadNode) ↔
            ¬ (AreParts self.old.graph function.number argument.number) }
        ensures same { result ≡ Err Trouble.BadNode → self.new ≡ self.old }
        ensures want { IfErr result (λ e. e ≢ Trouble.BadNode → IsWant e) }
        ensures err { OnErr result (MayBeCollected self.old self.new) }
    {
        if function == argument || !self.is_node(function) || !self.is_node(argument) {
            return Err(Trouble::BadNode);
        }
        let node = self.allocate(alloc, 2, 0)?;
        self.set_function(node, function)?;
        self.set_argument(node, argument)?;
        self.release(function)?;
        self.release(argument)?;
        Ok(node)
    }

    /// The letter of a symbol.
    pub(crate) fn letter(&self, node: RootId) -> Option<u8>
        ensures { result ≡ letter_of self.now.graph node.number }
    {
        match self.heap.get(node, 0) {
            Ok(word) => u8::try_from(word).ok(),
            Err(_) => None,
        }
    }

    /// A new root to what a pointer leads to. `BadNode` says that there is no such root or pointer, or that it is nil.
    fn load(&mut self, node: RootId, field: u64) -> Result<RootId, Trouble>
        ensures ok { IfOk result (λ target. Loads self.old node.number field (Some target.number) self.new) }
        ensures bad_node { (result ≡ Err Trouble.BadNode) ↔ ¬ (HasChild self.old.graph node.number field) }
        ensures kinds { IfErr result (λ e. (e ≡ Trouble.BadNode) ⊎ (e ≡ Trouble.NoMemory)) }
        ensures err { OnErr result (self.new ≡ self.old) }
    {
        match self.heap.load(node, field) {
            Ok(Some(target)) => Ok(target),
            Err(LoadError::NoMemory) => Err(Trouble::NoMemory),
            Ok(None) | Err(LoadError::NoRoot | LoadError::BadField) => Err(Trouble::BadNode),
        }
    }

    /// A new root to the function of an application. `BadNode` says that there is none; the heap is as before.
    pub(crate) fn function(&mut self, node: RootId) -> Result<RootId, Trouble>
        ensures ok { IfOk result (λ function. Loads self.old node.number 0 (Some function.number) self.new) }
        ensures bad_node { (result ≡ Err Trouble.BadNode) ↔ ¬ (HasChild self.old.graph node.number 0) }
        ensures kinds { IfErr result (λ e. (e ≡ Trouble.BadNode) ⊎ (e ≡ Trouble.NoMemory)) }
        ensures err { OnErr result (self.new ≡ self.old) }
    {
        self.load(node, 0)
    }

    /// A new root to the argument of an application. `BadNode` says that there is none; the heap is as before.
    pub(crate) fn argument(&mut self, node: RootId) -> Result<RootId, Trouble>
        ensures ok { IfOk result (λ argument. Loads self.old node.number 1 (Some argument.number) self.new) }
        ensures bad_node { (result ≡ Err Trouble.BadNode) ↔ ¬ (HasChild self.old.graph node.number 1) }
        ensures kinds { IfErr result (λ e. (e ≡ Trouble.BadNode) ⊎ (e ≡ Trouble.NoMemory)) }
        ensures err { OnErr result (self.new ≡ self.old) }
    {
        self.load(node, 1)
    }

    /// A pointer leads where the value's root does. `BadNode` says that there is no such root, or no such pointer.
    fn store(&mut self, node: RootId, field: u64, value: RootId) -> Result<(), Trouble>
        ensures ok { OnOk result (Stores self.old node.number field (Some value.number) self.new) }
        ensures bad_node { (result ≡ Err Trouble.BadNode) ↔
            ¬ (HasPointer self.old.graph node.number field × IsSome (root_at self.old.graph value.number)) }
        ensures memory { result ≡ Err Trouble.NoMemory → MustNote self.old node.number (Some value.number) }
        ensures kinds { IfErr result (λ e. (e ≡ Trouble.BadNode) ⊎ (e ≡ Trouble.NoMemory)) }
        ensures err { OnErr result (self.new ≡ self.old) }
    {
        match self.heap.store(node, field, Some(value)) {
            Ok(()) => Ok(()),
            Err(StoreError::NoMemory) => Err(Trouble::NoMemory),
            Err(StoreError::NoRoot | StoreError::BadField) => Err(Trouble::BadNode),
        }
    }

    /// An application has another function from now on. `BadNode` says that there is no such root, or that the node is no
    /// application; the heap is as before.
    pub(crate) fn set_function(&mut self, node: RootId, value: RootId) -> Result<(), Trouble>
        ensures ok { OnOk result (Stores self.old node.number 0 (Some value.number) self.new) }
        ensures bad_node { (result ≡ Err Trouble.BadNode) ↔
            ¬ (HasPointer self.old.graph node.number 0 × IsSome (root_at self.old.graph value.number)) }
        ensures memory { result ≡ Err Trouble.NoMemory → MustNote self.old node.number (Some value.number) }
        ensures kinds { IfErr result (λ e. (e ≡ Trouble.BadNode) ⊎ (e ≡ Trouble.NoMemory)) }
        ensures err { OnErr result (self.new ≡ self.old) }
    {
        self.store(node, 0, value)
    }

    /// An application has another argument from now on. `BadNode` says that there is no such root, or that the node is no
    /// application; the heap is as before.
    pub(crate) fn set_argument(&mut self, node: RootId, value: RootId) -> Result<(), Trouble>
        ensures ok { OnOk result (Stores self.old node.number 1 (Some value.number) self.new) }
        ensures bad_node { (result ≡ Err Trouble.BadNode) ↔
            ¬ (HasPointer self.old.graph node.number 1 × IsSome (root_at self.old.graph value.number)) }
        ensures memory { result ≡ Err Trouble.NoMemory → MustNote self.old node.number (Some value.number) }
        ensures kinds { IfErr result (λ e. (e ≡ Trouble.BadNode) ⊎ (e ≡ Trouble.NoMemory)) }
        ensures err { OnErr result (self.new ≡ self.old) }
    {
        self.store(node, 1, value)
    }

    /// The root is given up. Its node stays as long as others lead to it.
    pub(crate) fn release(&mut self, node: RootId) -> Result<(), Trouble>
        ensures known { IsOk result ↔ IsSome (root_at self.old.graph node.number) }
        ensures bad_node { IfErr result (λ e. e ≡ Trouble.BadNode) }
        ensures ok { OnOk result (self.new ≡ record self.old { graph = without_root self.old.graph node.number }) }
        ensures err { OnErr result (self.new ≡ self.old) }
    {
        self.heap.release(node).map_err(|_| Trouble::BadNode)
    }
}
