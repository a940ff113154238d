//! The shapes in the making. Each waits for the entry of the one above it.

ghost use Rattle.std.specs.Prelude.{◌≡◌, ◌++◌, ◌∷◌, [], List, length, slice_get, Some, OnOk, OnErr, IfOk, IfSome, IfNone};
ghost use Rattle.dvg_make.specs.declared.partial.PartialEntry.{PartialEntry as PartialValue};
ghost use Rattle.dvg_make.specs.Private.Making.{IsMaking, shapes};

use crate::account::ShapeAt;
use crate::partial::PartialEntry;
use dvg_cert::Key;
use indexmap::IndexMap;
use std::alloc::{AllocError, Global};
use std::marker::Model;

/// The shapes in the making, in the order in which they were pushed. No two have the same address and key.
#[derive(Drop)]
pub struct Stack {
    by_key: IndexMap<(u16, Key), PartialEntry>,
}

impl Model for Stack {
    ghost use Rattle.std.specs.Prelude.{List};
    ghost use Rattle.std.specs.List.{All};
    ghost use Rattle.std.specs.Map.{values_of};
    ghost use Rattle.dvg_make.specs.declared.partial.PartialEntry.{PartialEntry as PartialValue};
    ghost use Rattle.dvg_make.specs.Private.Stacked.{IsOwnPartial};

    ghost Value = { List PartialValue };

    ghost view = { λ stack. values_of stack.by_key.entries };

    ghost invariant = { λ stack. All IsOwnPartial stack.by_key.entries };
}

impl Stack {
    /// No shape so far.
    pub fn new(alloc: Global) -> Stack
        ensures { result ≡ [] }
    {
        Stack {
            by_key: IndexMap::new(alloc),
        }
    }

    /// How many shapes are in the making.
    pub fn len(&self) -> usize
        ensures { result ≡ length self.now }
    {
        self.by_key.len()
    }

    /// The addresses and keys of the shapes, the lowest first.
    pub fn shapes(&self, alloc: Global) -> Result<Vec<ShapeAt>, AllocError>
        ensures { IfOk result (λ chain. chain.items ≡ shapes self.now) }
    {
        self.by_key
            .values()
            .map(|partial| ShapeAt {
                addr: partial.addr,
                key: partial.key,
            })
            .collect(alloc)
    }

    /// The position of the shape with this address and key, counted from 0 at the lowest, if it is in the making.
    pub fn position(&self, addr: u16, key: Key) -> Option<usize>
        ensures some { IfSome result (λ i. (partial : PartialValue) × (slice_get self.now i ≡ Some partial) × (partial.addr ≡ addr) × (partial.key ≡ key)) }
        ensures none { IfNone result (IsMaking self.now addr key → ⊥) }
    {
        self.by_key.get_index_of(&(addr, key))
    }

    /// The shape that was pushed last.
    #[tactic(auto, using(crate::proofs::Stacks::top_is))]
    pub fn top(&self) -> Option<PartialEntry>
        ensures some { IfSome result (λ partial. (rest : List PartialValue) × (self.now ≡ rest ++ partial ∷ [])) }
        ensures none { IfNone result (self.now ≡ []) }
    {
        let (_, partial) = self.by_key.last()?;
        Some(*partial)
    }

    /// Puts a shape that is not in the making on the top.
    pub fn push(&mut self, partial: PartialEntry) -> Result<(), AllocError>
        requires { IsMaking self.old partial.addr partial.key → ⊥ }
        ensures ok { OnOk result (self.new ≡ self.old ++ partial ∷ []) }
        ensures err { OnErr result (self.new ≡ self.old) }
    {
        self.by_key.insert((partial.addr, partial.key), partial)?;
        Ok(())
    }

    /// Puts this in the place of the shape on the top, which has the same address and key.
    pub fn replace_top(&mut self, partial: PartialEntry)
        requires { (rest : List PartialValue) × (old : PartialValue) × (self.old ≡ rest ++ old ∷ []) × (old.addr ≡ partial.addr) × (old.key ≡ partial.key) }
        ensures { (rest : List PartialValue) (old : PartialValue) → self.old ≡ rest ++ old ∷ [] → self.new ≡ rest ++ partial ∷ [] }
    {
        if let Some(top) = self.by_key.last_mut() {
            *top = partial;
        }
    }

    /// Removes the shape on the top.
    pub fn pop(&mut self)
        ensures { (rest : List PartialValue) (old : PartialValue) → self.old ≡ rest ++ old ∷ [] → self.new ≡ rest }
    {
        self.by_key.pop();
    }
}
