//! The entries that a frame comes to, each with the call by which it was reached first.

ghost use Rattle.std.specs.Prelude.{◌≡◌, ◌<◌, [], length, slice_get, OnOk, IfOk};
ghost use Rattle.std.specs.List.{All};
ghost use Rattle.dvg_cert.specs.Entry.{IsClaim};
ghost use Rattle.dvg_survey.specs.Calls.{Call};
ghost use Rattle.dvg_survey.specs.Private.Reaching.{reach, reach_all, IsBackward, IsTrace};

use crate::calls::Call;
use crate::keyed_words::KeyedWords;
use std::alloc::{AllocError, Global};
use std::marker::Model;

/// The call by which an entry was reached first. It stands in the shape of the entry of the link with index `from`; `None` where it
/// is the frame's own.
#[derive(Clone, Copy)]
pub struct Link {
    pub call: Call,
    pub from: Option<usize>,
}

/// Links in the order in which their entries were reached, one for each entry.
#[derive(Drop)]
pub struct Reached {
    links: Vec<Link>,
    /// The addresses and the keys of the links' entries.
    names: KeyedWords,
}

impl Model for Reached {
    ghost use Rattle.std.specs.Prelude.{List};
    ghost use Rattle.dvg_survey.specs.Private.Reaching.{Link, AreNames};

    ghost Value = { List Link };

    ghost view = { λ reached. reached.links.items };

    ghost invariant = { λ reached. AreNames reached.names reached.links.items };
}

impl Reached {
    /// No entry so far.
    #[tactic(auto, using(crate::proofs::Linking::no_names))]
    pub fn new(alloc: Global) -> Result<Reached, AllocError>
        ensures { IfOk result (λ reached. reached ≡ []) }
    {
        Ok(Reached {
            links: Vec::new(alloc),
            names: KeyedWords::new(alloc)?,
        })
    }

    /// The link at an index.
    pub fn get(&self, index: usize) -> Option<Link>
        ensures { result ≡ slice_get self.now index }
    {
        self.links.get(index).copied()
    }

    /// Adds a link, unless its entry was reached before.
    #[tactic(auto, using(crate::proofs::Linking::names_push))]
    fn add(&mut self, link: Link) -> Result<(), AllocError>
        requires { IsClaim link.call.entry }
        ensures { OnOk result (self.new ≡ reach self.old link) }
    {
        let (addr, key) = (link.call.entry.addr, link.call.entry.key);
        if !self.names.has(addr, key) {
            self.links.push(link)?;
            self.names.add(addr, key);
        }
        Ok(())
    }

    /// Adds a link for each of these calls, unless its entry was reached before. The calls stand in the shape of the entry of the
    /// link with index `from`; `None` where they are the frame's own.
    pub fn add_all(&mut self, calls: &[Call], from: Option<usize>) -> Result<(), AllocError>
        requires { All (λ (call : Call). IsClaim call.entry) calls.now }
        ensures { OnOk result (self.new ≡ reach_all self.old from calls.now) }
    {
        for call in calls {
            self.add(Link { call: *call, from })?;
        }
        Ok(())
    }

    /// The calls that lead to the entry of the link at an index, the link's own call last.
    #[tactic(auto, using(crate::proofs::Tracing::goes_down, crate::proofs::Tracing::traced_all))]
    pub fn chain(&self, alloc: Global, last: usize) -> Result<Vec<Call>, AllocError>
        requires last { last < length self.now }
        requires backward { IsBackward self.now }
        ensures { IfOk result (λ calls. IsTrace self.now last calls.items) }
    {
        let mut chain = Vec::new(alloc);
        let mut next = Some(last);
        while let Some(at) = next {
            let Some(link) = self.get(at) else {
                unreachable!();
            };
            chain.push(link.call)?;
            next = link.from;
        }
        chain.reverse();
        Ok(chain)
    }
}
