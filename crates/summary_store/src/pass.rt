//! What a worker carries.
ghost use Rattle.std.specs.Prelude.{◌≡◌, ◌+◌, ◌^◌, ◌<◌, IfOk};
ghost use Rattle.summary_store.specs.declared.machine.Hand.TheVariants.{Free};
ghost use Rattle.summary_store.specs.Passes.{pass_view, first_passes, method_in, is_gone};

use crate::{Hand, StoreRun};
use racer_base::{Memory, MethodId};
use std::alloc::Global;
use std::marker::Model;
use std::sync::ledger::{Book, Share};

/// What a worker carries: its number, what it holds, how many callees of that method it has found in this hold, and how
/// many events it made.
#[derive(Drop)]
pub struct Pass<L: StoreRun> {
    pub(crate) number: u32,
    hand: Hand,
    found: u32,
    made: u64,
    pub(crate) share: Share<L>,
}

impl<L: StoreRun> Model for Pass<L> {
    ghost use Rattle.std.specs.Prelude.{◌≡◌, ◌<◌};
    ghost use Rattle.summary_store.specs.Passes.{PassView};

    ghost Value = { PassView };

    ghost view = { λ p. record { number = p.number; hand = p.hand; found = p.found; made = p.made } };

    ghost invariant = { λ p. (p.share.amount ≡ p.made) × (p.share.parts ≡ 1) × (p.number < L.parts) };
}

impl<L: StoreRun> Pass<L> {
    /// A pass for each worker, with one part each.
    pub(crate) fn deal(alloc: Global, share: Share<L>, workers: u32) -> Result<Vec<Pass<L>>, Memory>
        requires parts { (share.parts ≡ L.parts) × (workers ≡ L.parts) }
        requires amount { share.amount ≡ 0 }
        ensures { IfOk result (λ v. v.items ≡ first_passes workers) }
    {
        let mut share = share;
        let mut passes = Vec::with_capacity(alloc, workers as usize)?;
        for number in 0..workers {
            passes.push_reserved(Pass::first(number, share.split_off(1, 0)));
        }
        Ok(passes)
    }

    fn first(number: u32, share: Share<L>) -> Pass<L>
        requires { (share.parts ≡ 1) × (share.amount ≡ 0) × (number < L.parts) }
        ensures { result ≡ pass_view number Free 0 0 }
    {
        Pass {
            number,
            hand: Hand::Free,
            found: 0,
            made: 0,
            share,
        }
    }

    /// The worker's number, from 0.
    pub fn number(&self) -> u32
        ensures { result ≡ self.now.number }
    {
        self.number
    }

    /// What the worker holds.
    pub fn hand(&self) -> Hand
        ensures { result ≡ self.now.hand }
    {
        self.hand
    }

    /// The method that the worker holds, if there is one.
    pub fn held(&self) -> Option<MethodId>
        ensures { result ≡ method_in self.now.hand }
    {
        match self.hand {
            Hand::Holds(m) => Some(m),
            _ => None,
        }
    }

    /// Whether the worker has left.
    pub fn left(&self) -> bool
        ensures { result ≡ is_gone self.now.hand }
    {
        matches!(self.hand, Hand::Gone)
    }

    /// How many callees of the method that it holds it has found in this hold.
    pub fn found(&self) -> u32
        ensures { result ≡ self.now.found }
    {
        self.found
    }

    /// How many events the worker made.
    pub fn made(&self) -> u64
        ensures { result ≡ self.now.made }
    {
        self.made
    }

    /// Holds this, and has found nothing.
    pub(crate) fn hold(&mut self, hand: Hand)
        ensures { self.new ≡ pass_view self.old.number hand 0 self.old.made }
    {
        self.hand = hand;
        self.found = 0;
    }

    /// Has found so many callees in this hold.
    pub(crate) fn find(&mut self, found: u32)
        ensures { self.new ≡ pass_view self.old.number self.old.hand found self.old.made }
    {
        self.found = found;
    }

    /// Notes an event of this worker in the book; behind it the worker holds this.
    pub(crate) fn note(&mut self, book: &mut Book<L>, hand: Hand)
        requires { book.old.total + 1 < 2 ^ 64 }
        ensures pass { self.new ≡ pass_view self.old.number hand 0 (self.old.made + 1) }
        ensures total { book.new.total ≡ book.old.total + 1 }
    {
        let Pass {
            made,
            share,
            hand: held,
            found,
            ..
        } = self;
        book.audit(share);
        book.add(share, 1);
        *made += 1;
        *held = hand;
        *found = 0;
    }
}
