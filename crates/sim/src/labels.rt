//! The PDUs that both ends made during a script, by their labels.

ghost use Rattle.std.specs.Prelude.{◌≡◌, ◌≤◌, length, take, filter, not, true, slice_get, OnOk, OnErr};
ghost use Rattle.std.specs.List.{list_all};
ghost use Rattle.std.specs.Option.{option_copied};
ghost use Rattle.sim.specs.Ledger.{is_named_among};

use crate::Label;
use crate::made_pdus::MadePdus;
use end_settings::Side;
use std::alloc::{AllocError, Allocator, Global};
use std::marker::Model;

/// All PDUs with their datagrams, and the ones that no line has named yet.
#[derive(Drop)]
pub struct Labels<A: Allocator = Global> {
    /// The allocator for datagrams and labels.
    alloc: A,
    /// The PDUs of the interlocking.
    il: MadePdus<A>,
    /// The PDUs of the field element.
    fe: MadePdus<A>,
    /// The labels of both ends in the order in which they made the PDUs.
    order: Vec<Label, A>,
    /// All labels before this place of the order are named.
    unnamed: usize,
}

impl<A: Allocator> Model for Labels<A> {
    ghost use Rattle.sim.specs.Ledger.{Ledger};
    ghost use Rattle.sim.specs.LedgerView.{IsLedger, ledger_of};

    ghost Value = { Ledger };

    ghost view = { ledger_of };

    ghost invariant = { IsLedger };
}

impl<A: Allocator + Copy> Labels<A> {
    ghost use Rattle.sim.specs.Ledger.{add_pdu, no_pdus};

    /// Returns labels without PDUs.
    pub fn new(alloc: A) -> Self
        // The new labels have no PDU of either end, and an empty order.
        ensures { result ≡ no_pdus }
    {
        Labels {
            alloc,
            il: MadePdus::new(alloc),
            fe: MadePdus::new(alloc),
            order: Vec::new(alloc),
            unnamed: 0,
        }
    }

    /// Adds a PDU that an end made; it gets the end's next label.
    ///
    /// # Errors
    ///
    /// An allocation failed. Nothing has changed then.
    pub fn make(&mut self, side: Side, datagram: &[u8]) -> Result<(), AllocError>
        // On success the PDU is the last of its end and not named, and its label is the last of the order
        // (`add_pdu`).
        ensures ok { OnOk result (self.new ≡ add_pdu side datagram.now self.old) }
        // If an allocation fails, no PDU and no label was added.
        ensures err { OnErr result (self.new ≡ self.old) }
    {
        self.order.try_reserve(1)?;
        let before = match side {
            Side::Interlocking => {
                let before = self.il.len();
                self.il.add(self.alloc, datagram)?;
                before
            }
            Side::FieldElement => {
                let before = self.fe.len();
                self.fe.add(self.alloc, datagram)?;
                before
            }
        };
        self.order.push_reserved(Label {
            side,
            place: before,
        });
        Ok(())
    }
}

impl<A: Allocator> Labels<A> {
    ghost use Rattle.sim.specs.Ledger.{mark_named, datagram_of, unnamed_of};

    /// Returns how many PDUs both ends have made.
    pub fn len(&self) -> usize
        // The number is the length of the order over both ends.
        ensures { result ≡ length self.now.order }
    {
        self.order.len()
    }

    /// Returns the label of the PDU at a place in the order over both ends, from 0.
    pub fn label(&self, place: usize) -> Option<Label>
        // The result is the label at this `place` of the order; `None` beyond its end.
        ensures { result ≡ slice_get self.now.order place }
    {
        self.order.get(place).copied()
    }

    /// Returns the datagram of a PDU; `None` if it has not been made yet.
    pub fn datagram(&self, label: Label) -> Option<&[u8]>
        // The datagram is that of the PDU with this `label`, made by the label's end at the label's place
        // (`datagram_of`).
        ensures { option_copied result ≡ datagram_of label self.now }
    {
        match label.side {
            Side::Interlocking => self.il.datagram(label.place),
            Side::FieldElement => self.fe.datagram(label.place),
        }
    }

    /// Marks a PDU as named by a line. A label that has not been made stays unnamed.
    pub fn name(&mut self, label: Label)
        // Only the PDU of this `label` changes, to named; a label that has not been made changes nothing
        // (`mark_named`).
        ensures { self.new ≡ mark_named label self.old }
    {
        match label.side {
            Side::Interlocking => self.il.name(label.place),
            Side::FieldElement => self.fe.name(label.place),
        }
    }

    /// Returns the first PDU in the order of making that no line has named. `flow` delivers that one.
    pub fn first_unnamed(&mut self) -> Option<Label>
        // The result is the first label of `unnamed_of`, or `None` if all are named.
        ensures first { result ≡ slice_get (unnamed_of self.old) 0 }
        // Finding a PDU names none, and leaves all PDUs as they are.
        ensures same { self.new ≡ self.old }
    {
        self.unnamed = first_from(&self.il, &self.fe, self.order.as_slice(), self.unnamed);
        self.order.get(self.unnamed).copied()
    }
}

/// Returns the first place from this one on whose label is not named, or the number of labels.
fn first_from<A: Allocator>(
    il: &MadePdus<A>,
    fe: &MadePdus<A>,
    order: &[Label],
    from: usize,
) -> usize
    requires within { from ≤ length order.now }
    requires named { list_all (is_named_among il.now fe.now) (take from order.now) ≡ true }
    // The place is at most the number of labels.
    ensures within { result ≤ length order.now }
    // All labels before the place are named.
    ensures named { list_all (is_named_among il.now fe.now) (take result order.now) ≡ true }
    // The label at the place is the first one in the whole order that is not named.
    ensures first { slice_get order.now result
        ≡ slice_get (filter (λ label. not (is_named_among il.now fe.now label)) order.now) 0 }
{
    for place in from..order.len() {
        if !is_named(il, fe, order[place]) {
            return place;
        }
    }
    order.len()
}

/// Returns `true` if a line has named a PDU.
fn is_named<A: Allocator>(il: &MadePdus<A>, fe: &MadePdus<A>, label: Label) -> bool
    ensures { result ≡ is_named_among il.now fe.now label }
{
    match label.side {
        Side::Interlocking => il.is_named(label.place),
        Side::FieldElement => fe.is_named(label.place),
    }
}
