//! What a pair promises for every list of events.

ghost use Rattle.stack_engine.specs.Bounds.{FewFirstLaw, FewMoreLaw, QueueLaw};
ghost use Rattle.stack_engine.specs.Faithful.{Faithful, NothingLost, NothingLostLaw, OrderlyLaw};
ghost use Rattle.stack_engine.specs.Freshness.{AllFresh, Freshness};
ghost use Rattle.stack_engine.specs.FreshByPlace.{FreshByPlace, FreshByPlaceLaw};
ghost use Rattle.stack_engine.specs.Headline.{Headline, HeadlineLaw};
ghost use Rattle.stack_engine.specs.HeadlineByPlace.{HeadlineByPlace, HeadlineByPlaceLaw};
ghost use Rattle.stack_engine.specs.Instances.{Instances};
ghost use Rattle.stack_engine.specs.LossInstances.{LossInstances};
ghost use Rattle.stack_engine.specs.NothingLostByPlace.{NothingLostByPlace, NothingLostByPlaceLaw};
ghost use Rattle.stack_engine.specs.Premise.{BreaksLaw, Genuine};
ghost use Rattle.stack_engine.specs.PremiseByPlace.{FaithfulByPlace, GenuineByPlace};
ghost use Rattle.stack_engine.specs.Premises.{Premises};
ghost use Rattle.stack_engine.specs.Promises.{Promises};
ghost use Rattle.stack_engine.specs.PromisesByPlace.{PromisesByPlace};
ghost use Rattle.stack_engine.specs.Settled.{Certain, CertainLaw, ConfirmedTaken, ConfirmedTakenLaw, Settled, SettledLaw};
ghost use Rattle.stack_engine.specs.SettledByPlace.{CertainByPlace, CertainByPlaceLaw, ConfirmedByPlace, ConfirmedByPlaceLaw, SettledByPlace, SettledByPlaceLaw};
ghost use Rattle.std.specs.Prelude.{List, ◌↔◌};
ghost use Rattle.stack_engine.specs.Pairs.{Event, World};
ghost use Rattle.stack_end.specs.Ends.{EndState};
ghost use Rattle.safe_machine.specs.Made.{Made};

/// The laws of a pair. They hold for every genuine list of events, with any number of openings of either end. A call
/// does nothing.
pub fn pair_law()
    // After every genuine list of events: of two joined incarnations each has taken a prefix of the telegrams that
    // the other put, commands and status. An incarnation of the field element that is joined to none has taken
    // nothing (`TakesBeginnings`). Later incarnations of the field element are joined to later ones of the
    // interlocking, so none is joined to two (`JoinsFall`). An interlocking incarnation to which no field element is
    // joined has taken nothing (`OnlyJoinedTake`).
    ensures headline { HeadlineLaw }

    // Over every genuine list of events: whenever an end takes something, it came in a PDU that the present peer
    // made. That PDU confirms number and timestamp of a PDU that this incarnation made, less than its T_max before.
    ensures fresh { Freshness }

    // After every genuine list of events, the telegrams put at a present end are, in order: a prefix of those that
    // the joined end took, then those in unconfirmed units, then those that wait. This holds of a closed end too.
    ensures confirmed { ConfirmedTakenLaw }

    // After every genuine list of events, if a present end is settled, the end joined to it has taken everything that
    // it put, in order.
    ensures settled { SettledLaw }

    // After every genuine list of events, the end joined to a present end has taken the first telegrams put there, as
    // many as `confirmed_of` counts. This holds of a closed end too.
    ensures certain { CertainLaw }

    // After every faithful list of events, if every PDU has arrived and both ends are open with crossed identifiers:
    // both are Up and have taken every unit that the other sent. Messages wait only for the window, and no
    // retransmission was requested.
    ensures orderly { OrderlyLaw }

    // After every faithful list of events, no retransmission was requested (`AsksNothing`). If also every PDU has
    // arrived at each open end: the telegrams put at one end are those that the other took and then those that wait
    // (`AllThere`). A message waits only while the window of its end is full, and at a closed end none waits. Ends
    // with matching settings are Up, and if no message waits at either, they are in step.
    ensures nothing_lost { NothingLostLaw }

    // A call of an end in a pair makes at most 401 PDUs and takes at most 27 telegrams. Each PDU has at most 1,250
    // bytes, and each payload taken at most 357.
    ensures few { FewMoreLaw }
    // An opening makes at most 401 PDUs, of at most 1,250 bytes each, and takes nothing.
    ensures few_first { FewFirstLaw }

    // No end in a pair ever defers more parts than the q of its settings.
    ensures queue { QueueLaw }

    // `breaks_premise` is false if and only if a delivery keeps the first condition of genuine: the one on the
    // datagram when it arrives.
    ensures breaks { BreaksLaw }
{
    red_layer::order_law();
    safe_pdu::text_law();
    safe_machine::unit_law();
    pdi_session::packing::one_spelling();
    pdi_session::session_law();
}

/// The promises exclude something, and their premises hold for some lists of events. A call does nothing.
pub fn instance_law()
    // For each clause of headline, freshness, confirmed, settled and certain there is a world at which it is false,
    // while the other clauses of that promise hold.
    ensures instances { Instances }
    // Each clause of nothing lost is false at some world, while its other clauses hold; and there are ends of which
    // all hold.
    ensures loss { (x : EndState) (m : Made) → LossInstances x m }

    // There is a genuine list that is not faithful, and a faithful list, over which both ends take something.
    ensures premises { Premises }
{}

/// Each promise is stated a second time, in a form that shares no definition of what is promised; both forms are
/// proved equal. If somebody weakens one, a clause here has no proof. A call does nothing.
pub fn promises_law()
    // In every world the headline by prefixes holds if and only if the headline by places does.
    ensures headline { (w : World) → Headline w ↔ HeadlineByPlace w }
    // Over every list of events, freshness stated event by event holds if and only if freshness stated by indices of
    // made PDUs does.
    ensures fresh { (es : List Event) (w : World) → AllFresh es w ↔ FreshByPlace es w }
    // In every world with the headline, "confirmed is taken" by prefixes holds if and only if its form by counts and
    // places does.
    ensures confirmed { (w : World) → HeadlineByPlace w → (ConfirmedTaken w ↔ ConfirmedByPlace w) }
    // In every world with the headline, "settled" by prefixes holds if and only if its form by places does.
    ensures settled { (w : World) → HeadlineByPlace w → (Settled w ↔ SettledByPlace w) }
    // In every world with the headline, "certain" by prefixes holds if and only if its form by places does.
    ensures certain { (w : World) → HeadlineByPlace w → (Certain w ↔ CertainByPlace w) }
    // In every world, "nothing lost" by lists holds if and only if its form by counts and places does.
    ensures nothing_lost { (w : World) → NothingLost w ↔ NothingLostByPlace w }
    // A list of events is genuine, stated event by event, if and only if it is genuine stated of each call and each
    // part by its index.
    ensures genuine { (es : List Event) (w : World) → Genuine es w ↔ GenuineByPlace es w }
    // A list of events is faithful, stated event by event, if and only if it is faithful stated of each call and each
    // part by its index.
    ensures faithful { (es : List Event) → Faithful es ↔ FaithfulByPlace es }
    // Over every list of events, all that a pair promises (`Promises`) holds if and only if the second form of each
    // promise does, under the second form of its premise.
    ensures promises { (es : List Event) → Promises es ↔ PromisesByPlace es }
    // The headline by places holds after every list of events that is genuine by place.
    ensures headline_by_place { HeadlineByPlaceLaw }
    // Freshness by indices holds over every list of events that is genuine by place.
    ensures fresh_by_place { FreshByPlaceLaw }
    // "Confirmed is taken" by places holds after every list of events that is genuine by place.
    ensures confirmed_by_place { ConfirmedByPlaceLaw }
    // "Settled" by places holds after every list of events that is genuine by place.
    ensures settled_by_place { SettledByPlaceLaw }
    // "Certain" by places holds after every list of events that is genuine by place.
    ensures certain_by_place { CertainByPlaceLaw }
    // "Nothing lost" by places holds after every list of events that is faithful by place.
    ensures nothing_lost_by_place { NothingLostByPlaceLaw }
{
    pair_law();
    red_layer::order_law();
}
