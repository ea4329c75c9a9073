//! The laws of the machine over every list of events.

ghost use Rattle.safe_machine.specs.InOrder.{OneMoreLaw, OrderLaw, StaysLaw};
ghost use Rattle.safe_machine.specs.Law.{FreshAtLastLaw, FreshLaw, JoinedLaw, LossLaw, UnitLaw};
ghost use Rattle.safe_machine.specs.Moves.{ConnectionsLaw, IdentifiedLaw, MovesLaw, ReachedLaw, RequestsLaw, SettingsLaw, StrangersLaw, TextsLaw, WaitsLaw};
ghost use Rattle.safe_machine.specs.Octets.{OctetsLaw, RecentLaw};
ghost use Rattle.safe_machine.specs.Invariant.{FewLaw};
ghost use Rattle.safe_machine.specs.Ring.{RingLaw};
ghost use Rattle.safe_machine.specs.TurnLaws.{MadeLaw, OpeningLaw, TellsLaw, TurnsLaw};

/// States the laws of the machine. Calling it has no effect.
///
/// The laws of two machines hold over every genuine list of openings, sends, closes, timeout checks, ticks and
/// arrivals of both ends, however often either end is opened. The laws of one machine hold for every move, or for
/// every state that moves lead to from an opening.
pub fn unit_law()
    // Over every genuine list, the units that an end takes are a prefix of those sent by the end joined to it.
    // Later incarnations of the field element are joined to later ones of the interlocking, so no end is joined to
    // two. An end that is not joined has taken nothing.
    ensures beginnings { UnitLaw }

    // If a field element starts a connection in a genuine list, the present interlocking, to which it is joined,
    // had made the PDU that came.
    ensures joined { JoinedLaw }

    // Over every genuine list, an end, closed or not, has sent at most as many units as the end joined to it took
    // and as are unconfirmed. Since the units taken are a prefix of those sent, and the unconfirmed ones are the
    // last, each other unit was taken.
    ensures nothing_lost { LossLaw }

    // Over genuine, timely lists, the peer made each PDU whose unit is taken. Its basis is a PDU that this end made
    // less than its T_max before, and it confirms the sequence number and the timestamp of that basis.
    ensures fresh { FreshLaw }
    // The event that ends a genuine, timely list takes a unit only from a fresh PDU.
    ensures fresh_at_last { FreshAtLastLaw }

    // No move leads to Down from another state. A move from Down to Start is an arrival with the end's own
    // identifiers. A move appends its PDUs to those made. It sends one unit if it is a send that is allowed,
    // otherwise none. It takes nothing, or the unit of the PDU that arrives, after those taken before. A move
    // leaves a closed machine unchanged.
    ensures moves { MovesLaw }

    // No move changes the settings.
    ensures settings { SettingsLaw }
    // A PDU with other identifiers has the effect of the timeout check only.
    ensures strangers { StrangersLaw }
    // In Down and in Start, a move takes no unit.
    ensures waits { WaitsLaw }

    // A move goes from Down to Start, from Start to Up or between connected states, or it closes the end or keeps
    // the state. A move that is not an arrival keeps the state or closes the end.
    ensures connections { ConnectionsLaw }

    // A move from Down to Start is the arrival of a ConnReq with this profile's version.
    ensures requests { RequestsLaw }

    // After any moves from an opening, every PDU made has the identifiers of its end and of the peer.
    ensures identified { IdentifiedLaw }

    // After any moves from an opening, the unconfirmed units are those whose carrier was made after the last PDU
    // confirmed. They are the last of the units sent.
    ensures reached { ReachedLaw }

    // The units that the ring of a state holds are its unconfirmed units.
    ensures ring { RingLaw }

    // After sound moves from a legal opening, every PDU made has an encoding, whatever the settings of the safety
    // code.
    ensures texts { TextsLaw }

    // After well-formed moves from a legal opening, at most 32 units are unconfirmed. One more such move makes at
    // most 36 PDUs. A send that is allowed adds one unconfirmed unit.
    ensures few { FewLaw }

    // If a view is what is kept of a history, the turn of a move leaves what is kept of the history after the move.
    // The history grows by the PDUs that the turn makes and the units that it hands up.
    ensures turns { TurnsLaw }
    // A turn preserves that, in Up and RetrRun, the PDU last confirmed was made.
    ensures made { MadeLaw }
    // The turn of received bytes leaves what is kept of the history after their arrival. The history grows by the
    // PDUs made and the units handed up.
    ensures octets { OctetsLaw }
    // If received bytes hand up a unit, they are a PDU whose confirmed timestamp, as the end reads it, is less than
    // T_max old.
    ensures recent { RecentLaw }
    // An opening leaves what is kept of the history that it begins, with the same PDUs made.
    ensures openings { OpeningLaw }
    // The view of a history has the number of its unconfirmed units, and decides as the history whether one more
    // may be sent.
    ensures tells { TellsLaw }

    // Over genuine, timely lists in order (PDUs arrive by index, no end is opened again, no timeout check
    // disconnects), no retransmission is requested. An end that is not closed has the state that the number of its
    // arrivals leads to, and has taken exactly the units of the Data that arrived. If everything has arrived and no
    // end is closed, both are Up and have taken all that was sent. Then only a full window of the peer keeps an end
    // from sending.
    ensures in_order { OrderLaw }

    // Over genuine, timely lists in order in which no caller closes an end, no end that was opened is closed.
    ensures stays { StaysLaw }

    // A list with one more event at its end leads one event further, with its arrival counted and its close noted.
    // If a list is genuine, timely or in order, it stays so when one more such event is added.
    ensures one_more { OneMoreLaw }
{}
