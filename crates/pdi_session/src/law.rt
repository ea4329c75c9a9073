//! Laws of the session: of each row of its tables, of every list of its events, and of two sessions.

ghost use Rattle.pdi_session.specs.JoinedSessions.{InStepLaw, MatchingLaw, OneMoreLaw, PhaseLaw, TakesFrontLaw};
ghost use Rattle.pdi_session.specs.Numbers.{KindsAre, SizesAre};
ghost use Rattle.pdi_session.specs.Laws.{AgreedLaw, BegunLaw, FieldLaw, GoesLaw, InterlockingLaw, MessageLaw, OverLaw, OwnEarlyLaw, OwnLaw, PutLaw, QueueLaw, RoomLaw, StandsLaw, TakenLaw, TakesLaw};

/// Laws of the session. The function does nothing when it is called.
///
/// The law `phases` also holds for two sessions whose settings do not match. Such sessions end at the first
/// telegram.
pub fn session_law()
    // If a call leaves the state and appends the messages of an event, session and waiting messages fit the old
    // history with that event appended.
    ensures stands { StandsLaw }

    // A telegram that the application takes is not of the establishment, and is taken with its own message type
    // and payload.
    ensures takes { TakesLaw }

    // If the session goes on without taking a telegram, that telegram is of the establishment, and so is any
    // reply.
    ensures goes { GoesLaw }

    // Messages that a session adds by itself, at `Up`, `InitDone` or an arrival, are of the establishment.
    ensures own { OwnLaw }

    // An accepted put adds exactly one telegram, with the given message type and payload, and it is not of the
    // establishment.
    ensures puts { PutLaw }

    // Only a telegram that ends the session, or a closing, leads a session that is not over to Ended.
    ensures over { OverLaw }

    // After `Up` a session is not Idle, and no event leads back to Idle.
    ensures begun { BegunLaw }

    // After any list of events, version and checksum are agreed in Requesting, AwaitRequest, Initialising and Established.
    ensures agreed { AgreedLaw }

    // With settings in range, each message added has 43 to 400 bytes and decodes to its telegram.
    ensures messages { MessageLaw }

    // The bound `FewWait` holds for a new session without waiting messages, leaves room for one message before
    // Initialising, and still holds when messages leave.
    ensures room { RoomLaw }

    // Over every list of events, the telegrams taken are a prefix of the commands or status judged, and all of
    // them while the session is not over.
    ensures taken { TakenLaw }

    // Over every list of events, the commands or status in the queue are exactly those that were put, in order.
    ensures queue { QueueLaw }

    // After any list of events an interlocking's queue is empty, its version check, or that, the request and then
    // commands. There are commands only if it was Established.
    ensures interlocking { InterlockingLaw }

    // After any list of events a field element's queue is empty, one reply, or the reply of equal versions, the
    // start, and then status with at most one InitialisationCompleted.
    ensures field { FieldLaw }

    // If a telegram ends one of two sessions in turn, it is before Initialising, and the peer has put nothing.
    ensures phases { PhaseLaw }

    // A session that a telegram ends before Initialising has put nothing itself.
    ensures own_early { OwnEarlyLaw }

    // If the settings of two sessions in turn match, a telegram ends neither, except the field element while it is
    // Idle.
    ensures matching { MatchingLaw }

    // If two sessions in turn run and have judged all of each other's queue, both are Initialising or both are
    // Established.
    ensures in_step { InStepLaw }

    // In two sessions in turn, what each application takes is a prefix of what the other has put.
    ensures fronts { TakesFrontLaw }

    // Appending an event to a list extends the history by that event. Two sessions stay in turn if the event is
    // the next one for them.
    ensures one_more { OneMoreLaw }
{}

/// The values of the constants. The function does nothing when it is called.
pub fn numbers_law()
    // A version check has the message type 0x0024, its reply 0x0025, the request 0x0021, the start 0x0022 and the
    // end of the initialisation 0x0023.
    ensures kinds { KindsAre }
    // The results of a version check are 1 and 2; a field element has at most 4 versions and 16 bytes of checksum.
    ensures sizes { SizesAre }
{}
