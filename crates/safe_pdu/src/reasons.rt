//! Why an end disconnects: the reason and the detail in its DiscReq.

ghost use Rattle.std.specs.Prelude.{◌≡◌};
ghost use Rattle.safe_pdu.specs.LeavingNumbers.{detail_number, detail_numbered, protocol_numbered, reason_number, reason_numbered, service_numbered};

/// Why an end disconnects: the reason in its DiscReq.
#[derive(Clone, Copy, Debug, PartialEq, Eq)]
pub enum Reason {
    /// 0: closed by the user.
    ClosedByUser,
    /// 1: a PDU that is not expected in this state.
    UnexpectedPdu,
    /// 2: a sequence error while connecting.
    SequenceError,
    /// 3: nothing recent was confirmed in time.
    Timeout,
    /// 4: the session refuses the service.
    ServiceNotAllowed,
    /// 5: another version of the protocol.
    WrongVersion,
    /// 6: the requested units cannot be sent again.
    RetransmissionImpossible,
    /// 7: a protocol error.
    ProtocolError,
}

impl Reason {
    /// Returns the reason with a number, or `None` if no reason has it.
    pub fn of(number: u16) -> Option<Self>
        // The result is the reason with this `number`, 0 to 7, or `None` for a greater number.
        ensures { result ≡ reason_numbered number }
    {
        match number {
            0 => Some(Reason::ClosedByUser),
            1 => Some(Reason::UnexpectedPdu),
            2 => Some(Reason::SequenceError),
            3 => Some(Reason::Timeout),
            4 => Some(Reason::ServiceNotAllowed),
            5 => Some(Reason::WrongVersion),
            6 => Some(Reason::RetransmissionImpossible),
            7 => Some(Reason::ProtocolError),
            _ => None,
        }
    }

    /// Returns the reason's number, as in the DiscReq.
    pub fn number(self) -> u16
        // The result is the number of the reason, 0 to 7 in the order of the variants.
        ensures { result ≡ reason_number self }
    {
        match self {
            Reason::ClosedByUser => 0,
            Reason::UnexpectedPdu => 1,
            Reason::SequenceError => 2,
            Reason::Timeout => 3,
            Reason::ServiceNotAllowed => 4,
            Reason::WrongVersion => 5,
            Reason::RetransmissionImpossible => 6,
            Reason::ProtocolError => 7,
        }
    }
}

/// The detail beside the reason in a DiscReq.
#[derive(Clone, Copy, Debug, PartialEq, Eq)]
pub enum Detail {
    /// 0: no detail.
    Unspecified,
    /// 1, of reason 4: the version of the session differs.
    VersionDiffers,
    /// 2, of reason 4: a telegram out of order.
    OutOfOrder,
    /// 3, of reason 4: a telegram that is not well formed, or not of this pair.
    NotWellFormed,
    /// 1, of reason 7: the PDU limit of a connection is reached.
    Limit,
    /// 2, of reason 7: a body that is not a unit.
    BadUnit,
    /// 3, of reason 7: the confirmed sequence number is not that of a PDU that awaits confirmation.
    ConfirmedNumber,
    /// 4, of reason 7: the confirmed timestamp is not plausible at this time.
    ConfirmedTimestamp,
}

impl Detail {
    /// Returns the detail with a number beside a reason, or `None` if no detail of this reason has it.
    pub fn of(reason: Reason, number: u16) -> Option<Self>
        // The result is `Unspecified` for 0, else the detail with this number among those of the reason (4
        // or 7), or `None`.
        ensures { result ≡ detail_numbered reason number }
    {
        match number {
            0 => Some(Detail::Unspecified),
            _ => match reason {
                Reason::ServiceNotAllowed => of_service(number),
                Reason::ProtocolError => of_protocol(number),
                _ => None,
            },
        }
    }

    /// Returns the detail's number, as in the DiscReq.
    pub fn number(self) -> u16
        // The result is the number of the detail: 0, or from 1 on among the details of the same reason.
        ensures { result ≡ detail_number self }
    {
        match self {
            Detail::Unspecified => 0,
            Detail::VersionDiffers => 1,
            Detail::OutOfOrder => 2,
            Detail::NotWellFormed => 3,
            Detail::Limit => 1,
            Detail::BadUnit => 2,
            Detail::ConfirmedNumber => 3,
            Detail::ConfirmedTimestamp => 4,
        }
    }
}

/// Returns the detail with a number beside reason 4.
fn of_service(number: u16) -> Option<Detail>
    ensures { result ≡ service_numbered number }
{
    match number {
        1 => Some(Detail::VersionDiffers),
        2 => Some(Detail::OutOfOrder),
        3 => Some(Detail::NotWellFormed),
        _ => None,
    }
}

/// Returns the detail with a number beside reason 7.
fn of_protocol(number: u16) -> Option<Detail>
    ensures { result ≡ protocol_numbered number }
{
    match number {
        1 => Some(Detail::Limit),
        2 => Some(Detail::BadUnit),
        3 => Some(Detail::ConfirmedNumber),
        4 => Some(Detail::ConfirmedTimestamp),
        _ => None,
    }
}
