//! The laws of the layer, for every list of datagrams and ticks.

ghost use Rattle.red_layer.specs.Laws.{ArrivalLaw, ServiceLaw, Masking, FirstMissingLaw, BoundedLaw, OriginLaw, OneMoreLaw, PartsLaw};

/// Laws of the layer's step. They hold for every list of datagrams and ticks from the opening. The function
/// does nothing when it is called.
pub fn order_law()
    // A datagram makes a part arrive if and only if it is the encoding of a redundancy PDU, and then the
    // part is the PDU's number and payload.
    ensures arrivals { ArrivalLaw }

    // The payload that arrives with bytes consists of bytes.
    ensures octets { PartsLaw }

    // The parts passed up have strictly rising numbers, and each has arrived before or with the input at
    // which it is passed up.
    ensures service { ServiceLaw }

    // If no arrival is more than q ahead of the first missing number, and no wait reaches T_seq, the first
    // part of each number below the first missing one is passed up, in order.
    ensures masking { Masking }

    // The first missing number is the least number that has not arrived, and no other number is.
    ensures missing { FirstMissingLaw }

    // At most q parts are deferred after any list of datagrams and ticks.
    ensures bounded { BoundedLaw }

    // Each part that one step passes up or defers was deferred before or arrived with it, for any receiver.
    ensures origin { OriginLaw }

    // One more input at the end of a list takes the state one step further, and appends the parts that this
    // step passes up.
    ensures one_more { OneMoreLaw }
{}
