//! The laws of how much one call sends.

ghost use Rattle.end_for_callers.specs.Loads.{LoadLaw, SizeLaw};
ghost use Rattle.end_for_callers.specs.Watch.{WatchLaw};

/// States how much one call sends at most. The function does nothing when it is called.
pub fn load_law()
    // Whatever an end keeps within its bounds, no call sends more than 333 datagrams on any channel: those of nine parts,
    // each with five PDUs and a retransmission of the greatest window.
    ensures load { LoadLaw }
    // If the units, messages and names that an end keeps have their sizes, each datagram of a call is on a channel of the
    // end and has at most 1,258 bytes. After the call the sizes hold again.
    ensures size { SizeLaw }
{}

/// States that T_max needs no room. The function does nothing when it is called.
pub fn watch_law()
    // If T_max has passed since the peer last confirmed anything, a tick or a datagram closes the end, and nothing is taken.
    ensures { WatchLaw }
{}
