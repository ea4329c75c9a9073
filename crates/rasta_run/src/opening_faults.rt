//! Why the channels of an end could not be opened, in words for the user.

ghost use Rattle.std.specs.Prelude.{◌≡◌, OnOk};
ghost use Rattle.std.specs.Io.KnownBytes.{Appends};
ghost use Rattle.rasta_run.specs.OpeningFaults as unopened;
ghost use Rattle.rasta_run.specs.declared.opening_faults.StopCause.TheVariants as stopped;

use end_settings::Side;
use pdu_text::{side_name, write_text};
use rasta_words::Fault;
use settings_file::{Ends, Settings};
use stack_end::OpenFault;
use std::io;
use std::io::Write;
use udp_channels::{UdpFault, is_address};

/// Channels that could not be opened.
#[derive(Clone, Copy, Debug, PartialEq, Eq)]
pub struct UnopenedChannels {
    /// The end.
    pub side: Side,
    /// The reason.
    pub fault: UdpFault,
}

impl UnopenedChannels {
    /// Prints each channel with its address and the reason, if addresses are the reason. A failing output is
    /// ignored.
    pub fn report<E: Write>(&self, ends: &Ends, err: &mut E) {
        let settings = settings_of(ends, self.side);
        match self.fault {
            UdpFault::Address(_) => report_unread(settings, self.side, err),
            UdpFault::Bind(refusal) => {
                let text = text_at(settings.local.as_slice(), refusal.channel);
                let error = number_of(refusal.error);
                let _ = write_unbound(err, self.side, refusal.channel, text, error);
            }
            UdpFault::Lists | UdpFault::Memory | UdpFault::Wait => {}
        }
    }
}

/// Why a run ended before its time.
#[derive(Clone, Copy, Debug, PartialEq, Eq)]
pub enum StopCause {
    /// A fault.
    Fault(Fault),
    /// Channels could not be opened.
    Unopened(UnopenedChannels),
}

impl StopCause {
    /// Returns the fault that ended the run.
    pub fn fault(self) -> Fault
        // `fault` returns the fault itself, and for channels that of their reason.
        ensures { result ≡ unopened.fault_of_stop self }
    {
        match self {
            StopCause::Fault(fault) => fault,
            StopCause::Unopened(unopened) => fault_of(unopened.fault),
        }
    }
}

impl From<Fault> for StopCause {
    ghost from_gives = { λ fault r. r ≡ stopped.Fault fault };

    fn from(fault: Fault) -> Self {
        StopCause::Fault(fault)
    }
}

/// Returns the fault of a run whose channels were not opened.
pub(crate) fn fault_of(fault: UdpFault) -> Fault
    ensures { result ≡ unopened.fault_of fault }
{
    match fault {
        UdpFault::Memory => Fault::Memory,
        UdpFault::Lists | UdpFault::Address(_) => Fault::Settings,
        UdpFault::Bind(_) | UdpFault::Wait => Fault::Network,
    }
}

/// Prints each text of `local` and `remote` that is not an address.
pub(crate) fn report_unread<E: Write>(settings: &Settings, side: Side, err: &mut E) {
    let pairs = settings.local.iter().zip(settings.remote.iter());
    for (number, (own, peer)) in pairs.enumerate() {
        report_if_unread(side, number.wrapping_add(1), true, own.as_str(), err);
        report_if_unread(side, number.wrapping_add(1), false, peer.as_str(), err);
    }
}

/// Prints a text if it is not an address.
fn report_if_unread<E: Write>(side: Side, channel: usize, is_own: bool, text: &str, err: &mut E) {
    if !is_address(text) {
        let _ = write_unread(err, side, channel, is_own, text);
    }
}

/// Returns the settings of one of the ends.
fn settings_of(ends: &Ends, side: Side) -> &Settings
    ensures { result.now ≡ unopened.settings_of ends.now side }
{
    match (ends, side) {
        (Ends::Il(settings) | Ends::Fe(settings), _) => settings,
        (Ends::Pair(il, _), Side::Interlocking) => il,
        (Ends::Pair(_, fe), Side::FieldElement) => fe,
    }
}

/// Returns the address of a channel, numbered from 1.
fn text_at(list: &[String], channel: usize) -> &str {
    match list.get(channel.wrapping_sub(1)) {
        Some(text) => text.as_str(),
        None => "",
    }
}

/// Returns the system's number for an error, if it is above 0.
fn number_of(error: Option<i32>) -> Option<u32> {
    match error {
        Some(error) => u32::try_from(error).ok(),
        None => None,
    }
}

/// Returns the fault of a run whose end was not opened.
pub(crate) fn fault_of_end(fault: OpenFault) -> Fault
    ensures { result ≡ unopened.fault_of_end fault }
{
    match fault {
        OpenFault::Memory => Fault::Memory,
        OpenFault::BadConfig => Fault::Settings,
    }
}

/// Writes that a text is not an address.
///
/// # Errors
///
/// - The error of the writer; what it wrote before stays written.
#[tactic(auto, unfolding(crate::specs::OpeningFaults::unread_text))]
pub fn write_unread<W: Write>(
    writer: &mut W,
    side: Side,
    channel: usize,
    is_own: bool,
    address: &str,
) -> io::Result<()>
    // If `write_unread` succeeds, it has appended the line that names the channel and says that its address is not
    // one.
    ensures { OnOk result (Appends (W.contents writer.old) (W.contents writer.new)
        (unopened.unread_text side channel is_own address.now)) }
{
    write_place(writer, side, channel, is_own, address)?;
    write_text(writer, ": not an IP address and a port\n")
}

/// Writes that the system gives no socket at an own address, and the number of its error, if it gave one.
///
/// # Errors
///
/// - The error of the writer; what it wrote before stays written.
#[tactic(auto, unfolding(crate::specs::OpeningFaults::unbound_text))]
pub fn write_unbound<W: Write>(
    writer: &mut W,
    side: Side,
    channel: usize,
    address: &str,
    error: Option<u32>,
) -> io::Result<()>
    // If `write_unbound` succeeds, it has appended the line that names the channel and says why the system gives
    // no socket there.
    ensures { OnOk result (Appends (W.contents writer.old) (W.contents writer.new)
        (unopened.unbound_text side channel address.now error)) }
{
    write_unbound_front(writer, side, channel, address)?;
    write_error(writer, error)?;
    write_text(writer, "\n")
}

/// Writes the channel, and that there is no socket.
#[tactic(auto, unfolding(crate::specs::OpeningFaults::unbound_front))]
fn write_unbound_front<W: Write>(
    writer: &mut W,
    side: Side,
    channel: usize,
    address: &str,
) -> io::Result<()>
    ensures { OnOk result (Appends (W.contents writer.old) (W.contents writer.new)
        (unopened.unbound_front side channel address.now)) }
{
    write_place(writer, side, channel, true, address)?;
    write_text(writer, ": no socket there")
}

/// Writes the channel and its address.
#[tactic(auto, unfolding(crate::specs::OpeningFaults::place_text))]
fn write_place<W: Write>(
    writer: &mut W,
    side: Side,
    channel: usize,
    is_own: bool,
    address: &str,
) -> io::Result<()>
    ensures { OnOk result (Appends (W.contents writer.old) (W.contents writer.new)
        (unopened.place_text side channel is_own address.now)) }
{
    let end = side_name(side);
    let whose = whose_words(is_own);
    write!(writer, "{end} channel {channel}: {whose}{address}")
}

/// Returns whose address it is.
fn whose_words(is_own: bool) -> &'static str
    ensures { result.now ≡ unopened.whose_text is_own }
{
    match is_own {
        true => "own address ",
        false => "peer's address ",
    }
}

/// Writes the system's error, if there is a number for it.
fn write_error<W: Write>(writer: &mut W, error: Option<u32>) -> io::Result<()>
    ensures { OnOk result (Appends (W.contents writer.old) (W.contents writer.new) (unopened.error_text error)) }
{
    match error {
        None => write_text(writer, ""),
        Some(error) => write_numbered(writer, error),
    }
}

/// Writes the number of an error, and words for the most frequent ones.
#[tactic(auto, unfolding(crate::specs::OpeningFaults::error_number_text))]
fn write_numbered<W: Write>(writer: &mut W, error: u32) -> io::Result<()>
    ensures { OnOk result (Appends (W.contents writer.old) (W.contents writer.new) (unopened.error_number_text error)) }
{
    let words = error_words(error);
    write!(writer, ", error {error}{words}")
}

/// Returns words for the most frequent errors.
fn error_words(error: u32) -> &'static str
    ensures { result.now ≡ unopened.error_words error }
{
    match error {
        98 => ": address in use",
        99 => ": not an address of this machine",
        13 => ": this user may not use the port",
        _ => "",
    }
}
