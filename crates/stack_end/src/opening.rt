//! Opening an end: tests the settings, allocates all layers, and sends what is due at once.

ghost use Rattle.std.specs.Prelude.{◌≡◌, ◌≤◌, ◌↔◌, ◌%◌, ◌^◌, false, true, length, IfOk, IfErr, IsErrAnd, OnOk, OnErr};
ghost use Rattle.octets.specs.declared.limits.TheConstants.{CHANNELS_MAX, WINDOW_MAX};
ghost use Rattle.safe_machine.specs.TurnLaws.{HasMade};
ghost use Rattle.safe_machine.specs.View.{StandsFor};
ghost use Rattle.std.specs.List.{FoldsTo};
ghost use Rattle.channels.specs.ChannelHistory.{SendsOne};
ghost use Rattle.end_settings.specs.EndSettings.{are_fit, has_versions, session_of};
ghost use Rattle.end_settings.specs.ConfigValue.{settings_of, side_of};
ghost use Rattle.pdi_session.specs.declared.TheConstants.{CHECKSUM_MAX, VERSIONS_MAX};
ghost use Rattle.pdi_session.specs.Settings.{AreVersions, Field, Interlocking, addressing_of, first_version};
ghost use Rattle.pdi_session.specs.SessionStep.{new_session as session_opened};
ghost use Rattle.stack_end.specs.Datagrams.{sent_at_opening};
ghost use Rattle.stack_end.specs.Ends.{opened_end};
ghost use Rattle.stack_end.specs.Fields.{LayersRepresent, inside_of};
ghost use Rattle.stack_end.specs.LayerBounds.{KeepsLayerBounds};
ghost use Rattle.stack_end.specs.Statistics.{no_made_counts, with_made};
ghost use Rattle.stack_end.specs.declared.OpenFault.TheVariants.{BadConfig};

use crate::OpenFault;
use crate::layers::Layers;
use crate::notes::report_opened;
use crate::sender::ToChannels;
use crate::statistics::{MadeCounts, PartCounts};
use crate::upper::UpperLayers;
use arrayvec::ArrayVec;
use channels::Channels;
use end_settings::{EndConfig, Side};
use octets::{Milliseconds, copy_of};
use pdi_session::packing::{Unit, Waiting};
use pdi_session::{FieldConfig, InterlockingConfig, Parties, Session};
use red_layer::{Numbers, RedConfig, RedLayer};
use safe_machine::{Machine, MachineFault};
use std::alloc::Allocator;

/// Opens the layers of an end. On failure, the channels are returned.
pub(crate) fn open<C: Channels, A: Allocator + Copy>(
    alloc: A,
    channels: C,
    config: EndConfig,
    side: Side,
    first_sn: u32,
    now: Milliseconds,
) -> Result<Layers<C, A>, (OpenFault, C)>
    // `BadConfig` is returned if and only if the settings are invalid for the side.
    ensures bad_config { IsErrAnd result (λ e. e.0 ≡ BadConfig)
        ↔ (are_fit (side_of side) (settings_of config) ≡ false) }
    // A refused opening returns the channels as they came.
    ensures back { IfErr result (λ e. e.1 ≡ channels) }
    // The layers are in the state of a newly opened end with these settings, side, first sequence number and time.
    ensures stands { IfOk result (λ layers. LayersRepresent (inside_of layers) (opened_end side config first_sn now)) }
    // The PDUs of the opening are sent from redundancy number 0 on, each on every channel; a field element sends
    // none.
    ensures sent { IfOk result (λ layers. FoldsTo SendsOne (C.told channels)
        (sent_at_opening (opened_end side config first_sn now)) (C.told layers.upper.channels)) }
    // The new layers meet the bounds that every later call needs (`KeepsLayerBounds`).
    ensures kept { IfOk result (λ layers. KeepsLayerBounds layers) }
{
    if !config.is_fit(side) {
        return Err((OpenFault::BadConfig, channels));
    }
    let settings = RedConfig {
        q: config.q as usize,
        t_seq: config.t_seq,
    };
    let Ok(red) = RedLayer::open(alloc, settings) else {
        return Err((OpenFault::Memory, channels));
    };
    let Ok(waiting) = Waiting::new(alloc) else {
        return Err((OpenFault::Memory, channels));
    };
    let mut channels = channels;
    let mut numbers = Numbers::new();
    let mut made = MadeCounts::none();
    let Ok(machine) = open_machine(
        alloc,
        &config,
        side,
        first_sn,
        now,
        &mut channels,
        &mut numbers,
        &mut made,
    ) else {
        return Err((OpenFault::Memory, channels));
    };
    report_opened(&mut channels, machine.state());
    let upper = UpperLayers {
        channels,
        numbers,
        machine,
        session: session(&config, side),
        waiting,
        unit: Unit::new(),
        request: None,
        count: config.channels as usize,
        max: config.n_maxpacket as usize,
        t_max: config.t_max,
        accepted: 0,
        departed: None,
        made,
        parts: PartCounts::none(),
        code: config.code_length().octets(),
    };
    Ok(Layers { red, upper })
}

/// Opens the safety machine of an end and sends the PDU that it makes, if any.
fn open_machine<C: Channels, A: Allocator>(
    alloc: A,
    config: &EndConfig,
    side: Side,
    first_sn: u32,
    now: Milliseconds,
    channels: &mut C,
    numbers: &mut Numbers,
    made: &mut MadeCounts,
) -> Result<Machine<A>, MachineFault>
    requires fit { are_fit (side_of side) (settings_of config.now) ≡ true }
    requires counted { config.now.channels ≤ CHANNELS_MAX }
    requires window { config.now.n_sendmax ≤ WINDOW_MAX }
    requires first { numbers.old ≡ 0 }
    requires none { made.old ≡ no_made_counts }
    // The machine is in the state of a newly opened one with these settings.
    ensures stands { IfOk result (λ machine. StandsFor machine (opened_end side config.now first_sn now).machine) }
    // If the machine sends units in its present state, it has made the PDU that was last confirmed.
    ensures has_made { IfOk result (λ machine. HasMade machine) }
    // A new machine expects the PDU of the peer with index 0.
    ensures near { IfOk result (λ machine. machine.expected ≡ 0) }
    // The PDUs that the machine makes when it is opened are sent from redundancy number 0 on, each on every channel.
    ensures sent { OnOk result (FoldsTo SendsOne (C.told channels.old)
        (sent_at_opening (opened_end side config.now first_sn now)) (C.told channels.new)) }
    // The next redundancy number is the number of PDUs made so far, modulo 2^32.
    ensures numbered { OnOk result
        (numbers.new ≡ length (opened_end side config.now first_sn now).machine.made % 2 ^ 32) }
    // The PDUs made so far are counted.
    ensures made { OnOk result (made.new ≡ with_made (opened_end side config.now first_sn now).machine.made no_made_counts) }
    // If the machine cannot be opened, the channels are unchanged.
    ensures nothing { OnErr result (channels.new ≡ channels.old) }
{
    let mut out = ToChannels {
        channels,
        numbers,
        made,
        count: config.channels as usize,
    };
    let role = side.role();
    match Machine::open(alloc, config.machine(), role, first_sn, now, &mut out) {
        Ok(machine) => Ok(machine),
        Err(fault) => Err(fault),
    }
}

/// Creates the session of an end with these settings.
fn session(config: &EndConfig, side: Side) -> Session
    requires { has_versions (side_of side) (settings_of config.now) ≡ true }
    ensures { result ≡ session_opened (settings_of config.now).addressing
        (session_of (side_of side) (settings_of config.now)) }
{
    let parties = Parties {
        protocol: config.protocol,
        own: config.name,
        peer: config.peer_name,
    };
    match side {
        Side::Interlocking => interlocking(parties, config.versions.as_slice()),
        Side::FieldElement => field(
            parties,
            config.versions.as_slice(),
            config.checksum.as_slice(),
        ),
    }
}

/// Creates the session of an interlocking, which uses the first of its versions.
fn interlocking(parties: Parties, versions: &[u8]) -> Session
    ensures { result ≡ session_opened (addressing_of parties) (Interlocking (first_version versions.now)) }
{
    let version = match versions {
        [] => 0,
        [version, ..] => *version,
    };
    Session::interlocking(InterlockingConfig { parties, version })
}

/// Creates the session of a field element.
fn field(parties: Parties, versions: &[u8], checksum: &[u8]) -> Session
    requires versions { AreVersions versions.now }
    requires few { length versions.now ≤ VERSIONS_MAX }
    requires short { length checksum.now ≤ CHECKSUM_MAX }
    ensures { result ≡ session_opened (addressing_of parties) (Field versions.now checksum.now) }
{
    Session::field(FieldConfig {
        parties,
        versions: copy_of(versions),
        checksum: copy_of(checksum),
    })
}
