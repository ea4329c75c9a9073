//! The two tables of the session: what each end decides, by its phase.

ghost use Rattle.std.specs.Prelude.{◌≡◌};
ghost use Rattle.pdi_session.specs.Tables.{field_table, field_up, interlocking_table, interlocking_up};
ghost use Rattle.pdi_session.specs.Settings.{first_version};

use super::{Form, Notice, Phase, SessionDetail, Verdict};

/// Returns the decision of an interlocking when the connection comes up.
pub(crate) fn interlocking_up(own: u8, phase: Phase) -> Verdict
    ensures { result ≡ interlocking_up own phase }
{
    match phase {
        Phase::Idle => Verdict::Answers(Phase::Checking, Notice::VersionCheck(own)),
        _ => Verdict::Goes(phase),
    }
}

/// Returns the decision of a field element when the connection comes up.
pub(crate) fn field_up(phase: Phase) -> Verdict
    ensures { result ≡ field_up phase }
{
    match phase {
        Phase::Idle => Verdict::Goes(Phase::AwaitCheck),
        _ => Verdict::Goes(phase),
    }
}

/// Returns the decision of an interlocking on a telegram.
pub(crate) fn interlocking_verdict(own: u8, phase: Phase, form: Form) -> Verdict
    ensures { result ≡ interlocking_table own phase form }
{
    match (phase, form) {
        (Phase::Checking, Form::Notifies(Notice::VersionEqual(version))) => {
            if version == own {
                Verdict::Answers(Phase::Requesting, Notice::InitialisationRequest)
            } else {
                Verdict::Ends(SessionDetail::OutOfOrder)
            }
        }
        (Phase::Checking, Form::Notifies(Notice::VersionDiffers(_))) => {
            Verdict::Ends(SessionDetail::VersionDiffers)
        }
        (Phase::Requesting, Form::Notifies(Notice::StartInitialisation)) => {
            Verdict::Goes(Phase::Initialising)
        }
        (Phase::Initialising | Phase::Established, Form::Item) => Verdict::Takes,
        (Phase::Initialising, Form::Notifies(Notice::InitialisationCompleted)) => {
            Verdict::Goes(Phase::Established)
        }
        _ => Verdict::Ends(SessionDetail::OutOfOrder),
    }
}

/// Returns the decision of a field element on a telegram.
pub(crate) fn field_verdict(versions: &[u8], phase: Phase, form: Form) -> Verdict
    ensures { result ≡ field_table versions.now phase form }
{
    match (phase, form) {
        (Phase::AwaitCheck, Form::Notifies(Notice::VersionCheck(version))) => {
            if versions.contains(&version) {
                Verdict::Answers(Phase::AwaitRequest, Notice::VersionEqual(version))
            } else {
                Verdict::Answers(
                    Phase::Refused,
                    Notice::VersionDiffers(first_version(versions)),
                )
            }
        }
        (Phase::AwaitRequest, Form::Notifies(Notice::InitialisationRequest)) => {
            Verdict::Answers(Phase::Initialising, Notice::StartInitialisation)
        }
        (Phase::Established, Form::Item) => Verdict::Takes,
        _ => Verdict::Ends(SessionDetail::OutOfOrder),
    }
}

/// Returns the version that a field element names in reply to one that it does not have.
fn first_version(versions: &[u8]) -> u8
    ensures { result ≡ first_version versions.now }
{
    match versions {
        [version, ..] => *version,
        [] => 0,
    }
}
