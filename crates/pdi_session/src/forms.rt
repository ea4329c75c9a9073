//! The meaning of a telegram by its message type and payload.

ghost use Rattle.std.specs.Prelude.{◌≡◌};
ghost use Rattle.pdi_session.specs.Telegrams.{answer_form, bare_form, check_form, form_of, is_reserved, result_form};

use super::{
    CHECKSUM_MAX, DIFFERENT, EQUAL, Form, INITIALISATION_COMPLETED, INITIALISATION_REQUEST, Notice,
    START_INITIALISATION, VERSION_ANSWER, VERSION_CHECK,
};
use crate::MessageType;

/// Returns true if a message type is one of the five of the establishment.
pub(crate) fn is_reserved(kind: MessageType) -> bool
    ensures { result ≡ is_reserved kind }
{
    kind == VERSION_CHECK
        || kind == VERSION_ANSWER
        || kind == INITIALISATION_REQUEST
        || kind == START_INITIALISATION
        || kind == INITIALISATION_COMPLETED
}

/// Returns the form of a version check's payload.
fn check_form(payload: &[u8]) -> Form
    ensures { result ≡ check_form payload.now }
{
    match payload {
        [version] => Form::Notifies(Notice::VersionCheck(*version)),
        _ => Form::OtherPayload,
    }
}

/// Returns the form of a reply with this result and version.
fn result_form(answer: u8, version: u8) -> Form
    ensures { result ≡ result_form answer version }
{
    if answer == EQUAL {
        Form::Notifies(Notice::VersionEqual(version))
    } else if answer == DIFFERENT {
        Form::Notifies(Notice::VersionDiffers(version))
    } else {
        Form::OtherPayload
    }
}

/// Returns the form of a reply's payload.
fn answer_form(payload: &[u8]) -> Form
    ensures { result ≡ answer_form payload.now }
{
    let [answer, version, size, checksum @ ..] = payload else {
        return Form::OtherPayload;
    };
    let size = *size as usize;
    if size <= CHECKSUM_MAX && checksum.len() == size {
        result_form(*answer, *version)
    } else {
        Form::OtherPayload
    }
}

/// Returns the form of a telegram that must not have a payload.
fn bare_form(notice: Notice, payload: &[u8]) -> Form
    ensures { result ≡ bare_form notice payload.now }
{
    if payload.is_empty() {
        Form::Notifies(notice)
    } else {
        Form::OtherPayload
    }
}

/// Returns the form of a telegram.
pub(crate) fn form_of(kind: MessageType, payload: &[u8]) -> Form
    ensures { result ≡ form_of kind payload.now }
{
    match kind {
        VERSION_CHECK => check_form(payload),
        VERSION_ANSWER => answer_form(payload),
        INITIALISATION_REQUEST => bare_form(Notice::InitialisationRequest, payload),
        START_INITIALISATION => bare_form(Notice::StartInitialisation, payload),
        INITIALISATION_COMPLETED => bare_form(Notice::InitialisationCompleted, payload),
        _ => Form::Item,
    }
}
