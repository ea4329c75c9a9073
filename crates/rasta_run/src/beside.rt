//! The subcommand `follow` with `--beside`: two recordings whose datagrams are paired.

ghost use Rattle.std.specs.Prelude.{◌≡◌, ◌≢◌};

use crate::follow::end;
use capture_beside::Request;
use rasta_words::{FollowRequest, Status};
use std::alloc::Global;
use std::io::{Read, Write};

/// Pairs the datagrams of two recordings. The result goes to `out`, faults of the recordings go to `err`. It returns
/// `Refused` if one could not be read to its end, or if no datagram is in both.
///
/// It is not inlined, so that its stack is not that of every subcommand.
#[inline(never)]
pub fn run_beside<H: Read + Drop, T: Read + Drop, O: Write, E: Write>(
    alloc: Global,
    here: H,
    there: T,
    following: &FollowRequest<'_>,
    beside: &str,
    out: &mut O,
    err: &mut E,
) -> Status
    // `run_beside` never returns `WrongWords`.
    ensures { result ≢ Status.WrongWords }
{
    let asked = request_for(following, beside);
    let ended = capture_beside::run(alloc, here, there, &asked, out, err);
    end(err, ended)
}

/// Returns the choices of `follow` in the form that `capture_beside` expects.
fn request_for<'a>(following: &FollowRequest<'a>, beside: &'a str) -> Request<'a>
    // `request_for` passes the ports and the form on.
    ensures choices { (result.ports ≡ following.now.ports) × (result.json ≡ following.now.json) }
    // `request_for` passes both names on.
    ensures names { (result.here.now ≡ following.now.file.now) × (result.there.now ≡ beside.now) }
{
    Request {
        ports: following.ports,
        json: following.json,
        here: following.file,
        there: beside,
    }
}
