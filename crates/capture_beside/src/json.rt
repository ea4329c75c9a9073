//! The result as one JSON object.

ghost use Rattle.std.specs.Prelude.{◌≡◌, ◌++◌, codes, OnOk};
ghost use Rattle.std.specs.Io.KnownBytes.{Appends};
ghost use Rattle.capture_beside.specs.Pairs.{origin_of};
ghost use Rattle.capture_beside.specs.Json.{counts_json, end_json, ends_json, later_json, left_out_json, next_way_json, more_json, object_json, origin_json, outside_json, pairs_json, read_json, signed_json, spread_json, durations_json, way_json, ways_json};

use crate::counts::Counts;
use crate::delays::Spread;
use crate::pairing::{Pairing, origin};
use crate::sites::{EVEN, Site};
use crate::sums::Sums;
use crate::way::Way;
use capture::Address;
use capture_text::write_address;
use pdu_text::write_text;
use std::io;
use std::io::Write;

/// Writes the counts of both recordings and all ways as one line.
#[tactic(auto, unfolding(crate::specs::Json::object_json))]
pub(crate) fn write_json<W: Write>(
    writer: &mut W,
    pairing: &Pairing,
    here: Counts,
    there: Counts,
) -> io::Result<()>
    ensures { OnOk result (Appends (W.contents writer.old) (W.contents writer.new)
        (object_json pairing.now.left_out pairing.now.ways.items here there)) }
{
    write_read(writer, here, there)?;
    write_left_out(writer, pairing.left_out)?;
    write_ways(writer, pairing.ways.as_slice())?;
    write_text(writer, "]}\n")
}

/// Writes what was read of both recordings.
#[tactic(auto, unfolding(crate::specs::Json::read_json))]
fn write_read<W: Write>(writer: &mut W, here: Counts, there: Counts) -> io::Result<()>
    ensures { OnOk result (Appends (W.contents writer.old) (W.contents writer.new) (read_json here there)) }
{
    write_text(writer, "{\"here\":")?;
    write_counts(writer, here)?;
    write_text(writer, ",\"there\":")?;
    write_counts(writer, there)
}

/// Writes how many datagrams were left out, and opens the list of ways.
#[tactic(auto, unfolding(crate::specs::Json::left_out_json))]
fn write_left_out<W: Write>(writer: &mut W, left_out: u64) -> io::Result<()>
    ensures { OnOk result (Appends (W.contents writer.old) (W.contents writer.new) (left_out_json left_out)) }
{
    write!(writer, ",\"left_out\":{left_out},\"ways\":[")
}

/// Writes what was read of a recording.
#[tactic(auto, unfolding(crate::specs::Json::counts_json))]
fn write_counts<W: Write>(writer: &mut W, counts: Counts) -> io::Result<()>
    ensures { OnOk result (Appends (W.contents writer.old) (W.contents writer.new) (counts_json counts)) }
{
    let datagrams = counts.datagrams;
    let strange = counts.strange;
    let unreadable = counts.unreadable;
    let frames = counts.frames;
    write!(
        writer,
        "{{\"datagrams\":{datagrams},\"not_rasta\":{strange},\"unreadable\":{unreadable},\"frames\":{frames}}}"
    )
}

/// Writes the objects of all ways, separated by commas.
fn write_ways<W: Write>(writer: &mut W, ways: &[Way]) -> io::Result<()>
    ensures { OnOk result (Appends (W.contents writer.old) (W.contents writer.new) (ways_json ways.now)) }
{
    match ways {
        [] => Ok(()),
        [first, rest @ ..] => {
            write_way(writer, ways, first)?;
            write_more(writer, ways, rest)
        }
    }
}

/// Writes the objects of further ways, each after a comma.
fn write_more<W: Write>(writer: &mut W, ways: &[Way], rest: &[Way]) -> io::Result<()>
    ensures { OnOk result (Appends (W.contents writer.old) (W.contents writer.new) (more_json ways.now rest.now)) }
{
    for way in rest {
        write_listed(writer, ways, way)?;
    }
    Ok(())
}

/// Writes the object of a way after a comma.
#[tactic(auto, unfolding(crate::specs::Json::next_way_json))]
fn write_listed<W: Write>(writer: &mut W, ways: &[Way], way: &Way) -> io::Result<()>
    ensures { OnOk result (Appends (W.contents writer.old) (W.contents writer.new) (next_way_json ways.now way.now)) }
{
    write_text(writer, ",")?;
    write_way(writer, ways, way)
}

/// Writes the object of a way.
#[tactic(auto, unfolding(crate::specs::Json::way_json))]
fn write_way<W: Write>(writer: &mut W, ways: &[Way], way: &Way) -> io::Result<()>
    ensures { OnOk result (Appends (W.contents writer.old) (W.contents writer.new)
        (way_json (origin_of ways.now way.now) way.now)) }
{
    let origin = origin(ways, way);
    write_ends(writer, way)?;
    write_text(writer, name_of_origin(origin))?;
    write_sums(writer, way.sums)?;
    write_spread(writer, way.delays.spread(origin, way.sums.both))
}

/// Writes the addresses of a way, and opens its object.
#[tactic(auto, unfolding(crate::specs::Json::ends_json))]
fn write_ends<W: Write>(writer: &mut W, way: &Way) -> io::Result<()>
    ensures { OnOk result (Appends (W.contents writer.old) (W.contents writer.new) (ends_json way.now)) }
{
    write_end(writer, "{\"source\":\"", way.source)?;
    write_end(writer, "\",\"destination\":\"", way.destination)
}

/// Writes an address, with a text before it.
#[tactic(auto, unfolding(crate::specs::Json::end_json))]
fn write_end<W: Write>(writer: &mut W, front: &str, address: Address) -> io::Result<()>
    ensures { OnOk result (Appends (W.contents writer.old) (W.contents writer.new) (end_json front.now address)) }
{
    write_text(writer, front)?;
    write_address(writer, address)
}

/// Returns the member of the site of a sender, behind the addresses.
fn name_of_origin(origin: Option<Site>) -> &'static str
    ensures { result.now ≡ origin_json origin }
{
    match origin {
        None => "\",\"from\":null",
        Some(Site::Here) => "\",\"from\":\"here\"",
        Some(Site::There) => "\",\"from\":\"there\"",
    }
}

/// Writes the counts of a way.
fn write_sums<W: Write>(writer: &mut W, sums: Sums) -> io::Result<()>
    ensures { OnOk result (Appends (W.contents writer.old) (W.contents writer.new) (pairs_json sums ++ outside_json sums)) }
{
    write_pairs(writer, sums)?;
    write_outside(writer, sums)
}

/// Writes how many datagrams of a way which recording has.
#[tactic(auto, unfolding(crate::specs::Json::pairs_json))]
fn write_pairs<W: Write>(writer: &mut W, sums: Sums) -> io::Result<()>
    ensures { OnOk result (Appends (W.contents writer.old) (W.contents writer.new) (pairs_json sums)) }
{
    let both = sums.both;
    let here = sums.here.alone;
    let there = sums.there.alone;
    let reordered = sums.reordered;
    write!(
        writer,
        ",\"both\":{both},\"only_here\":{here},\"only_there\":{there},\"reordered\":{reordered}"
    )
}

/// Writes how many datagrams of a way are outside of the other recording.
#[tactic(auto, unfolding(crate::specs::Json::outside_json))]
fn write_outside<W: Write>(writer: &mut W, sums: Sums) -> io::Result<()>
    ensures { OnOk result (Appends (W.contents writer.old) (W.contents writer.new) (outside_json sums)) }
{
    let here = sums.here.outside;
    let there = sums.there.outside;
    write!(writer, ",\"outside_here\":{here},\"outside_there\":{there}")
}

/// Writes how long the datagrams of a way took, and closes its object.
fn write_spread<W: Write>(writer: &mut W, spread: Option<Spread>) -> io::Result<()>
    ensures { OnOk result (Appends (W.contents writer.old) (W.contents writer.new) (spread_json spread)) }
{
    match spread {
        None => write_text(
            writer,
            ",\"least\":null,\"median\":null,\"most\":null,\"greatest\":null}",
        ),
        Some(spread) => write_times(writer, spread),
    }
}

/// Writes how long the datagrams of a way took in microseconds, and closes its object.
#[tactic(auto, unfolding(crate::specs::Json::durations_json))]
fn write_times<W: Write>(writer: &mut W, spread: Spread) -> io::Result<()>
    ensures { OnOk result (Appends (W.contents writer.old) (W.contents writer.new) (durations_json spread)) }
{
    write_text(writer, ",\"least\":")?;
    write_signed(writer, spread.least)?;
    write_later(writer, spread)
}

/// Writes how much longer some datagrams took, and closes the object.
#[tactic(auto, unfolding(crate::specs::Json::later_json))]
fn write_later<W: Write>(writer: &mut W, spread: Spread) -> io::Result<()>
    ensures { OnOk result (Appends (W.contents writer.old) (W.contents writer.new) (later_json spread)) }
{
    let median = spread.median;
    let most = spread.most;
    let greatest = spread.greatest;
    write!(
        writer,
        ",\"median\":{median},\"most\":{most},\"greatest\":{greatest}}}"
    )
}

/// Writes a difference of times in microseconds.
fn write_signed<W: Write>(writer: &mut W, difference: u64) -> io::Result<()>
    ensures { OnOk result (Appends (W.contents writer.old) (W.contents writer.new) (signed_json difference)) }
{
    if difference < EVEN {
        let early = EVEN - difference;
        return write!(writer, "-{early}");
    }
    let late = difference - EVEN;
    write!(writer, "{late}")
}
