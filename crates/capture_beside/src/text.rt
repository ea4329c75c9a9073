//! The result as lines.

ghost use Rattle.std.specs.Prelude.{◌≡◌, ◌++◌, codes, OnOk};
ghost use Rattle.std.specs.Io.KnownBytes.{Appends};
ghost use Rattle.capture_beside.specs.Pairs.{origin_of};
ghost use Rattle.capture_beside.specs.Text.{counts_text, ends_text, later_text, lines_text, longer_text, origin_text, outside_text, pairs_text, signed_text, spread_text, durations_text, way_text, ways_text};

use crate::counts::Counts;
use crate::delays::Spread;
use crate::pairing::{Pairing, origin};
use crate::sites::{EVEN, Site};
use crate::sums::Sums;
use crate::way::Way;
use capture_text::{write_address, write_duration};
use pdu_text::write_text;
use std::io;
use std::io::Write;

/// Writes a line for each way, then one for each recording.
#[tactic(auto, unfolding(crate::specs::Text::lines_text))]
pub(crate) fn write_lines<W: Write>(
    writer: &mut W,
    pairing: &Pairing,
    here: Counts,
    there: Counts,
) -> io::Result<()>
    ensures { OnOk result (Appends (W.contents writer.old) (W.contents writer.new)
        (lines_text pairing.now.ways.items here there)) }
{
    write_ways(writer, pairing.ways.as_slice())?;
    write_counts(writer, "here", here)?;
    write_counts(writer, "there", there)
}

/// Writes a line for each way.
fn write_ways<W: Write>(writer: &mut W, ways: &[Way]) -> io::Result<()>
    ensures { OnOk result (Appends (W.contents writer.old) (W.contents writer.new) (ways_text ways.now)) }
{
    for way in ways {
        write_way(writer, ways, way)?;
    }
    Ok(())
}

/// Writes the line of a way.
#[tactic(auto, unfolding(crate::specs::Text::way_text))]
fn write_way<W: Write>(writer: &mut W, ways: &[Way], way: &Way) -> io::Result<()>
    ensures { OnOk result (Appends (W.contents writer.old) (W.contents writer.new)
        (way_text (origin_of ways.now way.now) way.now)) }
{
    let origin = origin(ways, way);
    write_ends(writer, way)?;
    write_text(writer, name_of_origin(origin))?;
    write_sums(writer, way.sums)?;
    write_spread(writer, way.delays.spread(origin, way.sums.both))
}

/// Writes the addresses of a way.
#[tactic(auto, unfolding(crate::specs::Text::ends_text))]
fn write_ends<W: Write>(writer: &mut W, way: &Way) -> io::Result<()>
    ensures { OnOk result (Appends (W.contents writer.old) (W.contents writer.new) (ends_text way.now)) }
{
    write_address(writer, way.source)?;
    write_text(writer, "->")?;
    write_address(writer, way.destination)
}

/// Writes the counts of a way.
fn write_sums<W: Write>(writer: &mut W, sums: Sums) -> io::Result<()>
    ensures { OnOk result (Appends (W.contents writer.old) (W.contents writer.new) (pairs_text sums ++ outside_text sums)) }
{
    write_pairs(writer, sums)?;
    write_outside(writer, sums)
}

/// Returns the words for the site of a sender.
fn name_of_origin(origin: Option<Site>) -> &'static str
    ensures { result.now ≡ origin_text origin }
{
    match origin {
        None => " from unknown",
        Some(Site::Here) => " from here",
        Some(Site::There) => " from there",
    }
}

/// Writes how many datagrams of a way which recording has.
#[tactic(auto, unfolding(crate::specs::Text::pairs_text))]
fn write_pairs<W: Write>(writer: &mut W, sums: Sums) -> io::Result<()>
    ensures { OnOk result (Appends (W.contents writer.old) (W.contents writer.new) (pairs_text sums)) }
{
    let both = sums.both;
    let here = sums.here.alone;
    let there = sums.there.alone;
    let reordered = sums.reordered;
    write!(
        writer,
        " both {both} only here {here} only there {there} reordered {reordered}"
    )
}

/// Writes how many datagrams of a way are outside of the other recording.
#[tactic(auto, unfolding(crate::specs::Text::outside_text))]
fn write_outside<W: Write>(writer: &mut W, sums: Sums) -> io::Result<()>
    ensures { OnOk result (Appends (W.contents writer.old) (W.contents writer.new) (outside_text sums)) }
{
    let here = sums.here.outside;
    let there = sums.there.outside;
    write!(writer, " outside here {here} there {there}")
}

/// Writes how long the datagrams of a way took, if there is a pair, and ends the line.
fn write_spread<W: Write>(writer: &mut W, spread: Option<Spread>) -> io::Result<()>
    ensures { OnOk result (Appends (W.contents writer.old) (W.contents writer.new) (spread_text spread)) }
{
    match spread {
        None => write_text(writer, "\n"),
        Some(spread) => {
            write_times(writer, spread)?;
            write_text(writer, "\n")
        }
    }
}

/// Writes how long the datagrams of a way took.
#[tactic(auto, unfolding(crate::specs::Text::durations_text))]
fn write_times<W: Write>(writer: &mut W, spread: Spread) -> io::Result<()>
    ensures { OnOk result (Appends (W.contents writer.old) (W.contents writer.new) (durations_text spread)) }
{
    write_least(writer, spread.least)?;
    write_longer(writer, spread)
}

/// Writes how much longer some datagrams took.
#[tactic(auto, unfolding(crate::specs::Text::longer_text))]
fn write_longer<W: Write>(writer: &mut W, spread: Spread) -> io::Result<()>
    ensures { OnOk result (Appends (W.contents writer.old) (W.contents writer.new) (longer_text spread)) }
{
    write_later(writer, " median +", spread.median)?;
    write_later(writer, " 99% +", spread.most)?;
    write_later(writer, " greatest +", spread.greatest)
}

/// Writes the difference of the fastest one.
fn write_least<W: Write>(writer: &mut W, difference: u64) -> io::Result<()>
    ensures { OnOk result (Appends (W.contents writer.old) (W.contents writer.new)
        (codes " least " ++ signed_text difference)) }
{
    write_text(writer, " least ")?;
    write_signed(writer, difference)
}

/// Writes how much longer some took, behind a word.
#[tactic(auto, unfolding(crate::specs::Text::later_text))]
fn write_later<W: Write>(writer: &mut W, word: &str, micros: u64) -> io::Result<()>
    ensures { OnOk result (Appends (W.contents writer.old) (W.contents writer.new) (later_text word.now micros)) }
{
    write_text(writer, word)?;
    write_duration(writer, micros)
}

/// Writes a difference of times as seconds with its sign.
fn write_signed<W: Write>(writer: &mut W, difference: u64) -> io::Result<()>
    ensures { OnOk result (Appends (W.contents writer.old) (W.contents writer.new) (signed_text difference)) }
{
    if difference < EVEN {
        write_text(writer, "-")?;
        return write_duration(writer, EVEN - difference);
    }
    write_text(writer, "+")?;
    write_duration(writer, difference - EVEN)
}

/// Writes what was read of a recording.
#[tactic(auto, unfolding(crate::specs::Text::counts_text))]
fn write_counts<W: Write>(writer: &mut W, name: &str, counts: Counts) -> io::Result<()>
    ensures { OnOk result (Appends (W.contents writer.old) (W.contents writer.new) (counts_text name.now counts)) }
{
    let datagrams = counts.datagrams;
    let strange = counts.strange;
    let unreadable = counts.unreadable;
    let frames = counts.frames;
    writeln!(
        writer,
        "sum {name}: datagrams {datagrams} not RaSTA {strange} unreadable {unreadable} frames {frames}"
    )
}
