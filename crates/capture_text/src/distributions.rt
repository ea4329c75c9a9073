//! The distributions of a connection, as lines and as JSON.

ghost use Rattle.std.specs.Prelude.{◌≡◌, OnOk};
ghost use Rattle.std.specs.Io.KnownBytes.{Appends};
ghost use Rattle.capture_text.specs.Distributions.{after_mark, bracket_json, count_sum, counts_text, distribution_json, distribution_text, measurements_json, measurements_text, number_text, sum_with};

use crate::pieces::write_ends;
use capture::{Distribution, Measurements, class};
use pdu_text::write_text;
use std::io;
use std::io::Write;

/// Writes a line for each distribution of an end; `ends` are the sender and the receiver.
#[tactic(auto, unfolding(crate::specs::Distributions::measurements_text))]
pub(crate) fn write_measured<W: Write>(
    writer: &mut W,
    ends: (u32, u32),
    measured: &Measurements,
) -> io::Result<()>
    ensures { OnOk result (Appends (W.contents writer.old) (W.contents writer.new)
        (measurements_text ends.0 ends.1 measured.now)) }
{
    write_distribution(writer, ends, " round trip ", &measured.round_trips)?;
    write_distribution(writer, ends, " skew ", &measured.skews)?;
    write_distribution(writer, ends, " silence ", &measured.silences)?;
    write_distribution(writer, ends, " waits ", &measured.waits)?;
    Ok(())
}

/// Writes the line of a distribution.
#[tactic(auto, unfolding(crate::specs::Distributions::distribution_text))]
fn write_distribution<W: Write>(
    writer: &mut W,
    ends: (u32, u32),
    name: &str,
    distribution: &Distribution,
) -> io::Result<()>
    ensures { OnOk result (Appends (W.contents writer.old) (W.contents writer.new)
        (distribution_text ends.0 ends.1 name.now distribution.now)) }
{
    let used = class(distribution.greatest) + 1;
    write_text(writer, "times ")?;
    write_ends(writer, ends.0, ends.1)?;
    write_text(writer, name)?;
    write_number(writer, distribution)?;
    write_counts(writer, " ", &distribution.counts[..used])?;
    write_text(writer, "\n")?;
    Ok(())
}

/// Writes how many values there are, and the greatest one.
#[tactic(auto, unfolding(crate::specs::Distributions::number_text))]
fn write_number<W: Write>(writer: &mut W, distribution: &Distribution) -> io::Result<()>
    ensures { OnOk result (Appends (W.contents writer.old) (W.contents writer.new)
        (number_text distribution.now)) }
{
    let number = number(distribution);
    let greatest = distribution.greatest;
    write!(
        writer,
        "{number} greatest {greatest} ms, below 1, 2, 4, .. ms:"
    )
}

/// Returns how many values a distribution has.
fn number(distribution: &Distribution) -> u64
    ensures { result ≡ count_sum distribution.now }
{
    distribution
        .counts
        .iter()
        .fold(0, |sum, count| add_count(sum, *count))
}

/// Adds a count to a sum.
fn add_count(sum: u64, count: u32) -> u64
    ensures { result ≡ sum_with sum count }
{
    sum.saturating_add(count as u64)
}

/// Writes counts, each after a mark.
fn write_counts<W: Write>(writer: &mut W, mark: &str, counts: &[u32]) -> io::Result<()>
    ensures { OnOk result (Appends (W.contents writer.old) (W.contents writer.new)
        (counts_text mark.now counts.now)) }
{
    for count in counts {
        write_count(writer, mark, *count)?;
    }
    Ok(())
}

/// Writes a count after a mark.
#[tactic(auto, unfolding(crate::specs::Distributions::after_mark))]
fn write_count<W: Write>(writer: &mut W, mark: &str, count: u32) -> io::Result<()>
    ensures { OnOk result (Appends (W.contents writer.old) (W.contents writer.new)
        (after_mark mark.now count)) }
{
    write!(writer, "{mark}{count}")
}

/// Writes the distributions of an end as an object.
#[tactic(auto, unfolding(crate::specs::Distributions::measurements_json))]
pub(crate) fn write_measured_json<W: Write>(
    writer: &mut W,
    measured: &Measurements,
) -> io::Result<()>
    ensures { OnOk result (Appends (W.contents writer.old) (W.contents writer.new)
        (measurements_json measured.now)) }
{
    write_distribution_json(writer, "{\"round_trip\":", &measured.round_trips)?;
    write_distribution_json(writer, ",\"skew\":", &measured.skews)?;
    write_distribution_json(writer, ",\"silence\":", &measured.silences)?;
    write_distribution_json(writer, ",\"waits\":", &measured.waits)?;
    write_text(writer, "}")?;
    Ok(())
}

/// Writes a distribution as a member with this name.
#[tactic(auto, unfolding(crate::specs::Distributions::distribution_json))]
fn write_distribution_json<W: Write>(
    writer: &mut W,
    name: &str,
    distribution: &Distribution,
) -> io::Result<()>
    ensures { OnOk result (Appends (W.contents writer.old) (W.contents writer.new)
        (distribution_json name.now distribution.now)) }
{
    write_text(writer, name)?;
    write_greatest_json(writer, distribution.greatest, distribution.counts[0])?;
    write_counts(writer, ",", &distribution.counts[1..])?;
    write_text(writer, "]}")?;
    Ok(())
}

/// Writes the greatest value, and begins the list of counts.
#[tactic(auto, unfolding(crate::specs::Distributions::bracket_json))]
fn write_greatest_json<W: Write>(writer: &mut W, greatest: u32, first: u32) -> io::Result<()>
    ensures { OnOk result (Appends (W.contents writer.old) (W.contents writer.new)
        (bracket_json greatest first)) }
{
    write!(writer, "{{\"greatest\":{greatest},\"counts\":[{first}")
}
