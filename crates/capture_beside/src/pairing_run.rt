//! A run over two recordings, from their readers to the output.

use crate::counts::Counts;
use crate::json::write_json;
use crate::pairing::Pairing;
use crate::recordings::{OpenRecording, Source, break_off, read_next};
use crate::sites::{Extent, Site};
use crate::text::write_lines;
use capture::{BlockContent, Ports};
use capture_text::{
    FollowStatus, Stop, foreign, name_of_foreign, read_whole, status_after, stop_at_output,
};
use std::alloc::Global;
use std::io;
use std::io::{BufReader, BufWriter, Read, Write};

/// What is asked for.
#[derive(Clone, Copy, Debug, PartialEq, Eq)]
pub struct Request<'a> {
    /// Only datagrams of these UDP ports are read.
    pub ports: Option<Ports>,
    /// The result is printed as a JSON object, not as lines.
    pub json: bool,
    /// The name of the recording here.
    pub here: &'a str,
    /// The name of the recording there.
    pub there: &'a str,
}

/// Pairs the datagrams of two recordings (pcap or pcapng), and prints what both have and how long it took.
///
/// The result goes to `out`, faults go to `err` with the name of their file. If the run stops early, the caller
/// reports why.
pub fn run<H: Read + Drop, T: Read + Drop, O: Write, E: Write>(
    alloc: Global,
    here: H,
    there: T,
    asked: &Request<'_>,
    out: &mut O,
    err: &mut E,
) -> FollowStatus {
    status_after(pair(alloc, here, there, asked, out, err))
}

/// Pairs the datagrams, prints the result, and returns how many faults there were.
fn pair<H: Read + Drop, T: Read + Drop, O: Write, E: Write>(
    alloc: Global,
    here: H,
    there: T,
    asked: &Request<'_>,
    out: &mut O,
    err: &mut E,
) -> Result<u64, Stop> {
    let mut here = open(alloc, asked.here, here, err)?;
    let mut there = open(alloc, asked.there, there, err)?;
    let mut pairing = Pairing::new(alloc);
    pair_all(
        alloc,
        &mut here,
        &mut there,
        &asked.ports,
        &mut pairing,
        err,
    )?;
    let (here, there) = (here.reading, there.reading);
    pairing.close(here.extent, there.extent);
    print(alloc, asked, &pairing, here.counts, there.counts, out)?;
    let apart = report_disjoint(&pairing, err)?;
    let left_out = report_left_out(&pairing, err)?;
    let unreadable = here
        .counts
        .unreadable
        .saturating_add(there.counts.unreadable);
    Ok(unreadable.saturating_add(apart).saturating_add(left_out))
}

/// Reads both recordings in step to their ends.
fn pair_all<H: Read + Drop, T: Read + Drop, E: Write>(
    alloc: Global,
    here: &mut Source<'_, H>,
    there: &mut Source<'_, T>,
    ports: &Option<Ports>,
    pairing: &mut Pairing,
    err: &mut E,
) -> Result<(), Stop> {
    let mut block = Vec::new(alloc);
    read_next(here, &mut block, ports, err)?;
    read_next(there, &mut block, ports, err)?;
    for _ in 0..u64::MAX {
        match pairing.turn(here.reading.next, there.reading.next) {
            None => return Ok(()),
            Some(Site::Here) => {
                meet(
                    alloc,
                    pairing,
                    Site::Here,
                    &here.reading,
                    there.reading.extent,
                )?;
                read_next(here, &mut block, ports, err)?;
            }
            Some(Site::There) => {
                meet(
                    alloc,
                    pairing,
                    Site::There,
                    &there.reading,
                    here.reading.extent,
                )?;
                read_next(there, &mut block, ports, err)?;
            }
        }
    }
    Ok(())
}

/// Reads the first bytes of a recording.
fn open<'a, R: Read + Drop, E: Write>(
    alloc: Global,
    name: &'a str,
    reader: R,
    err: &mut E,
) -> Result<Source<'a, R>, Stop> {
    let mut reader = reader;
    let mut front = [0u8; 4];
    let size = read_whole(&mut reader, &mut front)?;
    let mut reading = OpenRecording::new(name);
    match reading.recording.take(&front[..size]) {
        Ok(BlockContent::Nothing) => {}
        _ => break_off(&mut reading, why_not(front), err)?,
    }
    let reader = BufReader::new(alloc, reader).map_err(|_| Stop::Memory)?;
    Ok(Source { reader, reading })
}

/// Returns why a file is not a recording.
fn why_not(front: [u8; 4]) -> &'static str {
    match foreign(front) {
        Some(form) => name_of_foreign(form),
        None => "it is neither pcap nor pcapng",
    }
}

/// Adds the next datagram of a recording.
fn meet(
    alloc: Global,
    pairing: &mut Pairing,
    site: Site,
    reading: &OpenRecording<'_>,
    extent: Option<Extent>,
) -> Result<(), Stop> {
    match reading.next {
        None => Ok(()),
        Some(arrival) => pairing
            .arrive(alloc, site, &arrival, extent)
            .map_err(|_| Stop::Memory),
    }
}

/// Writes the result in the form that is asked for.
fn print<O: Write>(
    alloc: Global,
    asked: &Request<'_>,
    pairing: &Pairing,
    here: Counts,
    there: Counts,
    out: &mut O,
) -> Result<(), Stop> {
    let mut writer = BufWriter::new(alloc, out).map_err(|_| Stop::Memory)?;
    let written = if asked.json {
        write_json(&mut writer, pairing, here, there)
    } else {
        write_lines(&mut writer, pairing, here, there)
    };
    check(written)?;
    check(writer.flush())
}

/// Returns why a failed output stops a run.
fn check(written: io::Result<()>) -> Result<(), Stop> {
    match written {
        Ok(()) => Ok(()),
        Err(error) => Err(stop_at_output(&error)),
    }
}

/// Reports that no datagram is in both recordings, and returns 1 then.
fn report_disjoint<E: Write>(pairing: &Pairing, err: &mut E) -> Result<u64, Stop> {
    if !pairing.is_disjoint() {
        return Ok(0);
    }
    match writeln!(err, "recordings: no datagram is in both") {
        Ok(()) => Ok(1),
        Err(_) => Err(Stop::Output),
    }
}

/// Reports datagrams for which there was no room, and returns how many they are.
fn report_left_out<E: Write>(pairing: &Pairing, err: &mut E) -> Result<u64, Stop> {
    let left_out = pairing.left_out;
    if left_out == 0 {
        return Ok(0);
    }
    match writeln!(
        err,
        "datagrams: {left_out} were left out, since more than 64 pairs of addresses were recorded; choose some by --ports"
    ) {
        Ok(()) => Ok(left_out),
        Err(_) => Err(Stop::Output),
    }
}
