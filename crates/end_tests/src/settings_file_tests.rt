use crate::assertions::assert_equal_at;
use end_settings::Side;
use settings_file::{
    Ends, Settings, SettingsFault, Subcommand, Warning, findings, settings, warnings,
};
use std::alloc::Global;
use std::fmt::Display;
use std::test::Fail;

/// The keys that have no default.
const REQUIRED: &str =
    "id=1;peer_id=2;name='IL1';peer_name='FE1';local=['127.0.0.1:1'];remote=['127.0.0.1:2']";

/// Adds the lines of keys to a text. In keys, `;` parts the lines.
fn push_keys(text: &mut String, keys: &str) -> Result<(), Fail> {
    for line in keys.split(';') {
        text.push_str(line)?;
        text.push_str("\n")?;
    }
    Ok(())
}

/// A file, and the lines that are printed about it.
#[derive(Clone, Copy)]
struct Case<'a> {
    word: Subcommand,
    keeps: bool,
    keys: &'a str,
    said: &'a str,
}

/// Reads a line of a table, `WORD [keep] KEYS -> SAID`; `-` stands for no keys, or for no line. A table is one text, since a check takes a third
/// of a second for each text in an array.
fn case_of(line: &str) -> Result<Case<'_>, Fail> {
    let (file, said) = line.split_once(" -> ").ok_or("no arrow")?;
    let (word, rest) = file.split_once(' ').ok_or("no word")?;
    let word = match word {
        "il" => Subcommand::Il,
        "fe" => Subcommand::Fe,
        _ => Subcommand::Pair,
    };
    let kept = rest.strip_prefix("keep ");
    let keys = kept.unwrap_or(rest);
    Ok(Case {
        word,
        keeps: kept.is_some(),
        keys: if keys == "-" { "" } else { keys },
        said,
    })
}

/// Returns the text of a file. One for an end also has the required lines of keys that the case does not have; in one for both ends `$` stands
/// for them.
fn text_of(alloc: Global, case: &Case<'_>) -> Result<String, Fail> {
    let mut text = String::new(alloc);
    if case.word == Subcommand::Pair {
        for key in case.keys.split(';') {
            push_keys(&mut text, if key == "$" { REQUIRED } else { key })?;
        }
        return Ok(text);
    }
    for line in REQUIRED.split(';') {
        let name = line.split('=').next();
        if !case.keys.split(';').any(|it| it.split('=').next() == name) {
            push_keys(&mut text, line)?;
        }
    }
    push_keys(&mut text, case.keys)?;
    Ok(text)
}

/// Reads a file: `settings` without its long contract, which no test needs.
fn read(alloc: Global, word: Subcommand, text: &str) -> Result<Ends, SettingsFault> {
    settings(alloc, word, text)
}

/// What each key expects.
const FAULTS: &str = "\
il - -> -
il q=1;q=2 -> line 8: not valid TOML
il nonsense=1 -> nonsense: unknown key
il id=\"x\" -> id: expected 0 to 4294967295, found another value
il id=2 -> peer_id: expected a number other than id, found 2
il name=7 -> name: expected 1 to 20 printable ASCII characters, no space or underscore, found 7
il protocol=256 -> protocol: expected 0 to 255, found 256
il versions=[1] -> versions: not allowed here
fe versions=[1,1] -> versions: expected 1 to 4 different numbers from 0 to 255, found another value
il code=9 -> code: expected 8 or 16, found 9
il checksum='0' -> checksum: expected 0 to 16 bytes as hex digits, found another value
il iv='00' -> iv: expected 32 hex digits, found another value
il first_sn=4294967296 -> first_sn: expected 0 to 4294967295 or \"random\", found 4294967296
il remote=['a','b'] -> remote: expected 1 to 4 texts, as many in local as in remote, found another value
il n_sendmax=33 -> n_sendmax: expected 1 to 32, found 33
il n_maxpacket=4 -> n_maxpacket: expected 1 to 3, found 4
il q=9 -> q: expected 1 to 8, found 9
il t_max=60001 -> t_max: expected 100 to 60000, found 60001
il t_max=200 -> t_h: expected 10 to 199, found nothing
il t_seq=1001 -> t_seq: expected 10 to 1000, found 1001
il mwa=17 -> mwa: expected 1 to 16, found 17
il pdu_limit=99 -> pdu_limit: expected 100 to 4294901760, found 99
il puts=['0100-0a'] -> puts: expected a list of texts TYPE:HEX, found another value
pair - -> table il is missing
pair [il];$;t_h=1800;[fe];$ -> il.t_h: expected 10 to 1799, found 1800
pair [il];$;[fe];$ -> -
";

#[test]
fn names_the_key(rt: HostRuntime) -> Result<(), Fail> {
    for line in FAULTS.lines() {
        let case = case_of(line)?;
        let text = text_of(rt.alloc(), &case)?;
        let found = match read(rt.alloc(), case.word, text.as_str()) {
            Ok(_) => String::from_str(rt.alloc(), "-")?,
            Err(fault) => format!(in rt.alloc(); "{fault}")?,
        };
        assert_equal_at(&rt, line, found.as_str(), case.said);
    }
    Ok(())
}

/// Returns the texts of a list with ` / ` between them; `-` if the list is empty.
fn joined<T: Display>(alloc: Global, list: &[T]) -> Result<String, Fail> {
    let mut text = String::new(alloc);
    for it in list {
        if !text.is_empty() {
            text.push_str(" / ")?;
        }
        text.push_str(format!(in alloc; "{it}")?.as_str())?;
    }
    if text.is_empty() {
        text.push_str("-")?;
    }
    Ok(text)
}

const FINDINGS: &str = "\
il - -> -
il q==1 -> line 7: not valid TOML
il id='x';name='A_B';t_max=99;t_h=5;colour=3 -> colour: unknown key / id: expected 0 to 4294967295, found \"x\" / name: expected 1 to 20 printable ASCII characters, no space or underscore, found \"A_B\" / t_max: expected 100 to 60000, found 99
il id=2;t_max=200 -> peer_id: expected a number other than id, found 2 / t_h: expected 10 to 199, found nothing
il puts=['0100:0a','12:',7,'0100:0'] -> puts: entry 2: expected a text TYPE:HEX, found \"12:\" / puts: entry 3: expected a text TYPE:HEX, found another value / puts: entry 4: expected a text TYPE:HEX, found \"0100:0\"
il puts='0100:0a';local=[] -> local: expected 1 to 4 texts, as many in local as in remote, found another value / puts: expected a list of texts TYPE:HEX, found \"0100:0a\"
il local=['127.0.0.1:1','127.0.0.1:3'] -> remote: expected 1 to 4 texts, as many in local as in remote, found another value
pair $;pause=1 -> id: unknown key / local: unknown key / name: unknown key / pause: unknown key / peer_id: unknown key / peer_name: unknown key / remote: unknown key / table il is missing / table fe is missing
";

// All that is wrong in a file, each fault with what stands there.
#[test]
fn finds_all_that_is_wrong(rt: HostRuntime) -> Result<(), Fail> {
    for line in FINDINGS.lines() {
        let case = case_of(line)?;
        let text = text_of(rt.alloc(), &case)?;
        let found = findings(rt.alloc(), case.word, text.as_str())?;
        let told = joined(rt.alloc(), found.as_slice())?;
        assert_equal_at(&rt, line, told.as_str(), case.said);
    }
    Ok(())
}

/// Returns the settings of the end in a file for one end.
fn read_end(alloc: Global, word: Subcommand, text: &str) -> Result<Settings, Fail> {
    match read(alloc, word, text) {
        Ok(Ends::Il(settings) | Ends::Fe(settings)) => Ok(settings),
        Ok(Ends::Pair(_, _)) => Err(Fail::from("two ends")),
        Err(_) => Err(Fail::from("refused")),
    }
}

/// Limits by the rule of docs/choosing.md, for files without limits.
const FIT: &str = "n_sendmax=7;mwa=3;q=8";

const WARNINGS: &str = "\
il - -> -
il t_seq=100;t_max=100;t_h=50 -> t_seq: 100 is not below t_max 100: a part that is deferred that long is too old when it is delivered / t_max: 100 is below three t_h 50 and t_seq 100: a single loss can end the connection
il n_sendmax=2;mwa=2 -> mwa: 2 is not below n_sendmax 2: with a full window the peer waits for the next heartbeat
il n_sendmax=20 -> q: 4 is too small for n_sendmax 20 and mwa 10: what comes after one lost datagram overruns it, and the connection may end
il n_sendmax=4;mwa=3 -> -
il peer_name='IL1' -> name: equal to peer_name: telegrams do not show which end sent them
il checksum='00' -> checksum: not used: only a field element sends one
fe checksum='00' -> -
fe keep - -> first_sn: 1 holds for the first opening only: with --keep each reopening draws a number
fe keep first_sn='random' -> -
il local=['127.0.0.1:0'];remote=['[::1]:2'] -> local: entry 1: nothing can be sent to port 0 / remote: entry 1: IPv6 address, but local entry 1 is IPv4
il local=['127.0.0.1:1','127.0.0.1:1'];remote=['127.0.0.1:2','127.0.0.1:1'] -> local: entry 1: this address is in the list again / remote: entry 2: same address as local entry 2
";

/// Returns what is likely to be a mistake in a file.
fn mistakes(alloc: Global, case: &Case<'_>) -> Result<Vec<Warning>, Fail> {
    let mut text = text_of(alloc, case)?;
    if !case.keys.contains("n_sendmax=") {
        push_keys(&mut text, FIT)?;
    }
    let read = read_end(alloc, case.word, text.as_str())?;
    let side = match case.word {
        Subcommand::Fe => Side::FieldElement,
        _ => Side::Interlocking,
    };
    Ok(warnings(alloc, side, case.keeps, &read)?)
}

// What is likely to be a mistake.
#[test]
fn warns_of_mistakes(rt: HostRuntime) -> Result<(), Fail> {
    for line in WARNINGS.lines() {
        let case = case_of(line)?;
        let found = mistakes(rt.alloc(), &case)?;
        let told = joined(rt.alloc(), found.as_slice())?;
        assert_equal_at(&rt, line, told.as_str(), case.said);
    }
    Ok(())
}
