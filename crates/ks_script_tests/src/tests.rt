//! What is read and written, what is refused, and which line is named.

use ks_history::{Op, Reply};
use ks_lines::{Line, Said};
use ks_script::*;
use std::alloc::{AllocError, Global};
use std::process::Abort;
use std::test::*;

mod scans;

/// Whether a script is refused at this line, for this reason.
fn is_refused(alloc: Global, text: &[u8], line: u64, why: Reason) -> bool {
    read_script(alloc, text).err() == Some(TextFault::Refused { line, why })
}

/// Whether a script with its run is refused at this line, for this reason.
fn is_refused_in_check(alloc: Global, text: &[u8], line: u64, why: Reason) -> bool {
    read_checked(alloc, text).err() == Some(TextFault::Refused { line, why })
}

/// Each script is refused, at its line and for its reason.
fn are_refused(rt: &impl Abort, alloc: Global, rows: &[(&str, u64, Reason)]) {
    for (text, line, why) in rows {
        assert!(rt; is_refused(alloc, text.as_bytes(), *line, *why), "{text:?}");
    }
}

/// Each script with its run is refused, at its line and for its reason.
fn are_refused_in_check(rt: &impl Abort, alloc: Global, rows: &[(&str, u64, Reason)]) {
    for (text, line, why) in rows {
        assert!(rt;
            is_refused_in_check(alloc, text.as_bytes(), *line, *why),
            "{text:?}"
        );
    }
}

/// Whether these are the lines.
fn has_lines(calls: &Calls, lines: &[Line]) -> bool {
    for (at, line) in lines.iter().enumerate() {
        if at >= calls.len() || calls.get(at) != *line {
            return false;
        }
    }
    calls.len() == lines.len()
}

/// Whether a script is read, as one caller with these lines.
fn is_read(alloc: Global, text: &[u8], lines: &[Line]) -> bool {
    let Ok(script) = read_script(alloc, text) else {
        return false;
    };
    for calls in &script.callers {
        if !has_lines(calls, lines) {
            return false;
        }
    }
    script.callers.len() == 1
}

/// Each script is read, as one caller with these lines.
fn are_read(rt: &impl Abort, alloc: Global, rows: &[(&str, &[Line])]) {
    for (text, lines) in rows {
        assert!(rt; is_read(alloc, text.as_bytes(), lines), "{text:?}");
    }
}

/// Whether each line is of a call, and these are their numbers and replies.
fn has_replies(lines: &Replies, replies: &[(u64, Reply)]) -> bool {
    for (at, reply) in replies.iter().enumerate() {
        if at >= lines.len() {
            return false;
        }
        match lines.scan_at(at) {
            Some(_) => return false,
            None => {
                if lines.number_at(at) != reply.0 || lines.call_at(at) != *reply {
                    return false;
                }
            }
        }
    }
    lines.len() == replies.len()
}

/// A script of one caller and its run are read: these are the replies, and the pairs of the map.
fn is_read_in_check(
    rt: &impl Abort,
    alloc: Global,
    text: &str,
    replies: &[(u64, Reply)],
    pairs: &[(u64, u128)],
) -> Result<(), Fail> {
    let (script, printed) = read_checked(alloc, text.as_bytes())
        .ok()
        .ok_or("it is a script and a run")?;
    assert_eq!(rt; script.callers.len(), 1);
    assert_eq!(rt; printed.callers.len(), 1);
    for lines in &printed.callers {
        assert!(rt; has_replies(lines, replies));
    }
    assert_eq!(rt; printed.pairs.as_slice(), pairs);
    Ok(())
}

/// Scripts whose last line no byte 10 ends.
const WITHOUT_END: [(&str, &[Line]); 1] = [("caller\nget 1", &[Line::Call(Op::Get(1))])];

#[test]
fn a_script_is_read_without_its_last_end(rt: HostRuntime) {
    are_read(&rt, rt.alloc(), &WITHOUT_END);
}

/// Lines of no script, each with the number of the line.
const NO_LINES: [(&str, u64, Reason); 16] = [
    ("caller\nput  1 2\n", 2, Reason::NoNumber),
    ("caller\nput 1\n", 2, Reason::MissingWord),
    ("caller\nput\n", 2, Reason::MissingWord),
    ("caller\nget 1 \n", 2, Reason::ExtraWord),
    ("caller\nget 1 2 03\n", 2, Reason::ExtraWord),
    ("caller 0\n", 1, Reason::ExtraWord),
    ("caller\n\n", 2, Reason::UnknownWord),
    ("caller\n put 1 2\n", 2, Reason::UnknownWord),
    ("caller\nget -1\n", 2, Reason::NoNumber),
    ("caller\nget 00\n", 2, Reason::NoNumber),
    ("caller\nget 1\r\n", 2, Reason::NoNumber),
    (
        "caller\nput 01 18446744073709551616 5\n",
        2,
        Reason::NoNumber,
    ),
    (
        "caller\nput 1 18446744073709551616\n",
        2,
        Reason::OutOfRange,
    ),
    (
        "caller\nput 18446744073709551616 x\n",
        2,
        Reason::OutOfRange,
    ),
    ("put 1 2\ncaller\n", 1, Reason::NoCaller),
    ("CALLER\n", 1, Reason::UnknownWord),
];

#[test]
fn lines_that_are_none_are_refused(rt: HostRuntime) {
    are_refused(&rt, rt.alloc(), &NO_LINES);
}

/// A script of the second version.
const SECOND: [(&str, &[Line]); 1] = [(
    "script 2\ncaller\nadd 5 1\nswap 5 1 340282366920938463463374607431768211455\nput 1 18446744073709551616\n",
    &[
        Line::Call(Op::Add(5, 1)),
        Line::Call(Op::Swap(5, 1, 340282366920938463463374607431768211455)),
        Line::Call(Op::Put(1, 18446744073709551616)),
    ],
)];

#[test]
fn a_script_of_the_second_version_is_read(rt: HostRuntime) -> Result<(), Fail> {
    are_read(&rt, rt.alloc(), &SECOND);
    let empty = read_script(rt.alloc(), b"script 2")
        .ok()
        .ok_or("it is a script")?;
    assert!(rt; empty.callers.is_empty());
    Ok(())
}

/// Numbers of 1, 8, 9, 16, 17, 20, 32 and 39 digits, the greatest ones among them, and a last line that no byte 10 ends.
const NUMBERS: [(&str, &[Line]); 1] = [(
    "script 2
caller
put 18446744073709551615 340282366920938463463374607431768211455
put 9999999999999999 99999999999999999999999999999999
add 12345678 123456789
swap 0 10000000000000000 18446744073709551616
del 18446744073709551615",
    &[
        Line::Call(Op::Put(
            18446744073709551615,
            340282366920938463463374607431768211455,
        )),
        Line::Call(Op::Put(9999999999999999, 99999999999999999999999999999999)),
        Line::Call(Op::Add(12345678, 123456789)),
        Line::Call(Op::Swap(0, 10000000000000000, 18446744073709551616)),
        Line::Call(Op::Del(18446744073709551615)),
    ],
)];

#[test]
fn numbers_of_all_lengths_are_read(rt: HostRuntime) {
    are_read(&rt, rt.alloc(), &NUMBERS);
}

/// Numbers that are none or too great. Sixteen bytes follow each of them, so that it is read by words.
const NO_NUMBERS: [(&str, u64, Reason); 8] = [
    (
        "caller\nget 18446744073709551616\ncaller\ncaller\ncaller\n",
        2,
        Reason::OutOfRange,
    ),
    (
        "caller\nget 00000000000000001\ncaller\ncaller\ncaller\n",
        2,
        Reason::NoNumber,
    ),
    (
        "caller\nput 1 00\ncaller\ncaller\ncaller\n",
        2,
        Reason::NoNumber,
    ),
    (
        "caller\nget 123:\ncaller\ncaller\ncaller\n",
        2,
        Reason::NoNumber,
    ),
    (
        "caller\nput 1 18446744073709551616\ncaller\ncaller\ncaller\n",
        2,
        Reason::OutOfRange,
    ),
    (
        "caller\nswap 1 2 3\ncaller\ncaller\ncaller\n",
        2,
        Reason::OtherVersion,
    ),
    (
        "script 2\ncaller\nput 1 340282366920938463463374607431768211456\ncaller\ncaller\n",
        3,
        Reason::OutOfRange,
    ),
    (
        "script 2\ncaller\nput 1 1000000000000000000000000000000000000000\ncaller\ncaller\n",
        3,
        Reason::OutOfRange,
    ),
];

#[test]
fn numbers_that_are_none_are_refused_before_other_lines(rt: HostRuntime) {
    are_refused(&rt, rt.alloc(), &NO_NUMBERS);
}

/// Lines that the version of the script does not have, and numbers that are too great for it.
const OTHER_VERSION: [(&str, u64, Reason); 11] = [
    ("caller\nadd 5 1\n", 2, Reason::OtherVersion),
    ("caller\nswap 5 1 2\n", 2, Reason::OtherVersion),
    ("caller\nscript 2\n", 2, Reason::VersionLine),
    ("script 9\n", 1, Reason::VersionLine),
    ("script 1\ncaller\n", 1, Reason::VersionLine),
    ("script 2\nscript 2\n", 2, Reason::VersionLine),
    ("script 2\nput 1 1\n", 2, Reason::NoCaller),
    (
        "script 2\ncaller\nput 1 340282366920938463463374607431768211456\n",
        3,
        Reason::OutOfRange,
    ),
    (
        "script 2\ncaller\nget 18446744073709551616\n",
        3,
        Reason::OutOfRange,
    ),
    ("script 2\ncaller\nswap 1 2\n", 3, Reason::MissingWord),
    ("script 2\ncaller\nadd 1 2 3\n", 3, Reason::ExtraWord),
];

#[test]
fn lines_of_another_version_are_refused(rt: HostRuntime) {
    are_refused(&rt, rt.alloc(), &OTHER_VERSION);
}

/// Scans and moves, and scripts of their versions without any.
const SCANS_AND_MOVES: [(&str, &[Line]); 3] = [
    (
        "script 4\ncaller\nscan 5 18446744073709551615 64\nscan 5 5 1\nmove 18446744073709551615 1\nget 1",
        &[
            Line::Scan(5, 18446744073709551615, 64),
            Line::Scan(5, 5, 1),
            Line::Call(Op::Move(18446744073709551615, 1)),
            Line::Call(Op::Get(1)),
        ],
    ),
    (
        "script 3\ncaller\nadd 1 18446744073709551616\ndel 1\n",
        &[
            Line::Call(Op::Add(1, 18446744073709551616)),
            Line::Call(Op::Del(1)),
        ],
    ),
    (
        "script 4\ncaller\nadd 1 18446744073709551616\ndel 1\n",
        &[
            Line::Call(Op::Add(1, 18446744073709551616)),
            Line::Call(Op::Del(1)),
        ],
    ),
];

#[test]
fn scans_and_moves_are_read(rt: HostRuntime) {
    are_read(&rt, rt.alloc(), &SCANS_AND_MOVES);
}

/// Scans and moves that are none, or none of the version.
const NO_SCANS: [(&str, u64, Reason); 15] = [
    ("caller\nscan 1 2 3\n", 2, Reason::OtherVersion),
    ("script 2\ncaller\nscan 1 2 3\n", 3, Reason::OtherVersion),
    ("script 3\ncaller\nscan 5 4 1\n", 3, Reason::LowAboveLast),
    ("script 3\ncaller\nscan 4 5 0\n", 3, Reason::OutOfRange),
    ("script 3\ncaller\nscan 4 5 65\n", 3, Reason::OutOfRange),
    ("script 3\ncaller\nscan 4 5\n", 3, Reason::MissingWord),
    (
        "script 3\ncaller\nscan 4 18446744073709551616 1\n",
        3,
        Reason::OutOfRange,
    ),
    ("script 3\ncaller\nmove 1 2\n", 3, Reason::OtherVersion),
    ("script 4\ncaller\nmove 1 1\n", 3, Reason::SameKey),
    ("script 4\ncaller\nmove 1\n", 3, Reason::MissingWord),
    ("script 4\ncaller\nmove 1 2 3\n", 3, Reason::ExtraWord),
    ("script 4\ncaller\nmove 01 2\n", 3, Reason::NoNumber),
    (
        "script 4\ncaller\nmove 1 18446744073709551616\n",
        3,
        Reason::OutOfRange,
    ),
    ("script 3\nscript 4\n", 2, Reason::VersionLine),
    ("script 3\ncaller\nscan 5 4 0\n", 3, Reason::OutOfRange),
];

#[test]
fn scans_and_moves_that_are_none_are_refused(rt: HostRuntime) {
    are_refused(&rt, rt.alloc(), &NO_SCANS);
}

/// The first lines, and then a line, n times.
fn repeated(alloc: Global, first: &[u8], line: &[u8], count: u64) -> Result<Vec<u8>, AllocError> {
    let mut text = Vec::from_slice(alloc, first)?;
    for _ in 0..count {
        text.extend_from_slice(line)?;
    }
    Ok(text)
}

#[test]
fn a_script_asks_for_so_many_parts(rt: HostRuntime) -> Result<(), Fail> {
    let alloc = rt.alloc();
    let mut text = repeated(alloc, b"script 3\ncaller\n", b"scan 0 0 64\n", 1023)?;
    text.extend_from_slice(b"caller\nscan 0 9 63\nscan 0 9 1\nget 1\n")?;
    assert!(rt; read_script(alloc, &text).is_ok());
    text.extend_from_slice(b"scan 0 9 1\n")?;
    assert!(rt; is_refused(alloc, &text, 1030, Reason::TooManyParts));
    Ok(())
}

/// Whether scans and moves are served, and the first line of the script `UNFIT` that is not served then.
const UNFIT_LINES: [(bool, bool, Option<u64>); 4] = [
    (false, false, Some(7)),
    (true, false, Some(7)),
    (false, true, Some(8)),
    (true, true, None),
];

const UNFIT: &[u8] =
    b"script 4\ncaller\nget 1\ncaller\ncaller\nput 1 2\nmove 1 2\nscan 0 1 1\nmove 1 2\n";

/// The script is read, and names these lines.
fn names_unfit_lines(
    rt: &impl Abort,
    alloc: Global,
    text: &[u8],
    rows: &[(bool, bool, Option<u64>)],
) -> Result<(), Fail> {
    match read_script(alloc, text) {
        Ok(script) => {
            for (scans, moves, line) in rows {
                assert!(rt;
                    script.unfit_line(*scans, *moves) == *line,
                    "scans {scans}, moves {moves}"
                );
            }
            Ok(())
        }
        Err(_) => Err("it is a script".into()),
    }
}

#[test]
fn the_first_line_that_is_not_served_is_named(rt: HostRuntime) -> Result<(), Fail> {
    names_unfit_lines(&rt, rt.alloc(), UNFIT, &UNFIT_LINES)
}

/// The first line of a version, how many callers a script of it has at most, and the line of the next one.
const MOST_CALLERS: [(&str, u64, u64); 2] = [("", 64, 65), ("script 2\n", 1024, 1026)];

/// As many callers are read, and with one more the script is refused at its line.
fn have_most_callers(
    rt: &impl Abort,
    alloc: Global,
    rows: &[(&str, u64, u64)],
) -> Result<(), Fail> {
    for (first, callers, line) in rows {
        let mut text = repeated(alloc, first.as_bytes(), b"caller\n", *callers)?;
        assert!(rt; read_script(alloc, &text).is_ok(), "{first:?}");
        text.extend_from_slice(b"caller\n")?;
        assert!(rt;
            is_refused(alloc, &text, *line, Reason::TooManyCallers),
            "{first:?}"
        );
    }
    Ok(())
}

#[test]
fn a_version_has_so_many_callers(rt: HostRuntime) -> Result<(), Fail> {
    have_most_callers(&rt, rt.alloc(), &MOST_CALLERS)
}

const REPLIES: [(u64, Reply); 2] = [(0, Reply::Nothing), (1, Reply::Value(50))];

#[test]
fn a_script_and_its_run_are_read(rt: HostRuntime) -> Result<(), Fail> {
    is_read_in_check(
        &rt,
        rt.alloc(),
        "caller\nput 5 50\nget 5\nrun\ncaller 0\n0 none\n1 50\nmap\n5 50\nend\n",
        &REPLIES,
        &[(5, 50)],
    )
}

/// A script without its run, and a map with a value that is too great.
const NO_WIDE_RUNS: [(&str, u64, Reason); 2] = [
    ("script 2\n", 2, Reason::MissingLine),
    (
        "run\nmap\n1 340282366920938463463374607431768211456\nend\n",
        3,
        Reason::NotTheRun,
    ),
];

#[test]
fn a_script_of_the_second_version_and_its_run_are_read(rt: HostRuntime) -> Result<(), Fail> {
    is_read_in_check(
        &rt,
        rt.alloc(),
        "script 2\ncaller\nadd 5 340282366920938463463374607431768211455\nrun\ncaller 0\n0 none\nmap\n5 340282366920938463463374607431768211455\nend\n",
        &[(0, Reply::Nothing)],
        &[(5, 340282366920938463463374607431768211455)],
    )?;
    are_refused_in_check(&rt, rt.alloc(), &NO_WIDE_RUNS);
    Ok(())
}

#[test]
fn replies_full_and_wide_are_read(rt: HostRuntime) -> Result<(), Fail> {
    is_read_in_check(
        &rt,
        rt.alloc(),
        "caller\nget 1\nget 2\nrun\ncaller 0\n0 full\n1 340282366920938463463374607431768211455\nmap\n18446744073709551615 340282366920938463463374607431768211455\nend\n",
        &[
            (0, Reply::Full),
            (1, Reply::Value(340282366920938463463374607431768211455)),
        ],
        &[(
            18446744073709551615,
            340282366920938463463374607431768211455,
        )],
    )
}

/// Runs that end too early or too late, or whose map names a key twice.
const NO_RUNS: [(&str, u64, Reason); 6] = [
    ("caller\n", 2, Reason::MissingLine),
    ("caller\nrun 1\n", 2, Reason::UnknownWord),
    ("run\n", 2, Reason::NotTheRun),
    (
        "caller\nget 1\nrun\ncaller 0\n0 none\nmap\n",
        7,
        Reason::NotTheRun,
    ),
    (
        "caller\nget 1\nrun\ncaller 0\n0 none\nmap\nend\nx\n",
        8,
        Reason::NotTheRun,
    ),
    ("run\nmap\n2 1\n2 1\nend\n", 4, Reason::NotTheRun),
];

#[test]
fn lines_that_are_missing_or_too_many_are_refused(rt: HostRuntime) {
    are_refused_in_check(&rt, rt.alloc(), &NO_RUNS);
}

#[test]
fn a_source_is_read_up_to_the_limit(rt: HostRuntime) -> Result<(), Fail> {
    let alloc = rt.alloc();
    let mut source = MemSource::new(b"abc".to_vec(alloc)?, 1, Vec::new(alloc));
    let bytes = read_all(alloc, &mut source, 3)
        .ok()
        .ok_or("it has 3 bytes")?;
    assert_eq!(rt; bytes.as_slice(), b"abc".as_slice());
    let mut source = MemSource::new(b"abc".to_vec(alloc)?, 1, Vec::new(alloc));
    assert_eq!(rt;
        read_all(alloc, &mut source, 2).err(),
        Some(ReadFault::TooLong)
    );
    let mut source = MemSource::new(b"abc".to_vec(alloc)?, 1, [0].to_vec(alloc)?);
    assert_eq!(rt;
        read_all(alloc, &mut source, 3).err(),
        Some(ReadFault::Failed)
    );
    Ok(())
}

/// The text of the run that `small_run` returns.
const RUN: &[u8] = b"caller 0\n0 none\n1 50\nmap\n5 50\nend\n";

fn small_run(alloc: Global) -> Result<Printed, Fail> {
    let mut calls = Replies::new(alloc);
    calls.push(Said::Call(0, Reply::Nothing))?;
    calls.push(Said::Call(1, Reply::Value(50)))?;
    let mut callers = Vec::new(alloc);
    callers.push(calls)?;
    let mut pairs = Vec::new(alloc);
    pairs.push((5, 50))?;
    Ok(Printed { callers, pairs })
}

#[test]
fn a_run_is_written_byte_by_byte(rt: HostRuntime) -> Result<(), Fail> {
    let alloc = rt.alloc();
    let run = small_run(alloc)?;
    let mut sink = MemSink::new(alloc, 64, 1, Vec::new(alloc))?;
    assert!(rt; write_run(&mut sink, &run).is_ok());
    assert_eq!(rt; sink.taken(), RUN);
    assert_eq!(rt; sink.faults(), 0);
    Ok(())
}

#[test]
fn a_write_that_fails_leaves_the_front(rt: HostRuntime) -> Result<(), Fail> {
    let alloc = rt.alloc();
    let run = small_run(alloc)?;
    let mut sink = MemSink::new(alloc, 64, 5, [2].to_vec(alloc)?)?;
    assert!(rt; write_run(&mut sink, &run).is_err());
    assert_eq!(rt; sink.taken(), b"caller 0\n0".as_slice());
    assert_eq!(rt; sink.faults(), 1);
    Ok(())
}

const PACKED_LINES: [Line; 8] = [
    Line::Call(Op::Get(1)),
    Line::Call(Op::Put(2, 3)),
    Line::Call(Op::Put(2, u128::MAX)),
    Line::Call(Op::Del(4)),
    Line::Call(Op::Add(5, 6)),
    Line::Call(Op::Swap(7, 8, u128::MAX)),
    Line::Call(Op::Move(1, u64::MAX)),
    Line::Scan(0, u64::MAX, 64),
];

/// These lines, packed.
fn packed(alloc: Global, lines: &[Line]) -> Result<Calls, AllocError> {
    let mut calls = Calls::new(alloc);
    for line in lines {
        calls.push(*line)?;
    }
    Ok(calls)
}

const PACKED_REPLIES: [(u64, Reply); 4] = [
    (0, Reply::Full),
    (u64::MAX, Reply::Nothing),
    (1, Reply::Value(u128::MAX)),
    (2, Reply::Value(9)),
];

#[test]
fn packed_calls_and_lines_are_read_again(rt: HostRuntime) -> Result<(), Fail> {
    let calls = packed(rt.alloc(), &PACKED_LINES)?;
    assert!(rt; has_lines(&calls, &PACKED_LINES));
    let mut lines = Replies::with_capacity(rt.alloc(), 4)?;
    lines.push(Said::Call(0, Reply::Full))?;
    lines.push(Said::Call(u64::MAX, Reply::Nothing))?;
    lines.push(Said::Call(1, Reply::Value(u128::MAX)))?;
    lines.push(Said::Call(2, Reply::Value(9)))?;
    assert!(rt; has_replies(&lines, &PACKED_REPLIES));
    Ok(())
}
