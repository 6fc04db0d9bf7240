//! Printed scans and moves: what is read of them, what is refused, and what is written.

use super::*;
use ks_keysets::{Few, Pair};
use ks_lines::{Part, Parts, Scanned};

/// A script, the line `run`, and a run.
fn joined(alloc: Global, script: &[u8], run: &[u8]) -> Result<Vec<u8>, AllocError> {
    let mut text = Vec::from_slice(alloc, script)?;
    text.extend_from_slice(b"run\n")?;
    text.extend_from_slice(run)?;
    Ok(text)
}

/// Whether a script and its run are read, and the run is written again, the same.
fn is_written_again(alloc: Global, script: &[u8], run: &[u8]) -> Result<bool, AllocError> {
    let text = joined(alloc, script, run)?;
    let Ok((_, printed)) = read_checked(alloc, &text) else {
        return Ok(false);
    };
    let mut sink = MemSink::new(alloc, 65536, 65536, Vec::new(alloc))?;
    let written = write_run(&mut sink, &printed);
    Ok(written.is_ok() && sink.taken() == run)
}

/// Each script and its run are read, and the run is written again, the same.
fn are_written_again(
    rt: &impl Abort,
    alloc: Global,
    rows: &[(&str, &str)],
) -> Result<(), AllocError> {
    for (script, run) in rows {
        let again = is_written_again(alloc, script.as_bytes(), run.as_bytes())?;
        assert!(rt; again, "{script:?}");
    }
    Ok(())
}

/// Whether the entry is of a scan with these parts, each by its number, its last key and how many pairs it has, and this stop.
fn has_scan(said: &Replies, at: usize, wanted: &[(u64, u64, usize)], stop: Scanned) -> bool {
    if at >= said.len() {
        return false;
    }
    let Some((parts, stopped)) = said.scan_at(at) else {
        return false;
    };
    let parts = parts.as_slice();
    if stopped != stop || parts.len() != wanted.len() {
        return false;
    }
    for (part, want) in parts.iter().zip(wanted.iter()) {
        if (part.number, part.last, part.pairs.len()) != *want {
            return false;
        }
    }
    true
}

/// Whether the entry is of a call.
fn has_call(said: &Replies, at: usize) -> bool {
    at < said.len() && said.scan_at(at).is_none()
}

const SCANS: &[u8] = b"script 3\ncaller\nput 1 10\nscan 0 20 64\nscan 5 30 2\nget 7\n";

const RUN_OF_SCANS: &[u8] =
    b"caller 0\n0 none\n1 7 1 10\n2 20\nwhole\n3 9\n4 12 10 100 11 110\nuntil 13\n5 none\nmap\n1 10\nend\n";

#[test]
fn scans_are_read_and_written(rt: HostRuntime) -> Result<(), Fail> {
    assert!(rt; is_written_again(rt.alloc(), SCANS, RUN_OF_SCANS)?);
    let text = joined(rt.alloc(), SCANS, RUN_OF_SCANS)?;
    let (_, printed) = read_checked(rt.alloc(), &text)
        .ok()
        .ok_or("it is a script and a run")?;
    assert_eq!(rt; printed.callers.len(), 1);
    for said in &printed.callers {
        assert_eq!(rt; said.len(), 4);
        assert!(rt; has_call(said, 0));
        assert!(rt; has_scan(said, 1, &[(1, 7, 1), (2, 20, 0)], Scanned::Whole));
        assert!(rt;
            has_scan(
                said,
                2,
                &[(3, 9, 0), (4, 12, 2)],
                Scanned::Until { next: 13 }
            )
        );
    }
    Ok(())
}

/// Scripts with scans, and their runs.
const OF_LEAVES: [(&str, &str); 4] = [
    (
        "script 3\ncaller\nscan 0 20 64\n",
        "caller 0
17 7 0 0 1 1 2 2 3 3 4 4 5 5 6 6 7 7
18 20 8 8 9 9 10 10 11 11 12 12 13 13 14 14 15 15 16 16
whole
map
end
",
    ),
    (
        "script 3\ncaller\nscan 0 20 1\n",
        "caller 0
17 7 0 0 1 1 2 2 3 3 4 4 5 5 6 6 7 7
until 8
map
end
",
    ),
    (
        "script 3\ncaller\nscan 5 5 1\n",
        "caller 0\n0 5\nwhole\nmap\nend\n",
    ),
    // A scan up to the greatest key, whose pairs do not ascend: the judge refuses these.
    (
        "script 4\ncaller\nscan 18446744073709551615 18446744073709551615 1\n",
        "caller 0\n18446744073709551615 18446744073709551615 2 2 1 1 1 1\nwhole\nmap\nend\n",
    ),
];

#[test]
fn scans_of_two_leaves_are_read_and_written(rt: HostRuntime) -> Result<(), Fail> {
    are_written_again(&rt, rt.alloc(), &OF_LEAVES)?;
    Ok(())
}

/// A part of 16 pairs, or 17, each of the greatest key and value: with 16 its line has 1,018 bytes.
fn long_part(alloc: Global, pairs: u64) -> Result<Vec<u8>, AllocError> {
    let mut text = b"caller 0\n18446744073709551615 18446744073709551615".to_vec(alloc)?;
    for _ in 0..pairs {
        text.extend_from_slice(b" 18446744073709551615 340282366920938463463374607431768211455")?;
    }
    text.extend_from_slice(b"\nwhole\nmap\nend\n")?;
    Ok(text)
}

#[test]
fn a_part_of_16_pairs_is_read_and_written(rt: HostRuntime) -> Result<(), Fail> {
    let alloc = rt.alloc();
    let script = b"script 3\ncaller\nscan 0 18446744073709551615 64\n";
    assert!(rt; is_written_again(alloc, script, &long_part(alloc, 16)?)?);
    let text = joined(alloc, script, &long_part(alloc, 17)?)?;
    assert!(rt; is_refused_in_check(alloc, &text, 6, Reason::NotTheRun));
    Ok(())
}

/// Each run of the script `scan 10 20 2` with these lines is refused; the first of them is line 6.
fn are_refused_scans(
    rt: &impl Abort,
    alloc: Global,
    rows: &[(&str, u64)],
) -> Result<(), AllocError> {
    for (lines, line) in rows {
        let mut text = b"script 3\ncaller\nscan 10 20 2\nrun\ncaller 0\n".to_vec(alloc)?;
        text.extend_from_slice(lines.as_bytes())?;
        text.extend_from_slice(b"\nmap\nend\n")?;
        assert!(rt;
            is_refused_in_check(alloc, &text, *line, Reason::NotTheRun),
            "{lines:?}"
        );
    }
    Ok(())
}

/// Lines that no scan of at most two parts from 10 to 20 has, each with the number of the line that is named.
const NO_SCAN: [(&str, u64); 12] = [
    // Parts that do not ascend within the span.
    ("0 9\n1 20\nwhole", 6),
    ("0 15\n1 15\nwhole", 7),
    ("0 15\n1 21\nwhole", 7),
    // More parts than the scan may have.
    ("0 15\n1 16\n2 20\nwhole", 8),
    ("0 20\n1 20\nwhole", 7),
    // `whole` not right after a part that ends at the last key.
    ("whole", 6),
    ("0 15\nwhole", 7),
    ("0 15\n1 16\nwhole", 8),
    // `until` before as many parts as the scan may have, after a part that ends at the last key, and with another number.
    ("0 15\nuntil 16", 7),
    ("0 15\n1 20\nuntil 21", 8),
    ("0 15\n1 16\nuntil 16", 8),
    ("0 15\n1 16\nuntil 18", 8),
];

#[test]
fn what_no_scan_says_is_refused(rt: HostRuntime) -> Result<(), Fail> {
    are_refused_scans(&rt, rt.alloc(), &NO_SCAN)?;
    Ok(())
}

/// Lines that are neither a part nor a stop.
const NO_PARTS: [(&str, u64); 10] = [
    ("0 none\nwhole", 6),
    ("0\nwhole", 6),
    ("0 20 \nwhole", 6),
    ("0 20 1\nwhole", 6),
    ("0 20 01 1\nwhole", 6),
    ("0 20  1 1\nwhole", 6),
    ("0 20 18446744073709551616 1\nwhole", 6),
    ("0 20 1 340282366920938463463374607431768211456\nwhole", 6),
    ("18446744073709551616 20\nwhole", 6),
    ("0 20\nwhole \n", 7),
];

/// A scan that is cut off, and a part where the reply to a call is due.
const CUT_OR_OF_A_CALL: [(&str, u64, Reason); 2] = [
    (
        "script 3\ncaller\nscan 10 20 2\nrun\ncaller 0\n0 15\n",
        7,
        Reason::NotTheRun,
    ),
    (
        "script 3\ncaller\nget 1\nrun\ncaller 0\n0 1 1 1\n",
        6,
        Reason::NotTheRun,
    ),
];

#[test]
fn lines_that_are_no_parts_are_refused(rt: HostRuntime) -> Result<(), Fail> {
    are_refused_in_check(&rt, rt.alloc(), &CUT_OR_OF_A_CALL);
    are_refused_scans(&rt, rt.alloc(), &NO_PARTS)?;
    Ok(())
}

/// A script with a move that kept both, and its run.
const MOVES: [(&str, &str); 1] = [(
    "script 4\ncaller\nput 1 10\nput 2 20\nmove 1 3\nmove 1 4\nmove 2 3\n",
    "caller 0\n0 none\n1 none\n2 10\n3 none\n4 kept\nmap\n2 20\n3 10\nend\n",
)];

/// A put that kept both.
const KEPT: [(&str, u64, Reason); 1] = [(
    "script 4\ncaller\nput 1 10\nrun\ncaller 0\n0 kept\nmap\nend\n",
    6,
    Reason::NotTheRun,
)];

#[test]
fn kept_is_said_of_a_move_only(rt: HostRuntime) -> Result<(), Fail> {
    are_refused_in_check(&rt, rt.alloc(), &KEPT);
    are_written_again(&rt, rt.alloc(), &MOVES)?;
    Ok(())
}

#[test]
fn what_is_said_is_packed(rt: HostRuntime) -> Result<(), Fail> {
    let mut pairs = Few::new();
    pairs.push(Pair { place: 1, value: 2 });
    let mut parts = Vec::new(rt.alloc());
    parts.push(Part {
        number: 8,
        last: 9,
        pairs,
    })?;
    let mut said = Vec::new(rt.alloc());
    said.push(Said::Scan(Parts::of(parts), Scanned::Whole))?;
    said.push(Said::Call(5, Reply::Kept))?;
    said.push(Said::Call(6, Reply::Full))?;
    let packed = Replies::from_said(rt.alloc(), said)?;
    assert_eq!(rt; packed.len(), 3);
    assert!(rt; has_scan(&packed, 0, &[(8, 9, 1)], Scanned::Whole));
    assert!(rt; packed.scan_at(1).is_none());
    assert!(rt; packed.call_at(1) == (5, Reply::Kept));
    assert_eq!(rt; packed.number_at(2), 6);
    Ok(())
}
