//! Worked texts of scripts and runs.

use ks_judge::{Judged, judge};
use ks_script::read_checked;
use std::alloc::{AllocError, Global};
use std::test::Fail;

/// What the text of a script and a run of it is judged to be; none if it is no such text.
fn judged(alloc: Global, text: &[u8]) -> Result<Option<Judged>, AllocError> {
    let Ok((script, printed)) = read_checked(alloc, text) else {
        return Ok(None);
    };
    Ok(Some(judge(alloc, &script, &printed)?))
}

#[test]
fn two_worked_runs_are_judged(rt: HostRuntime) -> Result<(), Fail> {
    let right: &[u8] = b"caller\nput 5 50\nget 5\nrun\ncaller 0\n0 none\n1 50\nmap\n5 50\nend\n";
    let wrong: &[u8] = b"caller\nput 5 50\nget 5\nrun\ncaller 0\n0 50\n1 none\nmap\n5 50\nend\n";
    assert!(rt; judged(rt.alloc(), right)? == Some(Judged::Legal { calls: 2 }));
    assert!(rt; judged(rt.alloc(), wrong)? == Some(Judged::Wrong { number: 0 }));
    Ok(())
}

#[test]
fn each_part_of_a_scan_is_judged(rt: HostRuntime) -> Result<(), Fail> {
    let whole: &[u8] =
        b"script 3\ncaller\nput 1 10\nput 2 20\nscan 0 9 2\nrun\ncaller 0\n0 none\n1 none\n2 1 1 10\n3 9 2 20\nwhole\nmap\n1 10\n2 20\nend\n";
    let until: &[u8] =
        b"script 3\ncaller\nput 1 10\nput 2 20\nscan 0 9 1\nrun\ncaller 0\n0 none\n1 none\n2 1 1 10\nuntil 2\nmap\n1 10\n2 20\nend\n";
    let beside: &[u8] =
        b"script 3\ncaller\nput 1 10\nscan 0 9 2\ncaller\nput 2 20\nput 0 5\nrun\ncaller 0\n0 none\n1 1 1 10\n4 9 2 20\nwhole\ncaller 1\n2 none\n3 none\nmap\n0 5\n1 10\n2 20\nend\n";
    assert!(rt; judged(rt.alloc(), whole)? == Some(Judged::Legal { calls: 4 }));
    assert!(rt; judged(rt.alloc(), until)? == Some(Judged::Legal { calls: 3 }));
    assert!(rt; judged(rt.alloc(), beside)? == Some(Judged::Legal { calls: 5 }));
    Ok(())
}

#[test]
fn wrong_parts_are_found(rt: HostRuntime) -> Result<(), Fail> {
    let fewer: &[u8] =
        b"script 3\ncaller\nput 1 10\nput 2 20\nscan 0 9 1\nrun\ncaller 0\n0 none\n1 none\n2 9 1 10\nwhole\nmap\n1 10\n2 20\nend\n";
    let value: &[u8] =
        b"script 3\ncaller\nput 1 10\nput 2 20\nscan 0 9 2\nrun\ncaller 0\n0 none\n1 none\n2 1 1 10\n3 9 2 21\nwhole\nmap\n1 10\n2 20\nend\n";
    let more: &[u8] =
        b"script 3\ncaller\nput 1 10\nput 2 20\nscan 0 9 1\nrun\ncaller 0\n0 none\n1 none\n2 9 1 10 2 20 3 30\nwhole\nmap\n1 10\n2 20\nend\n";
    let turned: &[u8] =
        b"script 3\ncaller\nput 1 10\nput 2 20\nscan 0 9 2\nrun\ncaller 0\n0 none\n1 none\n3 1 1 10\n2 9 2 20\nwhole\nmap\n1 10\n2 20\nend\n";
    assert!(rt; judged(rt.alloc(), fewer)? == Some(Judged::Wrong { number: 2 }));
    assert!(rt; judged(rt.alloc(), value)? == Some(Judged::Wrong { number: 3 }));
    assert!(rt; judged(rt.alloc(), more)? == Some(Judged::Wrong { number: 2 }));
    assert!(rt; judged(rt.alloc(), turned)? == Some(Judged::Wrong { number: 2 }));
    Ok(())
}

#[test]
fn moves_are_judged(rt: HostRuntime) -> Result<(), Fail> {
    let right: &[u8] =
        b"script 4\ncaller\nput 1 10\nput 2 20\nmove 1 3\nmove 1 4\nmove 2 3\nrun\ncaller 0\n0 none\n1 none\n2 10\n3 none\n4 kept\nmap\n2 20\n3 10\nend\n";
    let kept: &[u8] =
        b"script 4\ncaller\nput 1 10\nput 2 20\nmove 1 3\nmove 1 4\nmove 2 3\nrun\ncaller 0\n0 none\n1 none\n2 kept\n3 none\n4 kept\nmap\n2 20\n3 10\nend\n";
    let moved: &[u8] =
        b"script 4\ncaller\nput 1 10\nput 2 20\nmove 1 2\nrun\ncaller 0\n0 none\n1 none\n2 kept\nmap\n2 10\nend\n";
    let full: &[u8] =
        b"script 4\ncaller\nput 1 10\nmove 1 2\nscan 0 9 1\nrun\ncaller 0\n0 none\n1 full\n2 9 1 10\nwhole\nmap\n1 10\nend\n";
    assert!(rt; judged(rt.alloc(), right)? == Some(Judged::Legal { calls: 5 }));
    assert!(rt; judged(rt.alloc(), kept)? == Some(Judged::Wrong { number: 2 }));
    assert!(rt; judged(rt.alloc(), moved)? == Some(Judged::Wrong { number: 3 }));
    assert!(rt; judged(rt.alloc(), full)? == Some(Judged::Legal { calls: 3 }));
    Ok(())
}
