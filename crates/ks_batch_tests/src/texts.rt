//! What is printed and what is said, for each kind of text.

use ks_whole_runs::{Ends, FIRST, FIRST_RUN, RUN, USAGE, Wrong, check_each, say_each, serve_each};

/// Scripts and the texts of their runs.
const RUNS: [(&[u8], &[u8]); 6] = [
    (FIRST, FIRST_RUN),
    (b"", b"map\nend\n"),
    (b"caller\n", b"caller 0\nmap\nend\n"),
    (
        b"caller\nput 5 50\nput 5 51\n",
        b"caller 0\n0 none\n1 50\nmap\n5 51\nend\n",
    ),
    (
        b"caller\ndel 1\nput 1 9\ndel 1\ndel 1\n",
        b"caller 0\n0 none\n1 none\n2 9\n3 none\nmap\nend\n",
    ),
    (b"caller\nget 1", b"caller 0\n0 none\nmap\nend\n"),
];

/// Words, inputs, and what is said of them, with the status.
const REFUSALS: [(&str, &[u8], &[u8], u8); 17] = [
    (
        RUN,
        b"caller\nput 1 18446744073709551616\n",
        b"line 2 refused\na key or a value is too great, or PARTS is not 1 to 64\n",
        2,
    ),
    (
        RUN,
        b"caller\nput 01 5\n",
        b"line 2 refused\na word is no number: only digits, no leading zero, one space before it\n",
        2,
    ),
    (
        RUN,
        b"put 1 2\ncaller\n",
        b"line 1 refused\nit comes before the first caller\n",
        2,
    ),
    ("run bplus coupling 3", b"", USAGE, 1),
    ("run bplus coupling 04", b"", USAGE, 1),
    ("run bplus coupling 1048577", b"caller\n", USAGE, 1),
    ("make bplus coupling 1048577 1 2 0", b"", USAGE, 1),
    ("make bplus coupling 64 65 2 0", b"", USAGE, 1),
    ("run list link 64", b"caller\n", USAGE, 1),
    ("run bst link 64", b"caller\n", USAGE, 1),
    ("hinted bst link 64 1", b"caller\n", USAGE, 1),
    ("make bst link 64 1 2 0", b"", USAGE, 1),
    ("check now", b"caller\n", USAGE, 1),
    ("run bplus coupling 4 0", b"caller\n", USAGE, 1),
    ("run bplus coupling 4 65", b"caller\n", USAGE, 1),
    ("run bplus coupling 4 01", b"caller\n", USAGE, 1),
    ("run bplus coupling 4 1 1", b"caller\n", USAGE, 1),
];

/// What is checked, and what is said of it, with the status.
const CHECKS: [(&[u8], &[u8], u8); 4] = [
    (
        b"caller\nput 5 50\nget 5\nrun\ncaller 0\n0 none\n1 50\nmap\n5 50\nend\n",
        b"legal 2\n",
        0,
    ),
    (
        b"caller\nput 5 50\nget 5\nrun\ncaller 0\n0 50\n1 none\nmap\n5 50\nend\n",
        b"wrong 0\n",
        6,
    ),
    (
        b"caller\nput 5 50\nget 5\nrun\ncaller 0\n0 none\n1 50\nmap\nend\n",
        b"wrong 2\n",
        6,
    ),
    (b"caller\n", b"line 2 refused\nthe text ends before it\n", 2),
];

#[test]
fn judges_a_printed_run(rt: HostRuntime) -> Result<(), Wrong> {
    check_each(&rt, rt.alloc(), b"", &CHECKS)
}

#[test]
fn tells_what_each_call_is_answered(rt: HostRuntime) -> Result<(), Wrong> {
    serve_each(&rt, rt.alloc(), &[RUN], Ends::Whole, &RUNS)?;
    serve_each(&rt, rt.alloc(), &[RUN], Ends::Bytewise, &RUNS)
}

/// What is printed of the script that is made.
const SUMS: [(&[u8], &[u8]); 1] = [(
    b"",
    b"callers 1\ncalls 2\nfound 0\nnone 2\nfull 0\npairs 1\nsum 95564294500\n",
)];

#[test]
fn sums_up_a_made_script(rt: HostRuntime) -> Result<(), Wrong> {
    serve_each(
        &rt,
        rt.alloc(),
        &["make bplus coupling 64 1 2 0"],
        Ends::Whole,
        &SUMS,
    )
}

#[test]
fn says_why_nothing_is_served(rt: HostRuntime) -> Result<(), Wrong> {
    say_each(&rt, rt.alloc(), &REFUSALS)
}
