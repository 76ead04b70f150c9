//! Lines that are taken, and lines that are not.
use crate::{Line, LineStop, WorkOptions, read_line};
use example_polys::ExampleKind;
use std::test::Fail;

/// Words, and what is to be read of them.
#[derive(Clone, Copy)]
struct Row {
    words: &'static [&'static str],
    read: Result<Line<'static>, LineStop>,
}

/// Words that are no line.
const fn refused(words: &'static [&'static str]) -> Row {
    Row {
        words,
        read: Err(LineStop::Usage),
    }
}

/// The options, in the order of their fields.
const fn options(workers: u64, bases: u64, depth: u64, lmin: u64, lost: u64) -> WorkOptions {
    WorkOptions {
        workers,
        bases,
        depth,
        lmin,
        lost,
    }
}

/// A run whose options are these.
const fn run(words: &'static [&'static str], options: WorkOptions) -> Row {
    Row {
        words,
        read: Ok(Line::Run {
            ledger: "L",
            options,
        }),
    }
}

#[test]
fn reads_lines(rt: HostRuntime) -> Result<(), Fail> {
    for row in [
        Row {
            words: &["convert"],
            read: Ok(Line::Convert),
        },
        Row {
            words: &["convert", "--"],
            read: Ok(Line::Convert),
        },
        Row {
            words: &["job"],
            read: Ok(Line::Job),
        },
        Row {
            words: &["job", "--"],
            read: Ok(Line::Job),
        },
        Row {
            words: &["demo", "cross", "20"],
            read: Ok(Line::Demo {
                kind: ExampleKind::Cross,
                n: 20,
            }),
        },
        Row {
            words: &["demo", "product", "--", "+1"],
            read: Ok(Line::Demo {
                kind: ExampleKind::Product,
                n: 1,
            }),
        },
        run(&["run", "L"], options(4, 10_000, 2, 3, 100)),
        run(
            &[
                "run",
                "L",
                "--workers",
                "2",
                "--bases",
                "1",
                "--depth",
                "5",
                "--lmin",
                "1000",
                "--lost",
                "0",
            ],
            options(2, 1, 5, 1000, 0),
        ),
        run(
            &["run", "--lost=1000000", "--lmin=1", "--", "L"],
            options(4, 10_000, 2, 1, 1_000_000),
        ),
        run(
            &[
                "run",
                "--workers=256",
                "--bases=1000000000000",
                "--depth=1000000",
                "L",
            ],
            options(256, 1_000_000_000_000, 1_000_000, 3, 100),
        ),
        run(
            &["run", "L", "--workers", "+01", "--depth", "1"],
            options(1, 10_000, 1, 3, 100),
        ),
        Row {
            words: &["resume", "--workers=2", "L"],
            read: Ok(Line::Resume {
                ledger: "L",
                options: options(2, 10_000, 2, 3, 100),
            }),
        },
        Row {
            words: &["status", "L"],
            read: Ok(Line::Status { ledger: "L" }),
        },
        Row {
            words: &["status", "--", "--help"],
            read: Ok(Line::Status { ledger: "--help" }),
        },
        Row {
            words: &["status", ""],
            read: Ok(Line::Status { ledger: "" }),
        },
        refused(&["run"]),
        refused(&["resume"]),
        refused(&["status"]),
        refused(&["run", "L", "M"]),
        refused(&["run", "L", "--workers", "0"]),
        refused(&["run", "L", "--workers", "257"]),
        refused(&["run", "L", "--bases", "0"]),
        refused(&["run", "L", "--bases", "1000000000001"]),
        refused(&["run", "L", "--depth", "0"]),
        refused(&["run", "L", "--depth", "1000001"]),
        refused(&["run", "L", "--lmin", "0"]),
        refused(&["run", "L", "--lmin", "1001"]),
        refused(&["run", "L", "--lost", "1000001"]),
        refused(&["run", "L", "--workers", "x"]),
        refused(&["run", "L", "--workers"]),
        refused(&["run", "L", "--workers="]),
        refused(&["run", "L", "--workers", "2", "--workers", "2"]),
        refused(&["run", "L", "--work", "2"]),
        refused(&["run", "L", "--help"]),
        refused(&["run", "L", "--fly"]),
        refused(&["run", "L", "-w"]),
        refused(&["status", "L", "--workers", "2"]),
        refused(&["--workers", "2", "run", "L"]),
        refused(&["demo"]),
        refused(&["demo", "cube"]),
        refused(&["demo", "cube", "0"]),
        refused(&["demo", "cube", "21"]),
        refused(&["demo", "cube", "x"]),
        refused(&["demo", "cube", "-1"]),
        refused(&["demo", "ball", "3"]),
        refused(&["demo", "Cube", "3"]),
        refused(&["demo", "cube", "3", "3"]),
        refused(&[]),
        refused(&["convert", "convert"]),
        refused(&["convert", "x"]),
        refused(&["job", "x"]),
        refused(&["job", "--help"]),
        refused(&["job", "job"]),
        refused(&["job", "--", "--"]),
        refused(&["convert", "job"]),
        refused(&["Job"]),
        refused(&["jobs"]),
        refused(&["fly"]),
        refused(&["conv"]),
        refused(&["CONVERT"]),
        refused(&[""]),
        refused(&["help"]),
        refused(&["help", "convert"]),
        refused(&["--help"]),
        refused(&["-h"]),
        refused(&["convert", "--help"]),
        refused(&["convert", "-h"]),
        refused(&["--version"]),
        refused(&["-V"]),
        refused(&["convert", "--version"]),
        refused(&["-"]),
        refused(&["--"]),
        refused(&["--", "convert"]),
        refused(&["convert", "--", "--"]),
        refused(&["convert", "--", "x"]),
    ] {
        assert_eq!(rt; read_line(rt.alloc(), row.words), row.read);
    }
    Ok(())
}
