//! Texts whose answer is known from the rules of the format.
ghost use Rattle.std.specs.Prelude.{◌≡◌, ◌<◌};

use crate::BadKind::*;
use crate::{BadFile, MOST_FILE_BYTES, ParseStop, ReadStop, poly_of, read_poly};
use poly_io::{Call, MemSource};
use poly_model::{Kind, Poly};
use std::alloc::{AllocFailed, Global};
use std::test::Fail;

#[test]
fn refuses_for_the_first_fault(rt: HostRuntime) {
    // A text that is refused, for what, and on which line.
    let rows = [
        ("", NoBegin, 1),
        ("begin\nx 2 integer\n", BadHeader, 2),
        ("begin\n4097 2 integer\n", TooManyRows, 2),
        ("begin\n1 513 integer\n", BadWidth, 2),
        ("begin\n1 257 integer\n", NoEnd, 3),
        ("begin\n1 2 real\n 1 1\nend\n", UnsupportedType, 2),
        ("begin\n1 2 integer\n 1 x\nend\n", BadNumber, 3),
        ("begin\n1 2 integer\n 1 2 3\nend\n", LongData, 3),
        ("begin\n1 2 integer\n 1\nend\n", ShortData, 4),
        ("begin\n***** 2 integer\n 1 2 3\nend\n", ShortData, 4),
        ("begin\n1 2 integer\n 1 2\n", NoEnd, 4),
        (
            "begin\n1 2 integer\n 1 170141183460469231731687303715884105728\nend\n",
            WideNumber,
            3,
        ),
        (
            "linearity 2 1\nbegin\n1 2 integer\n 1 2\nend\n",
            BadLinearity,
            1,
        ),
        (
            "linearity 1 3\nbegin\n1 2 integer\n 1 2\nend\n",
            BadLinearity,
            1,
        ),
        (
            "begin\n1 2 integer\n 1 2\nend\nlinearity 1 1\n",
            MisplacedLinearity,
            5,
        ),
        (
            "V-representation\nnonnegative\nbegin\n1 2 integer\n 1 0\nend\n",
            MisplacedNonnegative,
            2,
        ),
        (
            "begin\n1 2 integer\n 1 2\nend\nnonnegative\n",
            MisplacedNonnegative,
            5,
        ),
        (
            "nonnegative\nlinearity 1 3\nbegin\n2 3 integer\n 1 -1 0\n 1 0 -1\nend\n",
            BadLinearity,
            2,
        ),
        ("V-representation\nbegin\n0 2 integer\nend\n", NoRows, 4),
        (
            "V-representation\nbegin\n1 2 integer\n 2 1\nend\n",
            BadFirst,
            4,
        ),
        (
            "V-representation\nlinearity 1 1\nbegin\n1 2 integer\n 1 1\nend\n",
            LinearPoint,
            5,
        ),
        ("begin\n1 2 rational\n 1 1/0\nend\n", ZeroDenominator, 3),
        (
            "begin\n1 2 rational\n 1/1267650600228229401496703205376 1/1267650600228229401496703205375\nend\n",
            WideRow,
            3,
        ),
        ("begin\n1 2 rational\n 1 1.5\nend\n", BadNumber, 3),
        ("begins\nbegin\n", BadHeader, 3),
        ("\rbegin\r\n\r1\r2\rinteger\r\n\r\n", NoEnd, 4),
    ];
    for (text, kind, line) in rows {
        let stop = poly_of(rt.alloc(), text.as_bytes()).err();
        assert_eq!(rt;
            stop,
            Some(ParseStop::Bad(BadFile { kind, line })),
            "{text}"
        );
    }
}

/// A text that is accepted, and its polyhedron: the rows one after the other, and which are linear.
#[derive(Clone, Copy)]
struct Accepted {
    text: &'static str,
    kind: Kind,
    n: u32,
    entries: &'static [i128],
    linear: &'static [bool],
    nonnegative: bool,
}

#[test]
fn gives_the_rows(rt: HostRuntime) -> Result<(), Fail> {
    let alloc = rt.alloc();
    for row in [
        Accepted {
            text: "names\n linearity 1 2\nH-representation\nbegin\n2 2 rational\n +1/2 -01\n 0/3 4\nend\nmaximize\n",
            kind: Kind::H,
            n: 2,
            entries: &[1, -2, 0, 1],
            linear: &[false, true],
            nonnegative: false,
        },
        Accepted {
            text: "begin\n1 2 integer\n 1 170141183460469231731687303715884105727\nend",
            kind: Kind::H,
            n: 2,
            entries: &[1, 170141183460469231731687303715884105727],
            linear: &[false],
            nonnegative: false,
        },
        Accepted {
            text: "V-representation\nbegin\n***** 2 integer\n 3/3 1/6 0 -4 end of the numbers\n",
            kind: Kind::V,
            n: 2,
            entries: &[6, 1, 0, -1],
            linear: &[false, false],
            nonnegative: false,
        },
        Accepted {
            text: "V-representation\nlinearity 1 3 2\nlinearity 2 1 3\nH-representation\n\
                   begin\n3 1 rational 0 -7 5/10 end\n",
            kind: Kind::H,
            n: 1,
            entries: &[0, -1, 1],
            linear: &[true, false, true],
            nonnegative: false,
        },
        Accepted {
            text: "V-representation\nnonnegative\nH-representation\nnonnegative 1\nlinearity 1 1\nbegin\n1 2 integer\n 1 -1\nend\n",
            kind: Kind::H,
            n: 2,
            entries: &[1, -1],
            linear: &[true],
            nonnegative: true,
        },
        Accepted {
            text: "begin\n0 3 integer\nend\n",
            kind: Kind::H,
            n: 3,
            entries: &[],
            linear: &[],
            nonnegative: false,
        },
    ] {
        let poly = poly_of(alloc, row.text.as_bytes())?;
        let found = contents_of(alloc, &poly)?;
        let want = Contents {
            kind: row.kind,
            n: row.n,
            entries: Vec::from_slice(alloc, row.entries)?,
            linear: Vec::from_slice(alloc, row.linear)?,
            nonnegative: row.nonnegative,
            text: Vec::from_slice(alloc, row.text.as_bytes())?,
        };
        assert_eq!(rt; found, want, "{}", row.text);
    }
    Ok(())
}

/// What a polyhedron gives: its rows one after the other, which are linear, and its text.
#[derive(PartialEq, Eq, Debug, Drop)]
struct Contents {
    kind: Kind,
    n: u32,
    entries: Vec<i128>,
    linear: Vec<bool>,
    nonnegative: bool,
    text: Vec<u8>,
}

fn contents_of(alloc: Global, poly: &Poly) -> Result<Contents, Fail> {
    Ok(Contents {
        kind: poly.kind(),
        n: poly.n(),
        entries: entries_of(alloc, poly)?,
        linear: marks_of(alloc, poly)?,
        nonnegative: poly.nonnegative(),
        text: Vec::from_slice(alloc, poly.text())?,
    })
}

fn entries_of(alloc: Global, poly: &Poly) -> Result<Vec<i128>, AllocFailed<i128>> {
    let mut entries = Vec::new(alloc);
    for i in 0..poly.rows() {
        for x in poly.row(i + 1) {
            entries.push(x.get())?;
        }
    }
    Ok(entries)
}

fn marks_of(alloc: Global, poly: &Poly) -> Result<Vec<bool>, AllocFailed<bool>> {
    let mut marks = Vec::new(alloc);
    for i in 0..poly.rows() {
        marks.push(poly.is_linear(i + 1))?;
    }
    Ok(marks)
}

/// How the reading of a source ends: with what, how much of it is left, and how often a read has failed.
#[derive(PartialEq, Eq, Debug, Drop)]
struct End {
    read: Result<Contents, ReadStop>,
    left: usize,
    faults: u64,
}

fn end_of(alloc: Global, text: &[u8], calls: &[Call]) -> Result<End, Fail> {
    let mut source = MemSource::new(text, calls);
    let read = match read_poly(alloc, &mut source) {
        Ok(poly) => Ok(contents_of(alloc, &poly)?),
        Err(stop) => Err(stop),
    };
    Ok(ends(read, source.left().len(), source.faults()))
}

fn ends(read: Result<Contents, ReadStop>, left: usize, faults: u64) -> End {
    End { read, left, faults }
}

#[test]
fn reads_sources(rt: HostRuntime) -> Result<(), Fail> {
    let alloc = rt.alloc();
    let row = b"begin\n1 2 integer\n 3 6\nend\n".as_slice();
    let long: Vec<u8> = Vec::from_elem(alloc, b'\n', MOST_FILE_BYTES + 3)?;
    let of_row = Contents {
        kind: Kind::H,
        n: 2,
        entries: Vec::from_slice(alloc, &[1, 2])?,
        linear: Vec::from_slice(alloc, &[false])?,
        nonnegative: false,
        text: Vec::from_slice(alloc, row)?,
    };
    let too_long = BadFile {
        kind: TooLong,
        line: 0,
    };
    let cases = [
        (
            "in pieces",
            row,
            [Call::AtMost(3), Call::AtMost(1)].as_slice(),
            ends(Ok(of_row), 0, 0),
        ),
        (
            "a read that fails",
            row,
            &[Call::AtMost(25), Call::Fail],
            ends(Err(ReadStop::Fault), 2, 1),
        ),
        (
            "one byte past the longest file",
            &long,
            &[],
            ends(Err(ReadStop::Bad(too_long)), 2, 0),
        ),
    ];
    for (name, text, calls, want) in cases {
        assert_eq!(rt; end_of(alloc, text, calls)?, want, "{name}");
    }
    Ok(())
}
