//! Listings of both kinds and heads, with texts written by hand, and a listing that a fault cuts
//! off.
use super::*;
use poly_io::{Call, MemSink, WriteFault};
use poly_model::Kind;
use poly_num::Num;
use std::test::Fail;

fn numbers(values: [i128; 4]) -> Option<[Num; 4]> {
    Some([
        Num::new(values[0])?,
        Num::new(values[1])?,
        Num::new(values[2])?,
        Num::new(values[3])?,
    ])
}

/// Writes a listing of one line and some rows.
fn listing(out: &mut MemSink, kind: Kind, rows: &[[i128; 4]]) -> Result<(), WriteFault> {
    let mut listing = Listing::head(out, kind, 4, 1)?;
    if let Some(v) = numbers([0, 0, 0, 1]) {
        listing = listing.line(out, &v)?;
    }
    for row in rows {
        if let Some(v) = numbers(*row) {
            listing = listing.row(out, &v)?;
        }
    }
    listing.finish(out)
}

#[test]
fn prints_listings(rt: HostRuntime) -> Result<(), Fail> {
    let rows = [[2, 4, -1, 0], [6, 4, -9, 6], [0, 2, -4, 1]];
    let vertices = "V-representation\nlinearity 1 1\nbegin\n***** 4 rational\n 0 0 0 1\n \
                    1 2 -1/2 0\n 1 2/3 -3/2 1\n 0 2 -4 1\nend\n";
    let facets = "H-representation\nlinearity 1 1\nbegin\n***** 4 rational\n 0 0 0 1\n \
                  2 4 -1 0\n 6 4 -9 6\n 0 2 -4 1\nend\n";
    for (kind, text) in [(Kind::H, vertices), (Kind::V, facets)] {
        let mut out = MemSink::new(rt.alloc(), &[]);
        assert_eq!(rt; listing(&mut out, kind, rows.as_slice()), Ok(()));
        assert_eq!(rt; out.written(), text.as_bytes());
    }
    Ok(())
}

#[test]
fn prints_heads_and_stops_at_a_fault(rt: HostRuntime) -> Result<(), Fail> {
    let heads = [
        (0, "V-representation\nbegin\n***** 7 rational\n"),
        (
            3,
            "V-representation\nlinearity 3 1 2 3\nbegin\n***** 7 rational\n",
        ),
    ];
    for (lines, text) in heads {
        let mut out = MemSink::new(rt.alloc(), &[]);
        assert!(rt; Listing::head(&mut out, Kind::H, 7, lines).is_ok());
        assert_eq!(rt; out.written(), text.as_bytes());
    }
    let table = [Call::AtMost(99), Call::AtMost(3), Call::Fail];
    let mut out = MemSink::new(rt.alloc(), table.as_slice());
    assert_eq!(rt; listing(&mut out, Kind::V, [].as_slice()), Err(WriteFault));
    assert_eq!(rt; out.written(), b"H-representation\nlin".as_slice());
    Ok(())
}
