//! All cobases of rows, from the root on.
use crate::neighbours::push_neighbours;
use crate::print::{print_cobasis, print_root};
use phase_one::Found;
use std::io;

/// Prints the root, and a line for each cobasis that pivots reach from it.
pub fn visit(rt: &HostRuntime, found: Found) -> io::Result<()> {
    let Found {
        root,
        dict,
        lines: _,
    } = found;
    print_root(rt, &root)?;
    let mut dicts = Vec::new(rt.alloc());
    dicts.push(dict)?;
    for i in 0..MOST_COBASES {
        if i >= dicts.len() {
            return Ok(());
        }
        let dict = dicts[i].copy()?;
        print_cobasis(rt, &dict, &root)?;
        if let Err(stop) = push_neighbours(&mut dicts, &dict) {
            let word = stop.word();
            return println!(rt; "{word}");
        }
    }
    println!(rt; "too many cobases")
}

// How many are printed; a file of ten rows has no more than 252.
const MOST_COBASES: usize = 10000;
