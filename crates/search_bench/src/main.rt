//! What a reverse search asks of a dictionary, at each cobasis of a small file, for bench/tests to compare.
#![tactic(auto)]

mod begin;
mod neighbours;
mod print;
mod stop;
mod visit;

use begin::begin;
use poly_io::StdinSource;
use std::io;
use visit::visit;

fn main(rt: HostRuntime) -> io::Result<()> {
    let mut input = StdinSource::new(rt.stdin());
    match begin(rt.alloc(), &mut input) {
        Ok(found) => visit(&rt, found),
        Err(stop) => {
            let word = stop.word();
            println!(rt; "{word}")
        }
    }
}
