//! From a file to the root of its search.
use crate::stop::Stop;
use hull_lift::system_of;
use linearity::prepare;
use phase_one::{Found, first};
use poly_io::Source;
use poly_model::Poly;
use poly_reader::read_poly;
use std::alloc::Global;

/// The root of the search of the file that a source gives.
pub fn begin<S: Source>(alloc: Global, source: &mut S) -> Result<Found, Stop> {
    let poly = read_poly(alloc, source)?;
    root_of(alloc, &poly)
}

fn root_of(alloc: Global, poly: &Poly) -> Result<Found, Stop> {
    let cone = system_of(alloc, poly)?;
    let prepared = prepare(alloc, &cone)?;
    Ok(first(alloc, prepared)?)
}
