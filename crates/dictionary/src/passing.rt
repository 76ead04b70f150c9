//! The products of a pivot that pass.
use poly_model::Place;

/// Two products that a pivot takes, that of the numbers at the places `a` and `b` and that of those at `c` and `d`: one of them,
/// or their difference, has no 127 bits. With the phase and the key of the dictionary it is an `Overflow` (`Dict::overflow`);
/// it is a seventieth of that, so a walk hands it on.
#[derive(Clone, Copy, PartialEq, Eq, Debug)]
pub struct PassingProducts {
    pub a: Place,
    pub b: Place,
    pub c: Place,
    pub d: Place,
}
