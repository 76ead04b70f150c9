//! What a sink had written before it got a buffer.
ghost use Rattle.std.specs.Prelude.{List, ℕ, Option, None};

use std::marker::Brand;

/// The bytes of a sink at one moment, as proofs name them. A caller that asks for growth since then takes a type
/// parameter with this bound, and the call that passes `Brand` for it picks the bytes in its proof. Where no proof
/// asks, `Brand` stands for none.
pub trait Base {
    /// What the sink had written then, where it tells that.
    ghost base: { Option (List ℕ) };
}

impl Base for Brand {
    ghost base = { None };
}
