//! Which rays of a cone are shown.
ghost use Rattle.std.specs.Prelude.{◌≡◌, ◌<◌, ◌≤◌, ◌↔◌, true, length, IsTrue};
ghost use Rattle.poly_model.specs.Systems.{row_of};
ghost use Rattle.convert_core.specs.Rays.{IsLinearPoint, HasLinearPoint, AreShown};

use poly_model::{Kind, System};

/// Which of the rays that the ray test finds are shown: all those of an H file; of a V file those that touch a point,
/// where a point row that is linear is touched by all.
#[derive(Clone, Copy, PartialEq, Eq, Debug)]
pub enum Rays {
    All,
    Touching,
}

/// Which rays of the cone are shown.
pub fn rays_of(cone: &System) -> Rays
    ensures { AreShown cone.now result }
{
    match cone.kind() {
        Kind::H => Rays::All,
        Kind::V => {
            if has_linear_point(cone) {
                Rays::All
            } else {
                Rays::Touching
            }
        }
    }
}

// Whether some row is linear and a point.
fn has_linear_point(cone: &System) -> bool
    ensures { IsTrue result ↔ HasLinearPoint cone.now }
{
    'rows: for i in 0..cone.rows() {
        if is_linear_point(cone, i + 1) {
            return true;
        }
    }
    false
}

// Whether row i, counted from 1, is linear and a point.
fn is_linear_point(cone: &System, i: u32) -> bool
    requires from_one { 0 < i }
    requires within { i ≤ length cone.now.rows }
    ensures { IsTrue result ↔ IsLinearPoint (row_of cone.now.rows i) }
{
    cone.is_linear(i) && cone.is_point(i)
}
