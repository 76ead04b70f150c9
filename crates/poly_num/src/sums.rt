// Negation, sums and differences.
ghost use Rattle.std.specs.Option.{SomeIff};
ghost use Rattle.std.specs.Prelude.{◌≡◌, ◌+ℤ◌, ◌-ℤ◌, neg_ℤ};
ghost use Rattle.poly_num.specs.Numbers.{IsNum};

use crate::Num;

/// The number with its sign turned.
pub fn neg(a: Num) -> Num
    ensures { result ≡ neg_ℤ a }
{
    Num { value: -a.value }
}

/// `a + b`; `None` exactly where it passes 127 bits.
pub fn add(a: Num, b: Num) -> Option<Num>
    ensures { SomeIff result (IsNum (a +ℤ b)) (a +ℤ b) }
{
    match a.value.checked_add(b.value) {
        Some(sum) => Num::new(sum),
        None => None,
    }
}

/// `a - b`; `None` exactly where it passes 127 bits.
pub fn sub(a: Num, b: Num) -> Option<Num>
    ensures { SomeIff result (IsNum (a -ℤ b)) (a -ℤ b) }
{
    match a.value.checked_sub(b.value) {
        Some(difference) => Num::new(difference),
        None => None,
    }
}
