//! The exchange of a row and a column in words where all of it fits, and in wide numbers else.
ghost use Rattle.std.specs.Option.{IfSome};
ghost use Rattle.std.specs.Prelude.{◌≡◌, ◌*◌, IfOk, IfErr, length};
ghost use Rattle.columns.specs.Cells.{AllowsExchange, IsTableAfter, ExchangePasses};
ghost use Rattle.columns.specs.Steps.{AreFactors, AreWordParts};

use crate::cells::Cells;
use crate::common::{factors_of, own_of, wide_own_of};
use crate::exchange::{Exchange, Passing, at_place};
use crate::into::exchange_into;
use crate::parts::{Factors, Parts};
use crate::size::{Size, common_size, size_of, size_of_all};
use crate::wide::wide_into;
use poly_num::Num;
use words::{Word, limit_of};

/// Writes the table after the exchange into `new`, by way of `own`, which has room for a column, and answers the new
/// denominator; where something passes, the place of that, and `new` says nothing.
pub fn exchange_cells(
    old: &Cells,
    own: &mut Cells,
    new: &mut Cells,
    x: &Exchange,
) -> Result<Num, Passing>
    requires can { AllowsExchange x.now old.now }
    requires room { length new.old ≡ x.now.width * x.now.height }
    requires own { length own.old ≡ x.now.height }
    ensures exchanged { IfOk result (λ d. IsTableAfter x.now old.now d new.new) }
    ensures passes { IfErr result (λ p. ExchangePasses x.now old.now p) }
    ensures room { length new.new ≡ length new.old }
    ensures own { length own.new ≡ length own.old }
{
    let factors = factors_of(old, x);
    if let Some(d) = old.exchange_words(own, new, x, &factors) {
        return Ok(d);
    }
    let d = old.exchange_wide(own, new, x, &factors)?;
    new.narrow();
    Ok(d)
}

impl Cells {
    // The exchange in words, where all of it fits: the new denominator.
    fn exchange_words(
        &self,
        own: &mut Cells,
        new: &mut Cells,
        x: &Exchange,
        factors: &Factors,
    ) -> Option<Num>
        requires can { AllowsExchange x.now self.now }
        requires factors { AreFactors x.now self.now factors.now }
        requires room { length new.old ≡ x.now.width * x.now.height }
        requires own { length own.old ≡ x.now.height }
        ensures exchanged { IfSome result (λ d. IsTableAfter x.now self.now d new.new) }
        ensures room { length new.new ≡ length new.old }
        ensures own { length own.new ≡ length own.old }
    {
        if self.is_wide {
            return None;
        }
        own.is_wide = false;
        own.size = Size::Words;
        if !own_of(&self.words, &mut own.words, x, factors) {
            return None;
        }
        let p = Word::of(factors.p)?;
        let u = Word::of(factors.u)?;
        let own: &[Word] = &own.words;
        let size = common_size(self.size, size_of(at_place(own, x.row)));
        let parts = Parts {
            x,
            factors,
            own,
            p,
            u,
            size,
            own_limit: limit_of(own, 0, x.height),
        };
        new.write_words(&self.words, &parts)
    }

    // The words after the exchange, where all of them fit: the new denominator.
    fn write_words(&mut self, cells: &[Word], parts: &Parts<Word>) -> Option<Num>
        requires parts { AreWordParts cells.now parts.now }
        requires room { length self.old ≡ parts.now.x.now.width * parts.now.x.now.height }
        ensures exchanged { IfSome result (λ d. IsTableAfter parts.now.x.now cells.now d self.new) }
        ensures room { length self.new ≡ length self.old }
    {
        self.is_wide = false;
        self.size = Size::Words;
        match exchange_into(cells, parts, &mut self.words) {
            Some(written) => {
                self.size = size_of_all(written.size, &self.words);
                Some(written.denominator.wide())
            }
            None => None,
        }
    }

    // The exchange in wide numbers: the new denominator.
    fn exchange_wide(
        &self,
        own: &mut Cells,
        new: &mut Cells,
        x: &Exchange,
        factors: &Factors,
    ) -> Result<Num, Passing>
        requires can { AllowsExchange x.now self.now }
        requires factors { AreFactors x.now self.now factors.now }
        requires room { length new.old ≡ x.now.width * x.now.height }
        requires own { length own.old ≡ x.now.height }
        ensures exchanged { IfOk result (λ d. IsTableAfter x.now self.now d new.new) }
        ensures passes { IfErr result (λ p. ExchangePasses x.now self.now p) }
        ensures room { length new.new ≡ length new.old }
        ensures own { length own.new ≡ length own.old }
    {
        own.is_wide = true;
        new.is_wide = true;
        wide_own_of(self, &mut own.wide, x, factors);
        let parts = Parts {
            x,
            factors,
            own: &own.wide,
            p: factors.p,
            u: factors.u,
            size: Size::Words,
            own_limit: 0,
        };
        wide_into(self, &parts, &mut new.wide)
    }
}
