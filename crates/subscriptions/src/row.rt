ghost use Rattle.subscriptions.specs.Keys.{figures_of, id_of};
ghost use Rattle.subscriptions.specs.declared.figures.Figures.{Figures as PlainFigures};
ghost use Rattle.std.proofs.Common.{rules, arith};

use crate::subscription::Subscription;
use fifo::keyed::Keyed;
use tables::Row;

impl Keyed for Subscription {
    ghost tag = { λ s. id_of (figures_of s) };

    fn key(&self) -> u32 {
        self.figures.id
    }
}

impl Row for Subscription {
    ghost Plain = { PlainFigures };

    ghost plain = { figures_of };

    ghost key_of = { id_of };

    ghost keyed = { first_of (Prim.search rules, Prim.grind (arith, Self.row.coded.inj)) };
}
