// The ordering traits of std for values, which sorting and sets need. Their laws are proved in `specs/private/Order.antt`.
ghost use Rattle.std.specs.Prelude.{Some, refl};
ghost use Rattle.std.specs.Cmp.{on_total, eq_by_cmp_equiv, partial_order_from_total, partial_equiv_from_equiv};
ghost use Rattle.std.specs.Ordering.{is_eq};
ghost use Rattle.jv_data.specs.private.Order.{compare_total};
ghost use Rattle.jv_data.specs.Value.{compare};
ghost use Rattle.jv_data.specs.View.{view};

use crate::{Val, order, same};
use std::cmp::Ordering;

impl PartialEq for Val {
    ghost eq = { λ v w. is_eq (compare (view v) (view w)) };

    ghost laws = { partial_equiv_from_equiv (eq_by_cmp_equiv (on_total view compare_total)) };

    fn eq(&self, other: &Val) -> bool {
        same(self, other)
    }
}

impl Eq for Val {
    ghost laws = { eq_by_cmp_equiv (on_total view compare_total) };
}

impl PartialOrd for Val {
    ghost partial_cmp = { λ v w. Some (compare (view v) (view w)) };

    ghost laws = { partial_order_from_total (on_total view compare_total) };

    fn partial_cmp(&self, other: &Val) -> Option<Ordering> {
        Some(order(self, other))
    }
}

impl Ord for Val {
    ghost cmp = { λ v w. compare (view v) (view w) };

    ghost total = { on_total view compare_total };

    ghost matches_partial_cmp = { λ v w. refl };

    ghost matches_eq = { λ v w. refl };

    fn cmp(&self, other: &Val) -> Ordering {
        order(self, other)
    }
}
