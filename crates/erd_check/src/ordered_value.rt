use crate::json_order::json_order;
use serde_json::Value;
use std::cmp::Ordering;

/// A value that is compared by `json_order`.
#[derive(Clone, Copy, Drop)]
pub(crate) struct OrderedValue<'a> {
    pub(crate) value: &'a Value,
}

impl<'a> PartialEq for OrderedValue<'a> {
    ghost use Rattle.std.specs.Cmp.{eq_by_cmp_equiv, on_equiv, partial_equiv_from_equiv};
    ghost use Rattle.std.specs.Ordering.{eq_by_cmp};
    ghost use Rattle.serde_json.specs.View.{view};
    ghost use Rattle.erd_check.specs.code.JsonOrder.{json_cmp};
    ghost use Rattle.erd_check.specs.code.JsonOrders.{json_cmp_total};

    ghost eq = { λ a b. eq_by_cmp json_cmp (view a.value.now) (view b.value.now) };

    ghost laws = { partial_equiv_from_equiv (on_equiv (λ a. view a.value.now) (eq_by_cmp_equiv json_cmp_total)) };

    fn eq(&self, other: &OrderedValue<'a>) -> bool {
        json_order(self.value, other.value).is_eq()
    }
}

impl<'a> Eq for OrderedValue<'a> {
    ghost use Rattle.std.specs.Cmp.{eq_by_cmp_equiv, on_equiv};
    ghost use Rattle.serde_json.specs.View.{view};
    ghost use Rattle.erd_check.specs.code.JsonOrders.{json_cmp_total};

    ghost laws = { on_equiv (λ a. view a.value.now) (eq_by_cmp_equiv json_cmp_total) };
}

impl<'a> PartialOrd for OrderedValue<'a> {
    ghost use Rattle.std.specs.Cmp.{on_total, partial_order_from_total};
    ghost use Rattle.std.specs.Ordering.{as_partial_cmp};
    ghost use Rattle.serde_json.specs.View.{view};
    ghost use Rattle.erd_check.specs.code.JsonOrder.{json_cmp};
    ghost use Rattle.erd_check.specs.code.JsonOrders.{json_cmp_total};

    ghost partial_cmp = { as_partial_cmp (λ a b. json_cmp (view a.value.now) (view b.value.now)) };

    ghost laws = { partial_order_from_total (on_total (λ a. view a.value.now) json_cmp_total) };

    fn partial_cmp(&self, other: &OrderedValue<'a>) -> Option<Ordering> {
        Some(json_order(self.value, other.value))
    }
}

impl<'a> Ord for OrderedValue<'a> {
    ghost use Rattle.std.proofs.Common.{refl};
    ghost use Rattle.std.specs.Cmp.{on_total};
    ghost use Rattle.serde_json.specs.View.{view};
    ghost use Rattle.erd_check.specs.code.JsonOrder.{json_cmp};
    ghost use Rattle.erd_check.specs.code.JsonOrders.{json_cmp_total};

    ghost cmp = { λ a b. json_cmp (view a.value.now) (view b.value.now) };

    ghost total = { on_total (λ a. view a.value.now) json_cmp_total };

    ghost matches_partial_cmp = { λ a b. refl };

    ghost matches_eq = { λ a b. refl };

    fn cmp(&self, other: &OrderedValue<'a>) -> Ordering {
        json_order(self.value, other.value)
    }
}
