// The laws of the order, of minimal sets and of the full list.
ghost use Rattle.diagnosis.specs.Marked.{MarkedGatesSet};
ghost use Rattle.diagnosis.specs.ListLaws.{OrderStrictTotal, MinimalWhenNoneDrops, ExplainingContainsMinimal, FullListExact, FullListUnique, FullListOnce};

pub fn marked_gates_are_a_set()
    ensures { MarkedGatesSet }
{}

pub fn order_is_strict_and_total()
    ensures { OrderStrictTotal }
{}

pub fn minimal_when_none_drops()
    ensures { MinimalWhenNoneDrops }
{}

pub fn explaining_contains_minimal()
    ensures { ExplainingContainsMinimal }
{}

pub fn full_list_is_exact()
    ensures { FullListExact }
{}

pub fn full_list_is_unique()
    ensures { FullListUnique }
{}

pub fn full_list_has_each_once()
    ensures { FullListOnce }
{}
