//! Laws of ratios. Each is the contract of a function that does nothing.
ghost use Rattle.xn_frac.specs.Laws.{OneLowestForm, SameChains, SumsCommute, SumsAssociate, ProductsCommute, ProductsAssociate, ProductsSpread, QuotientsUndoProducts, OrderIsTotal, SumsKeepOrder};

/// A number has one form in lowest terms.
pub fn one_lowest_form()
    ensures { OneLowestForm }
{}

/// Being one number is passed on.
pub fn same_chains()
    ensures { SameChains }
{}

/// The order of two terms is free.
pub fn sums_commute()
    ensures { SumsCommute }
{}

/// The grouping of three terms is free.
pub fn sums_associate()
    ensures { SumsAssociate }
{}

/// The order of two factors is free.
pub fn products_commute()
    ensures { ProductsCommute }
{}

/// The grouping of three factors is free.
pub fn products_associate()
    ensures { ProductsAssociate }
{}

/// A product with a sum is the sum of the products.
pub fn products_spread()
    ensures { ProductsSpread }
{}

/// A quotient times its divisor is the number.
pub fn quotients_undo_products()
    ensures { QuotientsUndoProducts }
{}

/// Of two numbers one is below the other or is not the greater.
pub fn order_is_total()
    ensures { OrderIsTotal }
{}

/// The same term on both sides keeps an order.
pub fn sums_keep_order()
    ensures { SumsKeepOrder }
{}
