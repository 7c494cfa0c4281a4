//! Laws on orders. Each is the contract of a function that does nothing.
ghost use Rattle.xn_orders.specs.Laws.{OneOrdersFlaw, OrdersHaveNoFlaw, OrdersOrFlawed, WebHasNoLoop};

/// The lists of a list of edges are orders over them or have one flaw, and never both.
pub fn first_flaws()
    ensures either { OrdersOrFlawed }
    ensures none { OrdersHaveNoFlaw }
    ensures one { OneOrdersFlaw }
{}

/// The planarised graph of orders of a graph has no loop.
pub fn no_loops()
    ensures { WebHasNoLoop }
{}
