// The orders that the kinds derive are those of the definitions.
ghost use Rattle.kinds.specs.Orders.{Orders};

// Does nothing: its contract is the theorem.
pub fn orders_are_the_rules()
    ensures { Orders }
{}
