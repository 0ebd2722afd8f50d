// What the definitions promise.
ghost use Rattle.query.specs.Truth.{Truthful};

// Does nothing: its contract is the theorem.
pub fn answers_are_true()
    ensures { Truthful }
{}
