// The worked examples hold of the definitions.
ghost use Rattle.kinds.specs.Examples.{Examples};

// Does nothing: its contract is the theorem.
pub fn examples_hold()
    ensures { Examples }
{}
