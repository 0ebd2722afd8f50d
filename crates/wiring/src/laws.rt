// The laws that all above rests on, each on a contract so that it is proved.
ghost use Rattle.wiring.specs.Laws.{Persistence, Exactness, Locality, Steadiness, Restriction};
ghost use Rattle.wiring.specs.Rules.{Rules};

// The tests of fitting, own needs and candidates are the rules.
#[tactic(auto, using(crate::proofs::Ruled::rules))]
pub fn tests_are_rules()
    ensures { Rules }
{}

// What is known of a partial wiring stays so as choices are added.
#[tactic(auto, using(crate::proofs::Keeping::persistence))]
pub fn known_persists()
    ensures { Persistence }
{}

// On a whole wiring all is known.
#[tactic(auto, using(crate::proofs::Whole::exactness))]
pub fn whole_is_known()
    ensures { Exactness }
{}

// What is so at a bundle rests on its own choices and on those of what it reaches.
#[tactic(auto, using(crate::proofs::Within::locality))]
pub fn reach_decides()
    ensures { Locality }
{}

// New choices leave a wiring's bundles as they are.
#[tactic(auto, using(crate::proofs::Whole::steadiness))]
pub fn wirings_are_steady()
    ensures { Steadiness }
{}

// A part that wires do not leave is consistent by itself.
#[tactic(auto, using(crate::proofs::Whole::restriction))]
pub fn parts_stay_consistent()
    ensures { Restriction }
{}
