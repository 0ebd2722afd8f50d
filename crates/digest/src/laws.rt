// What numbers of packages are good for, on a contract so that it is proved.
ghost use Rattle.digest.specs.Laws.{Distinct};

// Equal numbers are those of equal names.
pub fn numbers_tell_names()
    ensures { Distinct }
{}
