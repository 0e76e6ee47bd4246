//! Laws about the definitions of the contracts. The functions do nothing; their contracts are the laws.
ghost use Rattle.iol_extent.specs.Laws.{HasOneTiling};

/// The gaps of a range of a file are unique. So the number of pages that they need is unique.
pub fn gaps_are_one()
    ensures { HasOneTiling }
{}
