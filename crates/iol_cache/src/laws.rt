//! Laws about the definitions of the contracts. The functions do nothing; their contracts are the laws.
ghost use Rattle.iol_cache.specs.Laws.{HasOneEnd, HasOrLacksRoom, ReadsOrLacksRoom, WantsOneNumber};

/// A read has room or lacks room, and never both: the number of pages that it needs and the end of the file are unique.
pub fn room_is_one()
    ensures wanted { WantsOneNumber }
    ensures range { HasOrLacksRoom }
    ensures end { HasOneEnd }
    ensures read { ReadsOrLacksRoom }
{}
