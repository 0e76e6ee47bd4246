//! One extent.
ghost use Rattle.std.specs.Prelude.{◌≡◌, ◌+◌, ◌-◌, ◌<◌};
ghost use Rattle.iol_extent.specs.Extents.{Extent, end_of};

use iol_agg::Agg;
use std::collections::VecDeque;
use std::marker::Model;

/// An aggregate as bytes of a file, from `at` on.
#[derive(Drop)]
pub(crate) struct Piece {
    pub(crate) at: u32,
    pub(crate) agg: Agg,
    pub(crate) dirty: bool,
}

impl Model for Piece {
    ghost use Rattle.std.specs.Prelude.{◌+◌, ◌<◌, ◌^◌};
    ghost use Rattle.iol_hold.specs.Prelude.{byte_len};
    ghost use Rattle.iol_extent.specs.Extents.{Extent};

    ghost Value = { Extent };

    ghost view = { λ p. record { at = p.at; parts = p.agg; dirty = p.dirty } };

    ghost invariant = { λ p. p.at + byte_len p.agg < 2 ^ 32 };
}

impl Piece {
    pub(crate) fn end(&self) -> u32
        ensures { result ≡ end_of self.now }
    {
        self.at + self.agg.len()
    }
}
