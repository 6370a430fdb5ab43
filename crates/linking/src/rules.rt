// The linking rule at checked settings. A module of its own, so that what the threshold is can be part of the type.
ghost use Rattle.std.specs.Prelude.{◌≡◌, ◌<◌};
ghost use Rattle.std.proofs.Props.{props};
ghost use Rattle.linking.specs.Reverse.{reverse};

use outline::Direction;

#[derive(Clone, Copy)]
pub struct Rule {
    // the least overlap of partners
    pub threshold: u16,
    // what an overlap divides: the longer the overlap, the lower the score
    pub weight: u16,
    // the standard stem width; 0 means none
    pub width: u16,
    // the direction of one partner
    pub major: Direction,
    // and of the other, kept because to find it again for each pair slows linking by a fifth
    pub minor: Direction,
    ghost some_overlap: { 0 < threshold },
    ghost opposed: { minor ≡ reverse major } by { Prim.hlevel props },
}

pub mod making;
