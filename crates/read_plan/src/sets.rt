//! What the search asks of sets of positions.
ghost use Rattle.std.specs.Prelude.{◌≡◌, ◌↔◌, ◌<◌, ℕ, IsTrue};
ghost use Rattle.ec_model.specs.Codes.{HasPosition};
ghost use Rattle.read_plan.specs.Plans.{LiesIn, size_of};
ghost use Rattle.read_plan.specs.Settling.{IsWith};

use ec_words::Mask;

/// Whether each position of one set is a position of the other.
pub fn lies_in(one: Mask, other: Mask) -> bool
    ensures { IsTrue result ↔ LiesIn one.0 other.0 }
{
    one.0 & other.0 == one.0
}

/// How many positions the set has.
pub fn size(set: Mask) -> u8
    ensures { result ≡ size_of set.0 }
{
    set.0.count_ones() as u8
}

/// The least position of a set.
pub fn lowest(set: Mask) -> u8
    requires { 0 < set.0 }
    ensures below { result < 16 }
    ensures has { HasPosition set.0 result }
    ensures least { (p : ℕ) → p < result → HasPosition set.0 p → ⊥ }
{
    set.0.trailing_zeros() as u8
}

/// The set without one of its positions.
pub fn without(set: Mask, q: u8) -> Mask
    requires below { q < 16 }
    requires has { HasPosition set.0 q }
    ensures { IsWith q result.0 set.0 }
{
    Mask(set.0 & !(1u16 << q))
}

/// The set and one position more.
pub fn with(set: Mask, q: u8) -> Mask
    requires below { q < 16 }
    requires lacks { HasPosition set.0 q → ⊥ }
    ensures { IsWith q set.0 result.0 }
{
    Mask(set.0 | 1u16 << q)
}

/// All positions of two sets.
pub fn both(one: Mask, other: Mask) -> Mask
    ensures one { LiesIn one.0 result.0 }
    ensures other { LiesIn other.0 result.0 }
{
    Mask(one.0 | other.0)
}
