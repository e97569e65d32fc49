//! What holds of least costs, of the numbers modulo 65,536 that stand for them, and of what is sent on.

ghost use Rattle.modulo.specs.Priors.{PriorLeftOut};
ghost use Rattle.modulo.specs.Spread.{ColumnsSpread, ColumnsStand, BitsNear, BitsFit, BitsStand};

/// The finite entries of a column lie within reach times ceiling of each other.
pub fn spread_holds()
    ensures { ColumnsSpread }
{}

/// Each entry of the columns modulo 65,536 stands for the least cost.
pub fn columns_stand_hold()
    ensures { ColumnsStand }
{}

/// The least costs with a bit 0 and 1 lie within (2 reach + 1) times ceiling of each other.
pub fn bits_near_hold()
    ensures { BitsNear }
{}

/// They differ by less than 2^31, whatever the reach.
pub fn bits_fit_hold()
    ensures { BitsFit }
{}

/// Candidates modulo 65,536, joined in whatever order, give the true reliability of a bit.
pub fn bits_stand_hold()
    ensures { BitsStand }
{}

/// What is sent on about a bit does not depend on its prior.
pub fn prior_left_out_holds()
    ensures { PriorLeftOut }
{}
