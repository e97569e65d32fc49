//! What holds of every lawful trellis and every semiring, as functions whose contracts are the theorems.

ghost use Rattle.paths.specs.Choices.{PathsAreExact};
ghost use Rattle.paths.specs.Joins.{BitsAreJoins};
ghost use Rattle.paths.specs.Laws.{ColumnsAreJoins, MarginalsAreJoins, GroupingsAgree, ProductsAreJoins, LevelLaws};

use super::semiring::Weights;

/// The list of paths has each path once, and nothing else.
pub fn paths_hold()
    ensures { PathsAreExact }
{}

/// The columns that a pass computes are joins over walks.
pub fn columns_hold<W: Weights>()
    ensures { ColumnsAreJoins W.fine W.ops }
{}

/// The paths with a test of one stage's edge are joined by the edges of that stage.
pub fn marginals_hold<W: Weights>()
    ensures { MarginalsAreJoins W.fine W.ops }
{}

/// However neighbouring stages are made one, the last metastage joins all paths.
pub fn groupings_hold<W: Weights>()
    ensures { GroupingsAgree W.fine W.ops }
{}

/// Two neighbouring metastages make one that joins the walks across both.
pub fn products_hold<W: Weights>()
    ensures { ProductsAreJoins W.fine W.ops }
{}

/// Joined in whatever order, the candidates with a bit are the join over all paths with that bit.
pub fn bits_hold<W: Weights>()
    ensures { BitsAreJoins W.fine W.ops }
{}

/// The levels of metastages fit, end, and cover what they should.
pub fn levels_hold()
    ensures { LevelLaws }
{}
