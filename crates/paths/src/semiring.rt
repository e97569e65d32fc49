//! What a pass computes with.

ghost use denote.Memory.{mem};
ghost use Rattle.std.specs.Prelude.{◌≡◌, ◌≤◌};
ghost use Rattle.paths.specs.Semirings.{Operations, Semiring as SemiringLaws};

/// The operations of a pass, lawful or not. The type that implements it is a marker; the values are of type `Value`.
pub trait Weights {
    type Value: Copy;

    ghost ops: { Operations Self.Value };

    ghost fine: { Self.Value → Type 0 };

    /// The value of no path.
    fn none() -> Self::Value
        ensures { result ≡ ops.none };

    /// The value of a path without edges.
    fn unit() -> Self::Value
        ensures { result ≡ ops.unit };

    /// The value of a cost.
    fn value(cost: u32) -> Self::Value
        ensures { result ≡ ops.value cost };

    /// Two alternatives taken together.
    fn join(x: Self::Value, y: Self::Value) -> Self::Value
        ensures { result ≡ ops.join x y };

    /// Two parts of one path.
    fn chain(x: Self::Value, y: Self::Value) -> Self::Value
        ensures { result ≡ ops.chain x y };

    // A value takes at most 16 bytes, so that a pass can keep some in a local array.
    ghost little: { (mem Self.Value.row).size ≤ 16 };
}

/// Operations that are those of a commutative semiring.
pub trait Semiring: Weights {
    ghost laws: { SemiringLaws Self.Weights.fine Self.Weights.ops };
}
