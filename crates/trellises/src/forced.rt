//! Which bits take both values on paths, as functions whose contracts are the theorems.

ghost use Rattle.trellises.specs.Forced.{InterleavedBitsFree, CodedBitsFree, DataBitsFree, LastBitsZero};

/// No interleaved bit of the inner trellis is forced.
pub fn interleaved_bits_free()
    ensures { InterleavedBitsFree }
{}

/// No coded bit of the outer trellis is forced, from four data bits on.
pub fn coded_bits_free()
    ensures { CodedBitsFree }
{}

/// No data bit of the outer trellis before the last two is forced.
pub fn data_bits_free()
    ensures { DataBitsFree }
{}

/// The last two data bits of the outer trellis are zero on every path.
pub fn last_bits_zero()
    ensures { LastBitsZero }
{}
