//! What is wrong with a file.

ghost use Rattle.std.specs.Prelude.{◌≡◌, Some};
ghost use Rattle.cost_file.specs.Records.{layer_of, fault};
ghost use Rattle.cost_file.specs.Texts.{layer_text, fault_text};

use plans::Refusal;
use std::error::Error;
use std::fmt;

/// Where a fault lies.
#[derive(Clone, Copy, PartialEq, Eq, Debug)]
pub enum Layer {
    /// In the file or in a record.
    File = 1,
    /// In the plan.
    Plan = 2,
    /// In what the file holds altogether.
    Contents = 3,
}

/// The number by which a layer is reported.
impl From<Layer> for u8 {
    ghost from_gives = { λ layer n. n ≡ layer_of layer };

    fn from(layer: Layer) -> u8 {
        layer as u8
    }
}

/// A layer is written as its number.
impl fmt::Display for Layer {
    ghost output = { λ layer. Some (layer_text layer) };

    fn fmt<W: fmt::Write>(&self, f: &mut fmt::Formatter<W>) -> fmt::Result {
        write!(f, "{}", u8::from(*self))
    }
}

/// The first question that a file fails, with the number of the record and the layer.
#[derive(Clone, Copy, PartialEq, Eq, Debug)]
pub struct Fault {
    pub refusal: Refusal,
    pub record: u32,
    pub layer: Layer,
}

impl Fault {
    pub(crate) fn new(refusal: Refusal, record: u32, layer: Layer) -> Fault
        ensures value { result ≡ fault refusal «record» layer }
    {
        Fault {
            refusal,
            record,
            layer,
        }
    }
}

/// A fault is written as three numbers: its refusal, the record and the layer.
impl fmt::Display for Fault {
    ghost output = { λ f. Some (fault_text f) };

    fn fmt<W: fmt::Write>(&self, f: &mut fmt::Formatter<W>) -> fmt::Result {
        write!(f, "{} {} {}", self.refusal, self.record, self.layer)
    }
}

impl Error for Fault {}
