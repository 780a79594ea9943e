// Faults as numbers and spots (docs/FORMATS.md, "Refusals").
ghost use Rattle.std.specs.Prelude.{◌≡◌};
ghost use Rattle.syntax.specs.Faults.{number_of, spot_of, type_fault};

use crate::{Fault, TypeError};

impl Fault {
    // The number of a fault.
    pub fn number(self) -> usize
        ensures { result ≡ number_of self }
    {
        match self {
            Fault::Length => 1,
            Fault::Counts => 2,
            Fault::Areas => 3,
            Fault::UnknownKindAt(_) => 4,
            Fault::WrongFieldAt(_) => 5,
            Fault::WrongTypeAt(_) => 6,
            Fault::BoundAt(_) => 7,
        }
    }

    // The node of a fault, 0 where there is none.
    pub fn spot(self) -> usize
        ensures { result ≡ spot_of self }
    {
        match self {
            Fault::Length | Fault::Counts | Fault::Areas => 0,
            Fault::UnknownKindAt(node)
            | Fault::WrongFieldAt(node)
            | Fault::WrongTypeAt(node)
            | Fault::BoundAt(node) => node,
        }
    }
}

impl TypeError {
    // The fault of a node that has no type.
    pub fn at(self, node: usize) -> Fault
        ensures { result ≡ type_fault self node }
    {
        match self {
            TypeError::Unfit => Fault::WrongTypeAt(node),
            TypeError::TooLong => Fault::BoundAt(node),
        }
    }
}
