// The numbers and spots of what the compiler refuses, and how what is refused below becomes its own.
ghost use Rattle.std.specs.Prelude.{◌≡◌};
ghost use Rattle.compiler.specs.Refusals.{number_of_refusal, spot_of_refusal, refusal_over};
ghost use Rattle.compiler.specs.declared.Refusal.TheVariants.{Faulty};
ghost use Rattle.compiler.specs.declared.CompileError.TheVariants.{Refused};

use crate::{CompileError, Refusal};
use machine_rows::OverLimit;
use rule_rows::NodeOverLimit;
use syntax::Fault;

impl Refusal {
    pub fn number(self) -> usize
        ensures { result ≡ number_of_refusal self }
    {
        match self {
            Refusal::Faulty(fault) => fault.number(),
            Refusal::TooManyValues(_) => 8,
            Refusal::TooManyRows(_) => 9,
        }
    }

    // The node, 0 where there is none.
    pub fn spot(self) -> usize
        ensures { result ≡ spot_of_refusal self }
    {
        match self {
            Refusal::Faulty(fault) => fault.spot(),
            Refusal::TooManyValues(node) | Refusal::TooManyRows(node) => node,
        }
    }
}

impl From<Fault> for Refusal {
    ghost from_gives = { λ fault r. r ≡ Faulty fault };

    fn from(fault: Fault) -> Refusal {
        Refusal::Faulty(fault)
    }
}

impl From<NodeOverLimit> for Refusal {
    ghost from_gives = { λ over r. r ≡ refusal_over over.node over.limit };

    fn from(over: NodeOverLimit) -> Refusal {
        match over.limit {
            OverLimit::Values => Refusal::TooManyValues(over.node),
            OverLimit::Rows => Refusal::TooManyRows(over.node),
        }
    }
}

impl From<Refusal> for CompileError {
    ghost from_gives = { λ refusal e. e ≡ Refused refusal };

    fn from(refusal: Refusal) -> CompileError {
        CompileError::Refused(refusal)
    }
}
