//! The reasons why there is nothing to explain.
ghost use Rattle.std.specs.Prelude.{◌≡◌};
ghost use Rattle.output_explain.specs.declared.fault.ExplainFault.TheVariants as faults;

use base::NoMemory;

/// Why a question has no answer. The faults are tested in this order.
#[derive(Clone, Copy, Debug, PartialEq, Eq)]
pub enum ExplainFault {
    /// No client of the net has the first name.
    NoClient,
    /// No client of the net has the second name.
    NoPublisher,
    /// The publisher has no publish of this number.
    NoPublication,
    /// Memory ran out.
    NoMemory,
}

impl From<NoMemory> for ExplainFault {
    ghost from_gives = { λ _ e. e ≡ faults.NoMemory };

    fn from(_: NoMemory) -> Self {
        ExplainFault::NoMemory
    }
}

impl ExplainFault {
    ghost use Rattle.std.specs.Prelude.{◌≡◌};
    ghost use Rattle.output_explain.specs.Asked.{fault_means};

    /// What the fault means, as a sentence.
    pub fn means(self) -> &'static [u8]
        ensures { result.now ≡ fault_means self }
    {
        match self {
            ExplainFault::NoClient => b"no client of the document has the first name",
            ExplainFault::NoPublisher => b"no client of the document has the second name",
            ExplainFault::NoPublication => b"the publisher has no publish command of this number",
            ExplainFault::NoMemory => b"memory ran out",
        }
    }
}
