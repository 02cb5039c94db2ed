//! The numbers of the files of an operator's inputs.
ghost use Rattle.std.specs.Prelude.{◌≡◌};
ghost use Rattle.ncq_fill.specs.Counted.{AreOf, AreSome, IsOne};

use ncq_shelf::Inputs;

/// The number of the one input's file.
pub(crate) fn only(inputs: Inputs) -> u64
    requires { IsOne inputs }
    ensures { inputs ≡ Inputs.One result }
{
    match inputs {
        Inputs::One(number) => number,
        _ => unreachable!(),
    }
}

/// The numbers of the files of the left and of the right. A join of an expression with itself may
/// have one.
pub(crate) fn sides(inputs: Inputs) -> (u64, u64)
    requires { AreSome inputs }
    ensures { AreOf result.0 result.1 inputs }
{
    match inputs {
        Inputs::One(number) => (number, number),
        Inputs::Two(left, right) => (left, right),
        Inputs::Nothing => unreachable!(),
    }
}
