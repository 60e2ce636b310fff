// Kinds of value.
ghost use Rattle.std.specs.Prelude.{◌≡◌};
ghost use Rattle.values.specs.Kinds.{Arithmetic};

use source::node::{Condition, Operation};

// A kind of value is three functions of their inputs alone.
pub trait Kind: Copy {
    ghost arithmetic: { Arithmetic Self };

    fn constant(k: u32) -> Self
        ensures { result ≡ arithmetic.constant k };

    fn operate(operation: Operation, a: Self, b: Self) -> Self
        ensures { result ≡ arithmetic.operate operation a b };

    fn test(condition: Condition, a: Self, b: Self) -> bool
        ensures { result ≡ arithmetic.test condition a b };
}
