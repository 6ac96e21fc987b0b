//! Facts about a key that its type guarantees, but that a type parameter doesn't carry.
ghost use Rattle.std.specs.Prelude.{◌<◌, ◌^◌};
ghost use Rattle.office_values.specs.Ids.{IsId};

use office_values::id::Id;

/// A type whose values have a property, such as that an identifier is 1 to 32 plain bytes. The property is known of a value after `look`.
pub trait Known {
    ghost is_known: { Self → Type 0 };

    /// Makes the property of this value known, at no cost.
    fn look(&self)
        ensures { is_known self.now };
}

impl Known for Id {
    ghost is_known = { IsId };

    fn look(&self) {
        self.as_bytes();
    }
}

impl Known for u64 {
    ghost is_known = { λ n. n < 2 ^ 64 };

    fn look(&self) {
        let _number = *self;
    }
}

impl<A: Known, B: Known> Known for (A, B) {
    ghost is_known = { λ pair. A.is_known pair.0 × B.is_known pair.1 };

    fn look(&self) {
        self.0.look();
        self.1.look();
    }
}
