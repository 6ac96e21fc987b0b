//! Lists of things that have identifiers.
ghost use Rattle.std.specs.Prelude.{◌≡◌, ℕ, List};
ghost use Rattle.std.specs.List.{list_any};
ghost use Rattle.office_values.specs.Ids.{same_id};
ghost use Rattle.office_commands.specs.Identified.{repeats_id};

use office_values::id::Id;

/// A type whose values have an identifier.
pub trait Identified {
    ghost id_of: { Self → List ℕ };

    /// The identifier of this value.
    fn id(&self) -> Id
        ensures { result ≡ id_of self.now };
}

// Whether one of the things has this identifier.
fn has_id<T: Identified>(things: &[T], id: Id) -> bool
    ensures { result ≡ list_any (λ y. same_id (T.id_of y) id) things.now }
{
    things.iter().any(|thing| thing.id() == id)
}

/// Whether two of the things have the same identifier. It allocates no memory.
pub fn repeats_id<T: Identified>(things: &[T]) -> bool
    ensures { result ≡ repeats_id T.id_of things.now }
{
    let mut rest = things;
    while let Some((first, others)) = rest.split_first() {
        if has_id(others, first.id()) {
            return true;
        }
        rest = others;
    }
    false
}
