ghost use Rattle.std.specs.Prelude.{◌≡◌, [], ◌∷◌, MatchOption};

/// The first item and those behind it, if there is one.
pub fn split<T: Copy>(items: &[T]) -> Option<(T, &[T])>
    ensures { MatchOption result (items.now ≡ []) (λ p. items.now ≡ p.0 ∷ p.1.now) }
{
    match items {
        [] => None,
        [first, rest @ ..] => Some((*first, rest)),
    }
}
