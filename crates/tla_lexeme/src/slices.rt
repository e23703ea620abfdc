//! Parts of slices.
ghost use Rattle.std.specs.Prelude.{◌≡◌, [], ◌∷◌, MatchOption, nat_eq};
ghost use Rattle.std.specs.List.{starts_with};

/// The first item, and what follows it.
pub fn first_of<T: Copy>(items: &[T]) -> Option<(T, &[T])>
    ensures { MatchOption result (items.now ≡ []) (λ p. items.now ≡ p.0 ∷ p.1.now) }
{
    let (first, more) = items.split_first()?;
    Some((*first, more))
}

pub fn begins(text: &[u8], prefix: &[u8]) -> bool
    ensures { result ≡ starts_with nat_eq text.now prefix.now }
{
    text.starts_with(prefix)
}
