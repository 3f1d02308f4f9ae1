// The elements of the input array, in each of the shapes that a command wants.
ghost use Rattle.std.specs.Prelude.{◌≡◌, ◌≢◌, ◌∷◌, [], MatchOption};

// `[a]`.
pub(crate) fn single<T: Drop>(elements: Vec<T>) -> Option<T>
    ensures { MatchOption result ((x : _) → elements.items ≢ x ∷ [])
        (λ x. elements.items ≡ x ∷ []) }
{
    let (element, rest) = first_and_rest(elements)?;
    if rest.is_empty() { Some(element) } else { None }
}

// `[a, b]`.
pub(crate) fn pair<T: Drop>(elements: Vec<T>) -> Option<(T, T)>
    ensures { MatchOption result ((x y : _) → elements.items ≢ x ∷ y ∷ [])
        (λ p. elements.items ≡ p.0 ∷ p.1 ∷ []) }
{
    let (element, rest) = first_and_rest(elements)?;
    Some((element, single(rest)?))
}

// `[a, ..]`.
pub(crate) fn first_and_rest<T: Drop>(mut elements: Vec<T>) -> Option<(T, Vec<T>)>
    ensures { MatchOption result (elements.items ≡ []) (λ p. elements.items ≡ p.0 ∷ p.1.items) }
{
    if elements.is_empty() {
        return None;
    }
    let first = elements.remove(0);
    Some((first, elements))
}
