//! How many words there are.
ghost use Rattle.std.specs.Prelude.{◌≡◌, ◌≢◌, ℕ, List, [], ◌∷◌, MatchOption, MatchResult};
ghost use Rattle.tm_text.specs.Pieces.{texts};

use crate::error::LineError;

/// No word.
pub fn no_words(words: &[&[u8]]) -> Result<(), LineError>
    ensures { MatchResult result (λ _. texts words.now ≡ []) (λ e. (e ≡ LineError.Bad) × (texts words.now ≢ [])) }
{
    match words {
        [] => Ok(()),
        _ => Err(LineError::Bad),
    }
}

/// The only word.
pub fn only<'a>(words: &[&'a [u8]]) -> Option<&'a [u8]>
    ensures { MatchOption result ((w : List ℕ) → texts words.now ≡ w ∷ [] → ⊥) (λ w. texts words.now ≡ w.now ∷ []) }
{
    match words {
        [word] => Some(*word),
        _ => None,
    }
}

/// The only two words.
pub fn pair<'a>(words: &[&'a [u8]]) -> Option<(&'a [u8], &'a [u8])>
    ensures { MatchOption result ((v w : List ℕ) → texts words.now ≡ v ∷ w ∷ [] → ⊥)
        (λ p. texts words.now ≡ p.0.now ∷ p.1.now ∷ []) }
{
    match words {
        [first, second] => Some((*first, *second)),
        _ => None,
    }
}

/// The only three words.
pub fn triple<'a>(words: &[&'a [u8]]) -> Option<(&'a [u8], &'a [u8], &'a [u8])>
    ensures { MatchOption result ((u v w : List ℕ) → texts words.now ≡ u ∷ v ∷ w ∷ [] → ⊥)
        (λ p. texts words.now ≡ p.0.now ∷ p.1.now ∷ p.2.now ∷ []) }
{
    match words {
        [first, second, third] => Some((*first, *second, *third)),
        _ => None,
    }
}

/// The first word, and those after it.
pub fn first<'w, 'a>(words: &'w [&'a [u8]]) -> Option<(&'a [u8], &'w [&'a [u8]])>
    ensures { MatchOption result (texts words.now ≡ []) (λ p. texts words.now ≡ p.0.now ∷ texts p.1.now) }
{
    match words {
        [first, rest @ ..] => Some((*first, rest)),
        [] => None,
    }
}
