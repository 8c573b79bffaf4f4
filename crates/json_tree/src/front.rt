//! A byte or a word at the front.
ghost use Rattle.std.specs.Prelude.{◌≡◌, ◌≢◌, ◌∷◌, ◌++◌, ◌≤◌, length, List, ℕ, IfSome, IfNone};
ghost use Rattle.json_tree.specs.Fronts.{StartsWith, IsEither};

/// What stands behind the byte, where it comes first.
pub(crate) fn after_byte(bytes: &[u8], byte: u8) -> Option<&[u8]>
    ensures some { IfSome result (λ rest. bytes.now ≡ byte ∷ rest.now) }
    ensures none { IfNone result ((rest : List ℕ) → bytes.now ≢ byte ∷ rest) }
{
    let (first, rest) = bytes.split_first()?;
    if *first == byte { Some(rest) } else { None }
}

/// What stands behind one of the two bytes, where it comes first.
pub(crate) fn after_either(bytes: &[u8], one: u8, other: u8) -> Option<&[u8]>
    ensures some { IfSome result (λ rest. StartsWith (IsEither one other) bytes.now rest.now) }
    ensures none { IfNone result ((rest : List ℕ) → ¬ StartsWith (IsEither one other) bytes.now rest) }
{
    let (first, rest) = bytes.split_first()?;
    if *first == one || *first == other {
        Some(rest)
    } else {
        None
    }
}

/// What stands behind the word, where it comes first.
pub(crate) fn after_word<'a>(bytes: &'a [u8], word: &[u8]) -> Option<&'a [u8]>
    ensures some { IfSome result (λ rest. bytes.now ≡ word.now ++ rest.now) }
    ensures none { IfNone result ((rest : List ℕ) → bytes.now ≢ word.now ++ rest) }
{
    if !bytes.starts_with(word) {
        return None;
    }
    Some(&bytes[word.len()..])
}

/// What stands before the rest.
pub(crate) fn before<'a>(bytes: &'a [u8], rest: &[u8]) -> &'a [u8]
    requires { length rest.now ≤ length bytes.now }
    ensures { (front : List ℕ) → bytes.now ≡ front ++ rest.now → result.now ≡ front }
{
    &bytes[..bytes.len() - rest.len()]
}
