ghost use Rattle.std.specs.Prelude.{◌≡◌, length};
ghost use Rattle.vtk_legacy.specs.Words.{word_is, is_unsigned, is_signed, is_real, is_vtk_type, is_numeric};

/// Whether the text is the word, without regard to ASCII case. The word is in lower case.
pub fn is_word(text: &[u8], word: &[u8]) -> bool
    ensures { result ≡ word_is text.now word.now }
{
    if text.len() != word.len() {
        return false;
    }
    for i in 0..text.len() {
        if text[i].to_ascii_lowercase() != word[i] {
            return false;
        }
    }
    true
}

#[tactic(auto, unfolding(crate::specs::Words::is_unsigned))]
fn is_unsigned_word(text: &[u8]) -> bool
    ensures { result ≡ is_unsigned text.now }
{
    is_word(text, b"unsigned_char")
        || is_word(text, b"unsigned_short")
        || is_word(text, b"unsigned_int")
        || is_word(text, b"unsigned_long")
}

#[tactic(auto, unfolding(crate::specs::Words::is_signed))]
fn is_signed_word(text: &[u8]) -> bool
    ensures { result ≡ is_signed text.now }
{
    is_word(text, b"char")
        || is_word(text, b"short")
        || is_word(text, b"int")
        || is_word(text, b"long")
}

#[tactic(auto, unfolding(crate::specs::Words::is_real))]
fn is_real_word(text: &[u8]) -> bool
    ensures { result ≡ is_real text.now }
{
    is_word(text, b"float") || is_word(text, b"double")
}

/// Whether the text begins with `vtk`.
#[tactic(auto, unfolding(crate::specs::Words::is_vtk_type))]
fn is_vtk_word(text: &[u8]) -> bool
    ensures { result ≡ is_vtk_type text.now }
{
    is_word(&text[..text.len().min(3)], b"vtk")
}

/// Whether the text names a type of numbers.
pub fn is_numeric_word(text: &[u8]) -> bool
    ensures { result ≡ is_numeric text.now }
{
    is_unsigned_word(text) || is_signed_word(text) || is_real_word(text) || is_vtk_word(text)
}
