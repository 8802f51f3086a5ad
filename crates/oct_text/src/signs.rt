ghost use Rattle.std.specs.Prelude.{◌≡◌};
ghost use Rattle.oct_text.specs.Numbers.{is_negative, without_sign};

/// The text without a sign.
pub fn unsigned(text: &[u8]) -> &[u8]
    ensures { result.now ≡ without_sign text.now }
{
    match text {
        [b'+' | b'-', rest @ ..] => rest,
        _ => text,
    }
}

/// Whether the text begins with a minus.
pub fn has_minus(text: &[u8]) -> bool
    ensures { result ≡ is_negative text.now }
{
    match text {
        [b'-', ..] => true,
        _ => false,
    }
}
