//! Bytes as text, and the lines of texts.

ghost use Rattle.std.specs.Prelude.{◌≡◌, ◌<◌, ◌+◌, drop, length, option_map, position};
ghost use Rattle.ct_grammar.specs.Texts.{is_feed, text_in};

/// The text that these bytes are; None where they are no UTF-8.
#[tactic(auto, unfolding(crate::specs::Texts::text_in))]
pub fn text_in(bytes: &[u8]) -> Option<&str>
    ensures { option_map (λ text. text.now) result ≡ text_in bytes.now }
{
    match std::str::from_utf8(bytes) {
        Ok(text) => Some(text),
        Err(_) => None,
    }
}

/// The place of the line feed that ends the first line; None where the end of the text ends it.
pub fn first_feed(text: &[u8]) -> Option<usize>
    ensures { result ≡ position is_feed text.now }
{
    text.iter().position(|byte| *byte == b'\n')
}

/// What stands behind this place.
pub fn behind(text: &[u8], place: usize) -> &[u8]
    requires { place < length text.now }
    ensures { result.now ≡ drop (place + 1) text.now }
{
    &text[place + 1..]
}
