//! What holds of escaped texts beyond the calls.
ghost use Rattle.page_text.specs.Escaping.{EscapedIsPlain};

/// In an escaped text no byte begins or ends an element, and each `&` begins one of the three names.
pub fn escaped_is_plain()
    ensures { EscapedIsPlain }
{}
