// The classes of the bytes of a text.
ghost use Rattle.std.specs.Prelude.{◌≡◌};
ghost use Rattle.text.specs.Bytes.{class_of};

// What a byte of a text is, apart from names and the law word.
#[derive(Clone, Copy)]
pub enum ByteClass {
    Digit(u8),
    Minus,
    Space,
    LineFeed,
    Foreign,
}

// The class of a byte.
pub fn class_of(b: u8) -> ByteClass
    ensures { result ≡ class_of b }
{
    match char::from(b) {
        '0'..='9' => ByteClass::Digit(b - b'0'),
        '-' => ByteClass::Minus,
        ' ' => ByteClass::Space,
        '\n' => ByteClass::LineFeed,
        _ => ByteClass::Foreign,
    }
}
