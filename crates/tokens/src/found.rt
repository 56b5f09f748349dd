// What stands at a byte that no token before it covers.
#[derive(Clone, Copy)]
pub enum Lexeme {
    // A blank, up to an offset.
    Blank(usize),
    // A token of a kind, up to an offset.
    Token(u32, usize),
    // An octal numeral, up to an offset.
    Octal(usize),
    // An octal numeral above 2^128 - 1.
    OctalTooLarge,
    // Bytes that form no token.
    NoToken,
    // Any other numeral above 2^128 - 1.
    TooLarge,
}
