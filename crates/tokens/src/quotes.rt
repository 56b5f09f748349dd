// Strings and comments.
ghost use Rattle.std.specs.Prelude.{◌+◌, ◌<◌, length, drop};
ghost use Rattle.paper.specs.Tokens.{scan_string, scan_comment, plain};
ghost use Rattle.tokens.specs.Scanned.{Stands};

use crate::found::Lexeme;
use crate::kinds;
use spelling::runs;
use spelling::runs::Run;

// After a quote: bytes other than quote and LF, and a quote.
pub(crate) fn string(text: &[u8], at: usize) -> Lexeme
    requires { at < length text.now }
    ensures { Stands text.now at (plain 0) (scan_string (drop (at + 1) text.now)) result }
{
    let end = runs::run_end(text, at + 1, Run::Quoted);
    if text.len() <= end {
        return Lexeme::NoToken;
    }
    if text[end] != b'\'' {
        return Lexeme::NoToken;
    }
    Lexeme::Token(kinds::STRING, end + 1)
}

// After a slash: another one, and what is left of the line.
pub(crate) fn comment(text: &[u8], at: usize) -> Lexeme
    requires { at < length text.now }
    ensures { Stands text.now at (plain 0) (scan_comment (drop (at + 1) text.now)) result }
{
    let next = at + 1;
    if text.len() <= next {
        return Lexeme::NoToken;
    }
    if text[next] != b'/' {
        return Lexeme::NoToken;
    }
    Lexeme::Blank(runs::line_end(text, next + 1))
}
