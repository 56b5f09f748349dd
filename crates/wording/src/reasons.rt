// Why an input is refused, in words.
use std::io;

// The line of a refusal. Two say something else where they stand at the input's end; the line of 20 is that of a wrong priority.
fn reason(number: u8, at_end: bool) -> &'static str {
    match (number, at_end) {
        (8, true) | (24, _) => "the text ends too soon\n",
        (18, true) | (25, _) => "the instructions do not leave one bool at their end\n",
        (0 | 1, _) => "the text has more than 4,096 bytes\n",
        (2, _) => "the key list's length is not a multiple of 80, or is over 2,560\n",
        (3, _) => "a key record that breaks its layout\n",
        (4, _) => "a key record whose name repeats an earlier one\n",
        (5, _) => "bytes that form no token\n",
        (6, _) => "a numeral above 2^128 - 1\n",
        (7, _) => "a 1,025th token, and a text has at most 1,024\n",
        (8, _) => "a token that no restriction could go on with\n",
        (9, _) => "a 65th level of parentheses and prefix operators, and at most 64 may be open\n",
        (10, _) => "a string that is no such address\n",
        (11, _) => "a key that the key list does not have\n",
        (12, _) => "a field that a key of this kind does not have, or an unknown attribute\n",
        (13, _) => "an operator with operands of the wrong types\n",
        (14, _) => "the text as a whole is not a bool\n",
        (15, _) => "the buffer is too small for the blocks\n",
        (16, _) => "the blocks' length is 0, not a multiple of 512, or over 123 blocks\n",
        (17, _) => "a block that breaks its layout\n",
        (18, _) =>
            "an instruction that fails the load check, or a skip whose landing does not fit\n",
        (19, _) => "the entry's length is not that of an entry for the key list\n",
        (20, _) => "a priority of 2^31 or more\n",
        (21, _) => "the print has more than 4,096 bytes\n",
        (22, _) => "an octal numeral; write it in hex, binary or decimal, or run fix-octal\n",
        (23, _) => "a number that does not fit the width that it meets\n",
        _ => "",
    }
}

// Says why an input is refused with a number, at its end or before it.
pub fn say_reason(rt: &impl Print, number: u8, at_end: bool) -> io::Result<()> {
    rt.print(reason(number, at_end))
}
