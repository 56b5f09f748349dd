// A table of user numbers from a text: a decimal number on each line, and nothing else. Empty lines are passed over.
use spelling::runs::{Run, run_end};

// The number that some bytes spell in decimal, unless they have another byte or it is 2^64 or more.
fn decimal(digits: &[u8]) -> Option<u64> {
    let mut n = 0u64;
    for digit in digits {
        if !digit.is_ascii_digit() {
            return None;
        }
        n = n.checked_mul(10)?.checked_add(u64::from(*digit - b'0'))?;
    }
    Some(n)
}

// Reads the numbers of a text into a table, as many as it has room for, and answers how many these are; or where a line begins that is no
// number.
pub(crate) fn read_table(text: &[u8], table: &mut [u64]) -> Result<usize, usize> {
    let mut count = 0;
    let mut at = 0;
    // A loop, and no `split`: a line that is no number is answered by its offset.
    while at < text.len() {
        let end = run_end(text, at, Run::Line);
        if at < end {
            let n = decimal(&text[at..end]).ok_or(at)?;
            if let Some(place) = table.get_mut(count) {
                *place = n;
                count += 1;
            }
        }
        at = end + 1;
    }
    Ok(count)
}
