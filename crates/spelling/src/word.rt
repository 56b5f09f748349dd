// Words, id ('.' id)*, of which a key's name is one.
ghost use Rattle.std.specs.Prelude.{◌≡◌, ◌<◌, length, drop};
ghost use Rattle.paper.specs.Tokens.{is_id_start, is_id_byte, word_more, is_key};
ghost use Rattle.spelling.specs.Words.{goes_on};

// Whether a byte may begin an id: a letter or an underscore. A small letter is the most frequent,
// and asked for by itself.
pub fn is_id_start(byte: u8) -> bool
    ensures { result ≡ is_id_start byte }
{
    if matches!(byte, b'a'..=b'z') {
        return true;
    }
    matches!(byte, b'A'..=b'Z') || byte == b'_'
}

// Whether a byte may stand in an id: a letter, a digit or an underscore.
pub(crate) fn is_id_byte(byte: u8) -> bool
    ensures { result ≡ is_id_byte byte }
{
    if is_id_start(byte) {
        return true;
    }
    matches!(byte, b'0'..=b'9')
}

fn goes_on(s: &[u8], i: usize) -> bool
    requires { i < length s.now }
    ensures { result ≡ goes_on s.now i }
{
    is_id_byte(s[i]) || s[i] == b'.' && i + 1 < s.len() && is_id_start(s[i + 1])
}

// How many bytes from an offset on belong to a word that began before it.
pub fn word_more(s: &[u8], at: usize) -> usize
    ensures { result ≡ word_more (drop at s.now) }
{
    (at..s.len()).take_while(|i| goes_on(s, *i)).count()
}

// Whether bytes are a key by the grammar: one word, and nothing else.
pub fn is_key(s: &[u8]) -> bool
    ensures { result ≡ is_key s.now }
{
    !s.is_empty() && is_id_start(s[0]) && word_more(s, 1) == s.len() - 1
}
