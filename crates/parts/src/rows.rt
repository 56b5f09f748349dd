// The rows of parts: three words for each, in the order of the parts.
//
// A row holds the part's first byte, the byte past its last, and the node of its root. specs/Rows.antt has the definition.
ghost use Rattle.std.specs.Prelude.{◌≡◌, ◌+◌, ◌^◌, ◌<◌, set};
ghost use Rattle.parts.specs.Rows.{Has, row_at, stretch_at, root_at};

pub const WORDS: usize = 3;

// The offset of a part's first byte.
pub fn start_at(parts: &[u32], part: usize) -> usize
    requires { Has parts.now part }
    ensures { result ≡ (stretch_at parts.now part).from }
{
    parts[part * WORDS] as usize
}

// The offset past its last byte.
pub fn end_at(parts: &[u32], part: usize) -> usize
    requires { Has parts.now part }
    ensures { result ≡ (stretch_at parts.now part).to }
{
    parts[part * WORDS + 1] as usize
}

// The node of its root.
pub fn root_at(parts: &[u32], part: usize) -> usize
    requires { Has parts.now part }
    ensures { result ≡ root_at parts.now part }
{
    parts[part * WORDS + 2] as usize
}

// Stores where a part begins and ends.
pub(crate) fn put_stretch(parts: &mut [u32], part: usize, start: u32, end: u32)
    requires { Has parts.old part }
    ensures { parts.new ≡ set (set parts.old (row_at part) start) (row_at part + 1) end }
{
    let at = part * WORDS;
    parts[at] = start;
    parts[at + 1] = end;
}

// Stores where its root stands.
pub(crate) fn put_root(parts: &mut [u32], part: usize, root: usize)
    requires { Has parts.old part × (root < 2 ^ 32) }
    ensures { parts.new ≡ set parts.old (row_at part + 2) root }
{
    parts[part * WORDS + 2] = root as u32;
}
