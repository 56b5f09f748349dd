// What the reader's stages hand on.
ghost use Rattle.std.specs.Prelude.{◌≡◌};
ghost use Rattle.reading.specs.Grown.{Settled, stopping};

use paper::Refusal;
use tokens::Stop;

// For how many tokens there is room.
#[derive(Clone, Copy)]
pub(crate) enum Scratch {
    // For those of a short text. Most texts have no more, however long they are, and less is to be cleared.
    Short,
    // For as many as any text has.
    Long,
}

// The tree of a text, by a number: how many nodes it has, or its root's. Beside it, how many parts of the text stand in the rows that were lent
// for them.
#[derive(Clone, Copy)]
pub(crate) struct Grown {
    pub tree: usize,
    pub parts: usize,
}

// Where there was room for any text.
pub(crate) fn settled(grown: Result<Grown, Stop>) -> Result<Grown, Refusal>
    requires { Settled grown }
    ensures { grown ≡ stopping result }
{
    match grown {
        Ok(grown) => Ok(grown),
        Err(Stop::Refused(refusal)) => Err(refusal),
        Err(Stop::Over) => unreachable!(),
    }
}
