// The contract of a call holds it to the demands. This function only shows it: were the promise of `check` weakened, its own proof could
// follow, and this one could not. The other calls are held so in `promises`, which stands on this crate.
ghost use Rattle.paper.specs.Demands.{CheckAnswered};

use crate::text;
use paper::Refusal;

fn checked(text: &[u8], list: &[u8]) -> Result<(), Refusal>
    ensures { CheckAnswered text.now list.now result }
{
    text::check(text, list)
}
