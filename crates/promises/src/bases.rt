// How a numeral is written (02 e).
ghost use Rattle.paper.specs.BasesIgnored.{BasesIgnored};

// Types, values and code of a tree are those of the tree without its bases. So two texts that differ only in the bases of numerals are checked,
// judged and translated alike: with the same answer, but for the place of a refusal in the text where their places differ, and the same blocks.
pub fn bases_are_ignored()
    ensures { BasesIgnored }
{}
