// A count of a file's entries by the parts of a text, in 02's lines: `part K N` for each part, `accepted N`, `violated N`, `refused N`, and
// `cut N` where a last entry is cut; or `refusal NUMBER OFFSET` for a text or a list that is refused, or `refusal 25`. The programs `count` and
// `pollux` share it.
//
// The text is read once. The file streams through one buffer, as many whole entries at a time as this holds, so that its length takes no more
// memory. Nothing is written before the file has come to its end, or to one entry more than there may be.
#![tactic(auto)]

mod arguments;
mod course;
mod progress;
mod tell;
mod turns;

pub use arguments::count_files;
