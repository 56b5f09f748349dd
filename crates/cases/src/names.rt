// The commands, each by its word.
ghost use Rattle.std.specs.Prelude.{◌≤◌, ◌≡◌, length};
ghost use Rattle.cases.specs.Names.{word_of, command_of, command_at};

use crate::scan::{part, scan};
use spelling::bytes::same_bytes;

// The first eight give what calls are lent, and the last fifteen print an answer.
#[derive(Clone, Copy, PartialEq, Eq)]
pub enum Command {
    Text,
    List,
    Entry,
    Old,
    Earlier,
    Table,
    Answers,
    Room,
    Title,
    Change,
    Show,
    Every,
    Code,
    Blocks,
    Translate,
    Print,
    FixOctal,
    Pact,
    Read,
    Check,
    Judge,
    Explain,
    Summarize,
    Recheck,
    Compare,
    Count,
    Load,
    Run,
    RunAll,
}

const COMMANDS: [Command; 29] = [
    Command::Text,
    Command::List,
    Command::Entry,
    Command::Old,
    Command::Earlier,
    Command::Table,
    Command::Answers,
    Command::Room,
    Command::Title,
    Command::Change,
    Command::Show,
    Command::Every,
    Command::Code,
    Command::Blocks,
    Command::Translate,
    Command::Print,
    Command::FixOctal,
    Command::Pact,
    Command::Read,
    Command::Check,
    Command::Judge,
    Command::Explain,
    Command::Summarize,
    Command::Recheck,
    Command::Compare,
    Command::Count,
    Command::Load,
    Command::Run,
    Command::RunAll,
];

impl Command {
    // The word that a line of it begins with.
    fn word(self) -> &'static [u8]
        ensures { result.now ≡ word_of self }
    {
        match self {
            Command::Text => b"text",
            Command::List => b"list",
            Command::Entry => b"entry",
            Command::Old => b"old",
            Command::Earlier => b"earlier",
            Command::Table => b"table",
            Command::Answers => b"answers",
            Command::Room => b"room",
            Command::Title => b"title",
            Command::Change => b"change",
            Command::Show => b"show",
            Command::Every => b"every",
            Command::Code => b"code",
            Command::Blocks => b"blocks",
            Command::Translate => b"translate",
            Command::Print => b"print",
            Command::FixOctal => b"fix_octal",
            Command::Pact => b"pact",
            Command::Read => b"read",
            Command::Check => b"check",
            Command::Judge => b"judge",
            Command::Explain => b"explain",
            Command::Summarize => b"summarize",
            Command::Recheck => b"recheck",
            Command::Compare => b"compare",
            Command::Count => b"count",
            Command::Load => b"load",
            Command::Run => b"run",
            Command::RunAll => b"run_all",
        }
    }
}

// The command whose word this is.
fn command_of(word: &[u8]) -> Option<Command>
    ensures { result ≡ command_of word.now }
{
    for command in COMMANDS {
        if same_bytes(command.word(), word) {
            return Some(command);
        }
    }
    None
}

// The command of the line at an offset.
pub(crate) fn command_at(file: &[u8], at: usize) -> Option<Command>
    requires { at ≤ length file.now }
    ensures { result ≡ command_at file.now at }
{
    command_of(part(file, at, scan(file, at, b':')))
}
