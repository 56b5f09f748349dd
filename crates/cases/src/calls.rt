// The calls, on what is given.
use crate::inputs::put_input;
use crate::names::Command;
use crate::scan::{not_understood, part};
use blocks::Block;
use paper::refused::ENTRY_RULE;
use paper::{Explanation, Judgement, Place, Refusal, Verdict};
use spelling::bytes::same_bytes;
use std::io;

// The blocks of instructions, for a list without keys.
fn write_code(rt: &impl Print, code: &[u8], room: &mut [u8]) -> io::Result<()> {
    if room.len() / Block::SIZE < Block::needed(code.len() / Block::INSTRUCTION) {
        return not_understood(rt);
    }
    blocks::write_blocks(code, 0, room);
    Ok(())
}

// For its blocks alone a text is translated without a word, unless it is refused.
fn say_translation(
    rt: &impl Print,
    call: Command,
    translation: Result<usize, Refusal>,
) -> io::Result<()> {
    if call == Command::Translate || translation.is_err() {
        return lines::say_done(rt, b"translated", translation);
    }
    Ok(())
}

// The longest print, fixed text, text of a contract, piece of an input, or list of answers, that is shown.
const SHOWN: usize = 100;

fn show(rt: &impl Print, bytes: &[u8]) -> io::Result<()> {
    if bytes.len() <= SHOWN {
        lines::say(rt, b": ")?;
        lines::say(rt, bytes)?
    }
    Ok(())
}

// What a call answered that writes into the room, and what it wrote, if that is short.
fn say_written(
    rt: &impl Print,
    what: &[u8],
    written: Result<usize, Refusal>,
    room: &[u8],
) -> io::Result<()> {
    lines::say_done(rt, what, written)?;
    match written {
        Ok(n) => show(rt, lines::start(room, n)),
        Err(_) => Ok(()),
    }
}

// The text of a contract, with the table that is given in bytes.
fn draft(
    rt: &impl Print,
    contract: &[u8],
    table: &[u8],
    names: &[u8],
    room: &mut [u8],
) -> io::Result<()> {
    let n = lines::kept(table.len() / lines::NUMBER);
    let numbers = lines::numbers(table, 0, n);
    let drafted = valve::pact(contract, lines::start(&numbers, n), names, room);
    say_written(rt, b"drafted", drafted, room)
}

// What broke for an entry, in numbers, and the piece itself as `explain` hands it back.
fn explain(rt: &impl Print, text: &[u8], list: &[u8], entry: &[u8]) -> io::Result<()> {
    let why = valve::reason(text, list, entry);
    lines::say_explanation(rt, why)?;
    match why {
        Explanation::Part(_, _, _, _) => show(rt, valve::explained_text(text, list, entry)),
        Explanation::Key(_, _, _) => show(rt, valve::explained_list(text, list, entry)),
        Explanation::Nothing(_) => Ok(()),
    }
}

// What a text names, and how many keys these are.
fn summarize(rt: &impl Print, text: &[u8], list: &[u8]) -> io::Result<()> {
    let named = valve::summarize(text, list);
    lines::say_summarizing(rt, named)?;
    let Ok(summary) = named else {
        return Ok(());
    };
    lines::say(rt, b" ")?;
    lines::say_number(rt, u64::from(valve::count_keys(summary.keys)))
}

// The earlier answer that a word tells; any other word tells a refusal.
fn earlier_answer(word: &[u8]) -> Judgement {
    if same_bytes(word, b"accepted") {
        return Ok(Verdict::Accepted);
    }
    if same_bytes(word, b"violated") {
        return Ok(Verdict::Violated);
    }
    Err(Refusal {
        number: ENTRY_RULE,
        place: Place::Entry(0),
    })
}

// The new entry against the old one that is given, with its earlier answer.
fn recheck(
    rt: &impl Print,
    file: &[u8],
    at: usize,
    text: &[u8],
    list: &[u8],
    new: &[u8],
) -> io::Result<()> {
    let mut all = [0u8; 65536];
    let o = put_input(rt, file, at, Command::Old, &mut all, 0)?;
    let e = put_input(rt, file, at, Command::Earlier, &mut all, o)?;
    let earlier = earlier_answer(part(&all, o, e));
    lines::say_rechecking(
        rt,
        valve::recheck(text, list, part(&all, 0, o), earlier, new),
    )
}

// The entries that are given end to end, by what the text says of each.
fn count(rt: &impl Print, text: &[u8], list: &[u8], entries: &[u8]) -> io::Result<()> {
    let mut numbers = [0u64; parts::MOST_PARTS];
    let counting = valve::count(text, list, entries, &mut numbers);
    lines::say_counting(rt, counting, &numbers)
}

// The answers of many entries, two hexadecimal digits each.
fn show_answers(rt: &impl Print, answers: &[u8]) -> io::Result<()> {
    if SHOWN < answers.len() {
        return Ok(());
    }
    lines::say(rt, b":")?;
    for answer in answers {
        print!(rt; " {answer:02x}")?;
    }
    Ok(())
}

fn judge_all(
    rt: &impl Print,
    list: &[u8],
    blocks: &[u8],
    entries: &[u8],
    answers: &mut [u8],
) -> io::Result<()> {
    lines::say_running_all(rt, valve::run_all(list, blocks, entries, answers))?;
    show_answers(rt, answers)
}

// The entries that are given end to end, by what the blocks say of each, into the bytes that are given for answers.
fn run_all(
    rt: &impl Print,
    file: &[u8],
    at: usize,
    list: &[u8],
    blocks: &[u8],
    entries: &[u8],
) -> io::Result<()> {
    let mut answers = [0u8; 65536];
    let n = put_input(rt, file, at, Command::Answers, &mut answers, 0)?;
    match answers.get_mut(..n) {
        Some(lent) => judge_all(rt, list, blocks, entries, lent),
        None => not_understood(rt),
    }
}

// The calls that write into the room.
fn write(
    rt: &impl Print,
    call: Command,
    text: &[u8],
    list: &[u8],
    room: &mut [u8],
) -> io::Result<()> {
    match call {
        Command::Code => write_code(rt, text, room),
        Command::Print => {
            let printed = valve::print(text, room);
            say_written(rt, b"printed", printed, room)
        }
        Command::FixOctal => {
            let fixed = valve::fix_octal(text, room);
            say_written(rt, b"fixed", fixed, room)
        }
        _ => say_translation(rt, call, valve::translate(text, list, room)),
    }
}

// Those that only read.
fn answer(
    rt: &impl Print,
    call: Command,
    text: &[u8],
    list: &[u8],
    entry: &[u8],
    room: &[u8],
) -> io::Result<()> {
    match call {
        Command::Read => lines::say_done(rt, b"read", valve::read(text)),
        Command::Check => lines::say_checking(rt, valve::check(text, list)),
        Command::Judge => lines::say_judgement(rt, valve::judge(text, list, entry)),
        Command::Explain => explain(rt, text, list, entry),
        Command::Summarize => summarize(rt, text, list),
        Command::Compare => lines::say_agreement(rt, valve::compare(text, list, room)),
        Command::Count => count(rt, text, list, entry),
        Command::Load => lines::say_done(rt, b"loaded", valve::load(list, room)),
        _ => lines::say_running(rt, valve::run(list, room, entry)),
    }
}

// The text, or the instructions of `code`, or the contract of `pact`.
fn first_input(call: Command) -> Command {
    match call {
        Command::Code => Command::Code,
        Command::Pact => Command::Pact,
        _ => Command::Text,
    }
}

// A contract, with the names and the table that are given.
pub(crate) fn pact(
    rt: &impl Print,
    contract: &[u8],
    file: &[u8],
    at: usize,
    room: &mut [u8],
) -> io::Result<()> {
    let mut all = [0u8; 65536];
    let l = put_input(rt, file, at, Command::List, &mut all, 0)?;
    let t = put_input(rt, file, at, Command::Table, &mut all, l)?;
    draft(rt, contract, part(&all, l, t), part(&all, 0, l), room)
}

// Makes the call of the line at an offset, on the inputs that are given there.
pub(crate) fn make(
    rt: &impl Print,
    call: Command,
    file: &[u8],
    at: usize,
    room: &mut [u8],
) -> io::Result<()> {
    let mut all = [0u8; 65536];
    let t = put_input(rt, file, at, first_input(call), &mut all, 0)?;
    let l = put_input(rt, file, at, Command::List, &mut all, t)?;
    let e = put_input(rt, file, at, Command::Entry, &mut all, l)?;
    let text = part(&all, 0, t);
    let list = part(&all, t, l);
    let entry = part(&all, l, e);
    match call {
        Command::Pact => pact(rt, text, file, at, room),
        Command::Code | Command::Blocks | Command::Translate | Command::Print | Command::FixOctal =>
            write(rt, call, text, list, room),
        Command::Recheck => recheck(rt, file, at, text, list, entry),
        Command::RunAll => run_all(rt, file, at, list, room, entry),
        _ => answer(rt, call, text, list, entry, room),
    }
}
