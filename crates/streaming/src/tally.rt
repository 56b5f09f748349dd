// How many entries were given each answer, and in how many steps.
ghost use Rattle.std.specs.Prelude.{◌≡◌, ◌+◌, ◌<◌, ◌≤◌};
ghost use Rattle.streaming.specs.Tallies.{total, counted, most_counted};

use lines::say;
use paper::{Judgement, Verdict};
use std::io;
use wording::say::Things;

// How many entries were accepted, violated and refused.
#[derive(Clone, Copy)]
pub struct Tally {
    pub accepted: usize,
    pub violated: usize,
    pub refused: usize,
}

impl Tally {
    // Of no entry.
    pub(crate) fn none() -> Tally
        ensures { total result ≡ 0 }
    {
        Tally {
            accepted: 0,
            violated: 0,
            refused: 0,
        }
    }

    // With one entry more, by its judgement.
    pub(crate) fn count(mut self, judgement: Judgement) -> Tally
        requires { total self < most_counted }
        ensures value { result ≡ counted judgement self }
        ensures result_value { total result ≡ total self + 1 }
    {
        match judgement {
            Ok(Verdict::Accepted) => self.accepted += 1,
            Ok(Verdict::Violated) => self.violated += 1,
            Err(_) => self.refused += 1,
        }
        self
    }

    // How many entries there are in all.
    pub(crate) fn entries(self) -> usize
        requires { total self ≤ most_counted }
        ensures { result ≡ total self }
    {
        self.accepted + self.violated + self.refused
    }
}

// What a file comes to. Only blocks take steps, of whose number 64 bits are kept.
#[derive(Clone, Copy)]
pub struct Totals {
    pub tally: Tally,
    pub steps: u64,
}

impl Totals {
    // Of no entry.
    pub(crate) fn none() -> Totals
        ensures { (total result.tally ≡ 0) × (result.steps ≡ 0) }
    {
        Totals {
            tally: Tally::none(),
            steps: 0,
        }
    }
}

fn say_totals(rt: &impl Print, tally: Tally) -> io::Result<()>
    requires { total tally ≤ most_counted }
{
    let Tally {
        accepted,
        violated,
        refused,
    } = tally;
    let entries = Things(tally.entries(), "entry", "entries");
    print!(rt; "{entries}: {accepted} accepted, {violated} violated, {refused} refused")
}

// The last line of a file: how many entries there are, and how many were given each answer.
pub(crate) fn say_tally(rt: &impl Print, tally: Tally) -> io::Result<()>
    requires { total tally ≤ most_counted }
{
    say_totals(rt, tally)?;
    say(rt, b"\n")
}

// The same line with the steps of all entries.
pub(crate) fn say_ran(rt: &impl Print, totals: Totals) -> io::Result<()>
    requires { total totals.tally ≤ most_counted }
{
    say_totals(rt, totals.tally)?;
    println!(rt; ", in {}", Things(totals.steps as usize, "step", "steps"))
}
