// A set of keys in 32 bits, and a mark.
ghost use Rattle.std.specs.Prelude.{◌≡◌, Bool, false, true, ◌||◌, ℕ, eqb};
ghost use Rattle.std.specs.Int.Count.{ones};
ghost use Rattle.paper.specs.Named.{set_of, count_of};
ghost use Rattle.summarizing.specs.Sums.{Sums};

use keys::KeyRecord;
use paper::Summary;

// Of no key.
pub(crate) fn nothing() -> Summary
    ensures { Sums (λ _. false) false result }
{
    Summary {
        keys: 0,
        priority: false,
    }
}

// Of one key. There is no bit for an index that no list has.
pub(crate) fn of_key(k: usize) -> Summary
    ensures { Sums (λ j. eqb k j) false result }
{
    if KeyRecord::MOST <= k {
        return nothing();
    }
    Summary {
        keys: 1 << k,
        priority: false,
    }
}

pub(crate) fn of_priority() -> Summary
    ensures { Sums (λ _. false) true result }
{
    Summary {
        keys: 0,
        priority: true,
    }
}

// What either of two names.
pub(crate) fn either(a: Summary, b: Summary) -> Summary
    ensures { (p q : ℕ → Bool) (m n : Bool) → Sums p m a → Sums q n b → Sums (λ j. p j || q j) (m || n) result }
{
    Summary {
        keys: a.keys | b.keys,
        priority: a.priority || b.priority,
    }
}

// How many keys a set has. The processor counts them.
pub fn count_keys(keys: u32) -> u32
    ensures counted { result ≡ ones keys }
    ensures named { (p : ℕ → Bool) → keys ≡ set_of p → result ≡ count_of p }
{
    u32::count_ones(keys)
}
