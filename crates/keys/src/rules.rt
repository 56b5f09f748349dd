// What a key's record in an entry has to keep.
ghost use Rattle.std.specs.Prelude.{◌≡◌, ◌-◌, ◌^◌, eqb, length};
ghost use Rattle.number.specs.Values.{value};
ghost use Rattle.paper.specs.Keys.{exact, ternary, lpm, range, optional, kind_of};
ghost use Rattle.paper.specs.Entry.{match_size, kind_rule, absent_rule, present_rule, match_ok};
ghost use Rattle.keys.specs.Says.{meant, unnamed};

use crate::entry::Matched;
use crate::record::KeyRecord;
use number::Magnitude;
use paper::kinds;
use spelling::bytes;

fn exact_ok(m: Matched) -> bool
    ensures { result ≡ kind_rule exact 0 (meant m) }
{
    m.length == 0 && m.second.is_zero()
}

fn ternary_ok(m: Matched) -> bool
    ensures { result ≡ kind_rule ternary 0 (meant m) }
{
    m.length == 0 && m.first.inside(m.second)
}

fn lpm_ok(width: u8, m: Matched) -> bool
    ensures { result ≡ kind_rule lpm width (meant m) }
{
    m.second.is_zero() && m.length <= width && m.first.low_clear(u32::from(width - m.length))
}

fn range_ok(m: Matched) -> bool
    ensures { result ≡ kind_rule range 0 (meant m) }
{
    m.length == 0 && !m.second.less(m.first)
}

fn all_ones(mask: Magnitude, width: u8) -> bool
    ensures { result ≡ eqb (value mask) (2 ^ width - 1) }
{
    width <= KeyRecord::WIDEST && mask.equal(Magnitude::ones(u32::from(width)))
}

fn optional_ok(width: u8, m: Matched) -> bool
    ensures { result ≡ kind_rule optional width (meant m) }
{
    ternary_ok(m) && (m.second.is_zero() || all_ones(m.second, width))
}

fn kind_ok(key: KeyRecord, m: Matched) -> bool
    ensures { result ≡ kind_rule (kind_of key.kind) key.width (meant m) }
{
    match key.kind {
        kinds::EXACT => exact_ok(m),
        kinds::TERNARY => ternary_ok(m),
        kinds::LPM => lpm_ok(key.width, m),
        kinds::RANGE => range_ok(m),
        _ => optional_ok(key.width, m),
    }
}

// Whether a key may be absent, and its record in the entry is that of an absent one.
fn absent_ok(key: KeyRecord, bytes: &[u8]) -> bool
    requires { length bytes.now ≡ match_size }
    ensures { result ≡ absent_rule (unnamed key) bytes.now }
{
    key.kind != kinds::EXACT && !key.required && bytes::all_zero(&bytes[1..])
}

fn present_ok(key: KeyRecord, bytes: &[u8]) -> bool
    requires { length bytes.now ≡ match_size }
    ensures { result ≡ present_rule (unnamed key) bytes.now }
{
    if !bytes::all_zero(&bytes[2..4]) {
        return false;
    }
    let m = Matched::spelled_out(bytes);
    let width = u32::from(key.width);
    m.first.fits(width) && m.second.fits(width) && kind_ok(key, m)
}

// Whether a key's record in an entry keeps the rule of the key's kind.
pub(crate) fn match_ok(key: KeyRecord, bytes: &[u8]) -> bool
    requires { length bytes.now ≡ match_size }
    ensures { result ≡ match_ok (unnamed key) bytes.now }
{
    match bytes[0] {
        0 => absent_ok(key, bytes),
        1 => present_ok(key, bytes),
        _ => false,
    }
}
