// The directives.
ghost use Rattle.std.specs.Prelude.{◌≡◌, ◌+◌, ◌<◌, ◌≤◌, IfSome, length, map};
ghost use Rattle.nt_value.specs.Units.{IsUnit};
ghost use Rattle.nt_lexer.specs.Directives as spec;
ghost use Rattle.nt_lexer.specs.Spellings.{bases, tens};
ghost use Rattle.nt_lexer.specs.declared.kinds.Run.TheVariants as run;

use crate::kinds::{BASES, Run, TENS};
use crate::scan::{lookup, run_len};
use nt_value::{Base, Unit};

// The power of ten of femtoseconds.
fn base_exponent(base: Base) -> u32
    ensures value { result ≡ spec.base_exponent base }
    ensures within { result ≤ 15 }
{
    match base {
        Base::S => 15,
        Base::Ms => 12,
        Base::Us => 9,
        Base::Ns => 6,
        Base::Ps => 3,
        Base::Fs => 0,
    }
}

pub(crate) fn exponent(unit: Unit) -> u32
    ensures { result ≡ spec.exponent unit }
{
    u32::from(unit.ten) + base_exponent(unit.base)
}

fn past_blanks(text: &[u8], at: usize) -> usize
    requires { at ≤ length text.now }
    ensures value { result ≡ spec.past_blanks text.now at }
    ensures from { at ≤ result }
    ensures within { result ≤ length text.now }
{
    at + run_len(Run::Blank, &text[at..])
}

fn past_some_blanks(text: &[u8], at: usize) -> Option<usize>
    requires { at ≤ length text.now }
    ensures value { result ≡ spec.past_some_blanks text.now at }
    ensures from { IfSome result (λ end. at < end) }
    ensures within { IfSome result (λ end. end ≤ length text.now) }
{
    let blanks = run_len(Run::Blank, &text[at..]);
    if blanks == 0 { None } else { Some(at + blanks) }
}

fn past(spelling: &[u8], text: &[u8], at: usize) -> Option<usize>
    requires { at ≤ length text.now }
    ensures value { result ≡ spec.past spelling.now text.now at }
    ensures from { IfSome result (λ end. at ≤ end) }
    ensures within { IfSome result (λ end. end ≤ length text.now) }
{
    if text[at..].starts_with(spelling) {
        Some(at + spelling.len())
    } else {
        None
    }
}

#[tactic(auto, unfolding(crate::specs::Spellings::tens))]
fn ten_named(text: &[u8]) -> Option<u8>
    ensures value { result ≡ spec.named tens text.now }
    ensures valid { IfSome result (λ ten. ten ≤ 2) }
{
    lookup(&TENS, text)
}

#[tactic(auto, unfolding(crate::specs::Spellings::bases))]
fn base_named(text: &[u8]) -> Option<Base>
    ensures { result ≡ spec.named bases text.now }
{
    lookup(&BASES, text)
}

// The power of ten at a place, and the place after it.
fn ten_at(text: &[u8], at: usize) -> Option<(u8, usize)>
    requires { at ≤ length text.now }
    ensures value { result ≡ spec.part run.Number tens text.now at }
    ensures valid { IfSome result (λ found. found.0 ≤ 2) }
    ensures from { IfSome result (λ found. at ≤ found.1) }
    ensures within { IfSome result (λ found. found.1 ≤ length text.now) }
{
    let len = run_len(Run::Number, &text[at..]);
    let ten = ten_named(&text[at..at + len])?;
    Some((ten, at + len))
}

// The base at a place, and the place after it.
fn base_at(text: &[u8], at: usize) -> Option<(Base, usize)>
    requires { at ≤ length text.now }
    ensures value { result ≡ spec.part run.Name bases text.now at }
    ensures from { IfSome result (λ found. at ≤ found.1) }
    ensures within { IfSome result (λ found. found.1 ≤ length text.now) }
{
    let len = run_len(Run::Name, &text[at..]);
    let base = base_named(&text[at..at + len])?;
    Some((base, at + len))
}

// The unit at a place, and the place after it.
fn unit_at(text: &[u8], at: usize) -> Option<(Unit, usize)>
    requires { at ≤ length text.now }
    ensures value { result ≡ spec.unit_at text.now at }
    ensures valid { IfSome result (λ found. IsUnit found.0) }
    ensures from { IfSome result (λ found. at ≤ found.1) }
    ensures within { IfSome result (λ found. found.1 ≤ length text.now) }
{
    let (ten, gap) = ten_at(text, at)?;
    let (base, end) = base_at(text, past_blanks(text, gap))?;
    Some((Unit { ten, base }, end))
}

// The unit of `timescale`, and the place after its precision.
pub(crate) fn timescale(text: &[u8]) -> Option<(Unit, usize)>
    ensures value { result ≡ spec.timescale text.now }
    ensures valid { IfSome result (λ found. IsUnit found.0) }
    ensures some { IfSome result (λ found. 0 < found.1) }
    ensures within { IfSome result (λ found. found.1 ≤ length text.now) }
{
    let word = past(b"`timescale", text, 0)?;
    let start = past_some_blanks(text, word)?;
    let (unit, gap) = unit_at(text, start)?;
    let slash = past(b"/", text, past_blanks(text, gap))?;
    let (precision, end) = unit_at(text, past_blanks(text, slash))?;
    if exponent(precision) <= exponent(unit) {
        Some((unit, end))
    } else {
        None
    }
}

// The place after `default_nettype` and its word.
pub(crate) fn default_nettype(text: &[u8]) -> Option<usize>
    ensures value { result ≡ spec.default_nettype text.now }
    ensures some { IfSome result (λ end. 0 < end) }
    ensures within { IfSome result (λ end. end ≤ length text.now) }
{
    let word = past(b"`default_nettype", text, 0)?;
    let start = past_some_blanks(text, word)?;
    let end = start + run_len(Run::Name, &text[start..]);
    let word = &text[start..end];
    if word == b"none".as_slice() || word == b"wire".as_slice() {
        Some(end)
    } else {
        None
    }
}
