// Refusals and faults.
ghost use Rattle.std.specs.Prelude.{◌≡◌, ◌++◌, ◌<◌, OnOk, [], get_or, length};
ghost use Rattle.nt_diag.specs.Order.{earlier, is_no_later};
ghost use Rattle.nt_diag.specs.Texts.{refusal_text};
ghost use Rattle.nt_diag.specs.declared.refusal.Fault.TheVariants as fault;

use crate::Rule;
use nt_value::{Name, Place, Text};
use std::alloc::AllocError;

/// That a source breaks a rule, and where.
#[derive(Clone, Copy, Debug, PartialEq, Eq)]
pub struct Refusal {
    pub rule: Rule,
    pub place: Place,
}

/// Why a call that reads sources gave no answer.
#[derive(Debug, PartialEq, Eq, Drop)]
pub enum Fault {
    /// The sources break a rule.
    Refused(Refusal),
    /// No memory was left.
    OutOfMemory(AllocError),
}

impl Fault {
    /// That the sources break the rule at the place.
    pub fn refused(rule: Rule, place: Place) -> Fault
        ensures { result ≡ fault.Refused (record { rule = rule; place = place }) }
    {
        Fault::Refused(Refusal { rule, place })
    }
}

// Whether the first stands no later than the second: by file, then by offset, then by the rule's number.
fn is_no_later(a: Refusal, b: Refusal) -> bool
    ensures { result ≡ is_no_later a b }
{
    a.place.file < b.place.file
        || (a.place.file == b.place.file
            && (a.place.offset < b.place.offset
                || (a.place.offset == b.place.offset && a.rule.number() <= b.rule.number())))
}

/// The one of two faults that stands no later: by file, then by offset, then by the rule's number.
pub fn earlier(a: Option<Refusal>, b: Option<Refusal>) -> Option<Refusal>
    ensures { result ≡ earlier a b }
{
    match (a, b) {
        (None, b) => b,
        (a, None) => a,
        (Some(x), Some(y)) => if is_no_later(x, y) { Some(x) } else { Some(y) },
    }
}

impl From<AllocError> for Fault {
    ghost use Rattle.std.specs.Prelude.{◌≡◌};
    ghost use Rattle.nt_diag.specs.declared.refusal.Fault.TheVariants.{OutOfMemory};

    ghost from_gives = { λ refused e. e ≡ OutOfMemory refused };

    fn from(refused: AllocError) -> Fault {
        Fault::OutOfMemory(refused)
    }
}

/// Adds the text of a refusal: its rule, the name of its file, and its line and column. Without memory the text may hold
/// a part of it.
pub fn say(refusal: &Refusal, files: &[Name], out: &mut Text) -> Result<(), AllocError>
    requires { refusal.now.place.file < length files.now }
    ensures { OnOk result
        (out.new ≡ out.old ++ refusal_text refusal.now (get_or files.now refusal.now.place.file [])) }
{
    say_in(refusal, files[refusal.place.file as usize].items(), out)?;
    Ok(())
}

fn say_in(refusal: &Refusal, file: &[u8], out: &mut Text) -> Result<(), AllocError>
    ensures { OnOk result (out.new ≡ out.old ++ refusal_text refusal.now file.now) }
{
    out.push_bytes(refusal.rule.code().as_bytes())?;
    out.push(b' ')?;
    out.push_bytes(file)?;
    out.push(b':')?;
    out.push_number(refusal.place.line as u64)?;
    out.push(b':')?;
    out.push_number(refusal.place.column as u64)?;
    Ok(())
}
