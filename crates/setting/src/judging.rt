// The verdict on setting values: whether a block may hold them, or the refusal, 4 to 7; and whether a relay can be started on them, or the refusal, 4, 5,
// 17, 6, 7.

ghost use Rattle.std.specs.Prelude.{◌≡◌, OnOk};
ghost use Rattle.setting.specs.Values.{startable};
ghost use Rattle.setting.specs.Limits.{Limits};
ghost use Rattle.setting.specs.Calls.{Judges, JudgesStart, JudgesBeside, JudgesFields, JudgesFactors};
ghost use Rattle.setting.specs.Slopes.{StartableIs, StartAfterReading};

use crate::{Setting, factors, rules};
use refusal::Refusal;

// Refusals 4 and 5 of setting values, with a fault found beside those of the fields. Both this and the next are taken in where they are used, for speed.
#[inline(always)]
fn fields_verdict(v: Setting, beside: Option<u16>) -> Result<(), Refusal>
    ensures rows { JudgesFields v beside result }
    ensures limits { OnOk result (Limits v) }
{
    if v.ends < 2 || 4 < v.ends {
        return Err(Refusal::Ends);
    }
    match rules::sooner(rules::fault(v), beside) {
        Some(x) => Err(Refusal::Field(x)),
        None => Ok(()),
    }
}

// Refusals 6 and 7.
#[inline(always)]
fn factors_verdict(v: Setting) -> Result<(), Refusal>
    requires { Limits v }
    ensures { JudgesFactors v result }
{
    let k = factors::factors(v);
    if 0 < factors::how_many(k, 1048577) {
        return Err(Refusal::FactorHigh);
    }
    if factors::how_many(k, 32768) < 2 {
        return Err(Refusal::FactorsLow);
    }
    Ok(())
}

// Refusals 4 to 7 of setting values, with a fault found beside those of the fields.
pub fn verdict_beside(v: Setting, beside: Option<u16>) -> Result<(), Refusal>
    ensures { JudgesBeside v beside result }
{
    fields_verdict(v, beside)?;
    factors_verdict(v)
}

// Whether a block may hold setting values, or the refusal, 4 to 7.
pub fn verdict(v: Setting) -> Result<(), Refusal>
    ensures { Judges v result }
{
    verdict_beside(v, None)
}

// Whether a relay can be started on setting values, or the refusal: slopes that fall are told after 4 and 5, and before 6 and 7.
pub fn start_verdict(v: Setting) -> Result<(), Refusal>
    ensures { JudgesStart v result }
{
    fields_verdict(v, None)?;
    if v.thresholds.slope2 < v.thresholds.slope1 {
        return Err(Refusal::SlopesFall);
    }
    factors_verdict(v)
}

// Whether a relay can be started on setting values.
pub fn sound(v: Setting) -> bool
    ensures { result ≡ startable v }
{
    start_verdict(v).is_ok()
}

// What a relay can be started on, beside what a block may hold: no code, the two statements and their proofs.
pub fn slopes()
    ensures { StartableIs × StartAfterReading }
{}
