// What the calls take: which records are admissible, and which sets the sample call accepts.

ghost use Rattle.std.specs.Prelude.{◌≡◌, ◌*◌, pos, drop};
ghost use Rattle.lists.specs.Tests.{each};
ghost use Rattle.integer.specs.Within.{eq_z};
ghost use Rattle.refusal.specs.Refusals.{outcome_of, first_refusal};
ghost use Rattle.relay.specs.Record.{admissible as admissible_of};
ghost use Rattle.relay.specs.Calls.{in_reach, set_rows};

use crate::Relay;
use refusal::Refusal;
use setting::Setting;

// Whether a record is one that the calls take: refusal 12.
#[tactic(auto, unfolding(crate::specs::Record::admissible))]
pub fn admissible(r: Relay) -> bool
    ensures { result ≡ admissible_of r }
{
    setting::judging::sound(r.setting)
        && r.window.fill <= 12
        && state::numbers_within(&r.window.values)
        && state::counters_within(r.setting.confirm, r.trip)
        && page::within(r.events)
        && overcurrent::within(r.backup)
}

// No sample beyond 32,000.
pub fn in_reach(set: &[i16]) -> bool
    ensures { result ≡ in_reach set.now }
{
    set.iter().all(|x| -32000 <= *x && *x <= 32000)
}

// Zero at every end that is not in use.
pub fn unused_zero(ends: u8, set: &[i16]) -> bool
    ensures { result ≡ each (λ x. eq_z x (pos 0)) (drop (3 * ends) set.now) }
{
    match set.get(3 * usize::from(ends)..) {
        Some(unused) => unused.iter().all(|x| *x == 0),
        None => true,
    }
}

// Whether a set is accepted on a setting: 14, 10, 11, in this order.
#[tactic(auto, unfolding(crate::specs::Calls::set_rows))]
pub fn set_verdict(v: Setting, set: &[i16]) -> Result<(), Refusal>
    ensures { outcome_of result ≡ first_refusal (set_rows v set.now) }
{
    if set.len() != 12 {
        return Err(Refusal::Count);
    }
    if !in_reach(set) {
        return Err(Refusal::Reach);
    }
    if !unused_zero(v.ends, set) {
        return Err(Refusal::Unused);
    }
    Ok(())
}
