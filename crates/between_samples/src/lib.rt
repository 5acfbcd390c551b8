// What stands between sample calls: the register page read and written, a reset, a start on the setting values of the record, a part of the record
// changed, and the record printed.

#![tactic(auto)]

pub mod begun;
pub mod paged;
pub mod record;

use relay::Relay;

// One reset call.
pub fn reset_call(relay: Relay) -> Relay {
    let done = relay.reset();
    programs::print_done(done.answer, b"reset");
    done.relay
}
