// The setting block, read; and what it holds.

ghost use Rattle.std.specs.Prelude.{◌≡◌, ◌+◌, ◌≤◌, length};
ghost use Rattle.setting_block.specs.Layout.{end_at, setting_at, marked as marked_of, few_spares, spares};
ghost use Rattle.setting_block.specs.Calls.{Reads};
ghost use Rattle.setting_block.specs.Held.{ReadHeld, HeldRead, FallenRead};
ghost use Rattle.setting.specs.Values.{lowest};

use refusal::Refusal;
use setting::{End, Overcurrent, Setting, Thresholds, judging};

// Whether a block begins with its mark.
fn marked(s: &[u8; 512]) -> bool
    ensures { result ≡ marked_of s.now }
{
    s.starts_with(b"TDP1")
}

// The end whose twelve bytes stand from a place on.
fn end_at(s: &[u8], at: usize) -> End
    requires { at + 12 ≤ length s.now }
    ensures { result ≡ end_at s.now at }
{
    End {
        voltage: block::u32_at(s, at),
        current: block::u32_at(s, at + 4),
        group: s[at + 8],
        filter: s[at + 9],
    }
}

// The values of a block, whatever they are.
fn setting_at(s: &[u8; 512]) -> Setting
    ensures { result ≡ setting_at s.now }
{
    Setting {
        ends: s[4],
        flags: s[5],
        confirm: s[6],
        power: block::u32_at(s, 8),
        e0: end_at(s, 12),
        e1: end_at(s, 24),
        e2: end_at(s, 36),
        e3: end_at(s, 48),
        thresholds: Thresholds {
            basic: block::u16_at(s, 60),
            high: block::u16_at(s, 62),
            slope1: block::u16_at(s, 64),
            slope2: block::u16_at(s, 66),
            knee: block::u16_at(s, 68),
            second: block::u16_at(s, 70),
            fifth: block::u16_at(s, 72),
        },
        overcurrent: Overcurrent {
            pickup: block::u16_at(s, 74),
            curve: s[76],
        },
    }
}

// The zero bytes before 77.
fn few_spares() -> [u16; 9]
    ensures { result ≡ few_spares }
{
    [7, 22, 23, 34, 35, 46, 47, 58, 59]
}

// The first byte that must be zero and is not: one of the few, or from 77 on, where most blocks have nothing but zeros.
fn spare_fault(s: &[u8; 512]) -> Option<u16>
    ensures { result ≡ lowest (spares s.now) }
{
    let few = few_spares();
    if let Some(at) = few.iter().find(|at| s[usize::from(**at)] != 0) {
        return Some(*at);
    }
    if block::zeros(&s[77..510]) {
        return None;
    }
    let k = s[77..510].iter().position(|x| *x != 0)?;
    Some(77 + k as u16)
}

// The values of a setting block, or the refusal, 1 to 7.
pub fn read_setting(s: &[u8]) -> Result<Setting, Refusal>
    ensures { Reads s.now result }
{
    let Ok(b) = <&[u8; 512]>::try_from(s) else {
        return Err(Refusal::Length);
    };
    if !block::checked(b) {
        return Err(Refusal::Check);
    }
    if !marked(b) {
        return Err(Refusal::Mark);
    }
    let v = setting_at(b);
    judging::verdict_beside(v, spare_fault(b))?;
    Ok(v)
}

// What the reader gives is what a block may hold, slopes that fall among it: no code, the statements and their proofs.
pub fn held()
    ensures { ReadHeld × HeldRead × FallenRead }
{}
