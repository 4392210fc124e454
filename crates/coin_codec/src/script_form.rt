//! The kinds of script of which a coin keeps only some bytes (Bitcoin Core's `compressor.cpp`).

ghost use Rattle.std.specs.Prelude.{◌≡◌, ◌+◌, ◌<◌, ◌≤◌, ◌++◌, length, option_map, IfOk};
ghost use Rattle.coin_codec.specs.ScriptForm.{before, kept_len as len_of, behind, between as between_of, of_kind as kind_of, short_form as short_of, script_of};

use base_types::Script;
use std::alloc::{AllocError, Global};

// The first numbers stand for kinds of scripts, and lengths begin behind them (`nSpecialScripts` in Bitcoin Core's
// `compressor.h`).
pub(crate) const SPECIAL_SCRIPTS: u64 = 6;

// What every script of a kind begins with.
fn front(mark: u8) -> &'static [u8]
    requires { mark < 4 }
    ensures { result.now ≡ before mark }
{
    match mark {
        0 => &[0x76, 0xa9, 20],
        1 => &[0xa9, 20],
        2 => &[33, 2],
        _ => &[33, 3],
    }
}

// What every script of a kind ends with.
fn back(mark: u8) -> &'static [u8]
    ensures { result.now ≡ behind mark }
{
    match mark {
        0 => &[0x88, 0xac],
        1 => &[0x87],
        _ => &[0xac],
    }
}

// How many bytes of a script of a kind are kept.
pub(crate) fn kept_len(mark: u8) -> usize
    ensures { result ≡ len_of mark }
{
    if mark < 2 { 20 } else { 32 }
}

fn between<'a>(bytes: &'a [u8], front: &[u8], len: usize, back: &[u8]) -> Option<&'a [u8]>
    ensures { option_map (λ kept. kept.now) result ≡ between_of front.now len back.now bytes.now }
{
    let kept = bytes.strip_prefix(front)?.strip_suffix(back)?;
    if kept.len() != len {
        return None;
    }
    Some(kept)
}

fn of_kind(mark: u8, script: &[u8]) -> Option<(u8, &[u8])>
    requires { mark < 4 }
    ensures { option_map (λ x. (x.0, x.1.now)) result ≡ kind_of mark script.now }
{
    let kept = between(script, front(mark), kept_len(mark), back(mark))?;
    Some((mark, kept))
}

// The mark of a script's kind and the bytes of it that are kept, where it is of one of the kinds.
#[tactic(auto, unfolding(crate::specs::ScriptForm::short_form))]
pub(crate) fn short_form(script: &[u8]) -> Option<(u8, &[u8])>
    ensures { option_map (λ x. (x.0, x.1.now)) result ≡ short_of script.now }
{
    if let Some(short) = of_kind(0, script) {
        return Some(short);
    }
    if let Some(short) = of_kind(1, script) {
        return Some(short);
    }
    if let Some(short) = of_kind(2, script) {
        return Some(short);
    }
    of_kind(3, script)
}

fn joined(alloc: Global, front: &[u8], kept: &[u8], back: &[u8]) -> Result<Script, AllocError>
    requires { length front.now + length kept.now + length back.now ≤ 35 }
    ensures { IfOk result (λ script. script ≡ front.now ++ kept.now ++ back.now) }
{
    let mut bytes = [0; 35];
    let kept_end = front.len() + kept.len();
    let end = kept_end + back.len();
    bytes[..front.len()].copy_from_slice(front);
    bytes[front.len()..kept_end].copy_from_slice(kept);
    bytes[kept_end..end].copy_from_slice(back);
    Script::from_slice(alloc, &bytes[..end])
}

// The script of a kind of which these bytes are kept.
pub(crate) fn whole_script(alloc: Global, mark: u8, kept: &[u8]) -> Result<Script, AllocError>
    requires kind { mark < 4 }
    requires len { length kept.now ≡ len_of mark }
    ensures { IfOk result (λ script. script ≡ script_of mark kept.now) }
{
    joined(alloc, front(mark), kept, back(mark))
}
