//! The lines `gettxout` and `info`.

ghost use Rattle.std.specs.Prelude.{◌≡◌, ◌≤◌, ℕ, List, Option, None, option_map, IfErr, OnOk, OnErr};
ghost use Rattle.base_types.specs.declared.fault.StoreFault.TheVariants.{NoMemory};
ghost use Rattle.base_types.specs.declared.flushes.Flushed.{Flushed};
ghost use Rattle.chainstates.specs.Standing.{KeepsFiles, KeepsSettings};
ghost use Rattle.command_loop.specs.Points.{IsOpenAt};
ghost use Rattle.command_loop.specs.ServerCalls.{WorkServed, WorkStopped};
ghost use Rattle.command_text.specs.declared.line.Line.TheVariants as line;
ghost use Rattle.command_text.specs.declared.reply.Reply.TheVariants as says;
ghost use Rattle.io_traits.specs.Host.{Held};
ghost use Rattle.machine.specs.State.{Setting, State};
ghost use Rattle.machine.specs.Work.{IsMoment, Moment};
ghost use Rattle.store_lines.specs.Coins.{found_at};
ghost use Rattle.store_lines.specs.Serving.{DoesLine, LineFails, standing_of};
ghost use Rattle.store_state.specs.State.{StoreState, first_rules};

use crate::saying::say;
use base_types::{Coin, OutPoint, StoreFault};
use chainstates::{Info, Session};
use command_text::{Reply, Role, TxOutFound};
use disk_model::Disk;
use std::alloc::Global;

/// Says the coin of an outpoint at the tip (`gettxout` in Bitcoin Core's `rpc/blockchain.cpp`).
pub fn coin_line<D: Disk>(
    alloc: Global,
    session: &mut Session,
    disk: &mut D,
    key: &OutPoint,
    out: &mut Vec<u8>,
) -> Result<(), StoreFault>
    ensures ok { (setting : Setting) (before : Moment) (state : State) (from : StoreState) (held : Option Held) (faults : ℕ) (had : List Flushed)
        → IsOpenAt setting (standing_of setting.limit session.old) (D.time disk.old) (D.contents disk.old) (D.left_since disk.old) held faults before state from → setting.given ≡ first_rules
        → OnOk result (WorkServed setting (D.left_since disk.old) (D.left_since disk.new) before from (DoesLine setting before state (line.GetTxOut key.now))
        (IsOpenAt setting (standing_of setting.limit session.new) (D.time disk.new) (D.contents disk.new) (D.left_since disk.new) held faults) had had out.old.items out.new.items) }
    ensures err { (setting : Setting) (before : Moment) (state : State) (from : StoreState) (held : Option Held) (faults : ℕ) (had : List Flushed)
        → IsOpenAt setting (standing_of setting.limit session.old) (D.time disk.old) (D.contents disk.old) (D.left_since disk.old) held faults before state from → setting.given ≡ first_rules
        → OnErr result (WorkStopped setting (D.left_since disk.old) (D.left_since disk.new) before from (DoesLine setting before state (line.GetTxOut key.now))
        (IsMoment (D.time disk.new) (D.contents disk.new) held faults) None had had) }
    ensures cause { IfErr result (LineFails session.old (D.faults disk.old) (D.faults disk.new)) }
    ensures faults { D.faults disk.old ≤ D.faults disk.new }
    ensures later { D.time disk.old ≤ D.time disk.new }
    ensures set { KeepsSettings session.old session.new }
    ensures files { KeepsFiles session.old session.new }
{
    match session.get_coin(alloc, disk, key) {
        Ok(coin) => say(out, &coin_reply(&session.info(), coin)),
        Err(fault) => Err(fault),
    }
}

// What is told of a coin at the tip.
fn coin_reply(info: &Info, coin: Option<Coin>) -> Reply
    ensures { result ≡ says.TxOut (option_map (found_at info.now) coin) }
{
    Reply::TxOut(match coin {
        Some(coin) => Some(TxOutFound {
            bestblock: info.tip,
            coinbase: coin.coinbase,
            confirmations: u64::from(info.height.saturating_sub(coin.height)) + 1,
            height: u64::from(coin.height),
            script: coin.script,
            value: coin.value,
        }),
        None => None,
    })
}

/// Says where the store stands. Nothing is read: the disk is there for what the clauses say of it.
pub fn info_line<D: Disk>(session: &Session, _disk: &D, out: &mut Vec<u8>) -> Result<(), StoreFault>
    ensures ok { (setting : Setting) (before : Moment) (state : State) (from : StoreState) (held : Option Held) (faults : ℕ) (had : List Flushed)
        → IsOpenAt setting (standing_of setting.limit session.now) (D.time _disk.now) (D.contents _disk.now) (D.left_since _disk.now) held faults before state from
        → OnOk result (WorkServed setting (D.left_since _disk.now) (D.left_since _disk.now) before from (DoesLine setting before state line.Info)
        (IsOpenAt setting (standing_of setting.limit session.now) (D.time _disk.now) (D.contents _disk.now) (D.left_since _disk.now) held faults) had had out.old.items out.new.items) }
    ensures err { (setting : Setting) (before : Moment) (state : State) (from : StoreState) (held : Option Held) (faults : ℕ) (had : List Flushed)
        → IsOpenAt setting (standing_of setting.limit session.now) (D.time _disk.now) (D.contents _disk.now) (D.left_since _disk.now) held faults before state from
        → OnErr result (WorkStopped setting (D.left_since _disk.now) (D.left_since _disk.now) before from (DoesLine setting before state line.Info)
        (IsMoment (D.time _disk.now) (D.contents _disk.now) held faults) None had had) }
    ensures cause { IfErr result (λ fault. fault ≡ NoMemory) }
{
    let info = session.info();
    say(
        out,
        &Reply::Info {
            background: None,
            headers: u64::from(info.headers),
            height: u64::from(info.height),
            role: Role::Full,
            tip: info.tip,
        },
    )
}
