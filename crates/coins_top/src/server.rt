//! The store that serves the lines of a run.

ghost use Rattle.std.specs.Prelude.{◌≡◌, ◌≤◌, ℕ, Ok, IfErr, OnOk, OnErr};
ghost use Rattle.base_types.specs.declared.fault.StoreFault.TheVariants.{NoMemory};
ghost use Rattle.command_loop.specs.Points.{IsOpenAt};
ghost use Rattle.command_loop.specs.ServerCalls.{setting_of, LineDoes, WorkServed, WorkStopped};
ghost use Rattle.machine.specs.Answers.{file_begun};
ghost use Rattle.machine.specs.State.{State};
ghost use Rattle.machine.specs.Work.{AddsFlushes, IsMoment, Moment};
ghost use Rattle.store_lines.specs.Serving.{standing_of};
ghost use Rattle.store_state.specs.State.{StoreState};
ghost use Rattle.coins_top.specs.HostLines.{SaysRefusal};
ghost use Rattle.coins_top.specs.ServerState.{IsCounted, ServerFails, store_causes};

use crate::host_lines::{fold_line, generate_line};
use base_types::{Flushes, StoreFault, Why};
use chainstates::Session;
use command_loop::{FoundStore, RunSettings, Server};
use command_text::{Line, LineFault, Reply, parse};
use disk_model::Disk;
use io_traits::Host;
use std::alloc::Global;
use std::marker::Model;
use store_lines::{coin_line, flush_line, headers_line, import_line, info_line, say};

/// An open store, and what its run is set to.
#[derive(Drop)]
pub struct StoreServer {
    session: Session,
    settings: RunSettings,
}

impl Model for StoreServer {
    ghost use Rattle.coins_top.specs.ServerState.{IsServer, ServerState, server_code};

    ghost Value = { ServerState };

    ghost coded = { server_code };

    ghost view = { λ s. record { session = s.session; settings = s.settings } };

    ghost invariant = { λ s. IsServer s.session s.settings };
}

impl StoreServer {
    // Does what a line asks for, and adds the lines of its replies to a text.
    fn serve_line<D: Disk, H: Host>(
        &mut self,
        alloc: Global,
        disk: &mut D,
        host: &mut H,
        flushes: &mut Flushes,
        line: &Line,
        out: &mut Vec<u8>,
    ) -> Result<(), StoreFault>
        requires { IsCounted (Ok line.now) }
        ensures ok { (before : Moment) (state : State) (from : StoreState)
            → IsOpenAt (setting_of self.old.settings) (standing_of self.old.settings.limits.headers self.old.session) (D.time disk.old) (D.contents disk.old) (D.left_since disk.old) (H.held host.old) (H.faults host.old) before state from
            → OnOk result (WorkServed (setting_of self.old.settings) (D.left_since disk.old) (D.left_since disk.new) before from (LineDoes (setting_of self.old.settings) before state (Ok line.now))
            (IsOpenAt (setting_of self.old.settings) (standing_of self.new.settings.limits.headers self.new.session) (D.time disk.new) (D.contents disk.new) (D.left_since disk.new) (H.held host.new) (H.faults host.new)) flushes.old flushes.new out.old.items out.new.items) }
        ensures err { (before : Moment) (state : State) (from : StoreState)
            → IsOpenAt (setting_of self.old.settings) (standing_of self.old.settings.limits.headers self.old.session) (D.time disk.old) (D.contents disk.old) (D.left_since disk.old) (H.held host.old) (H.faults host.old) before state from
            → OnErr result (WorkStopped (setting_of self.old.settings) (D.left_since disk.old) (D.left_since disk.new) before from (LineDoes (setting_of self.old.settings) before state (Ok line.now))
            (IsMoment (D.time disk.new) (D.contents disk.new) (H.held host.new) (H.faults host.new)) (file_begun (Ok line.now)) flushes.old flushes.new) }
        ensures cause { IfErr result (ServerFails (D.faults disk.old) (D.faults disk.new)) }
        ensures timed { AddsFlushes (D.time disk.old) (D.time disk.new) flushes.old flushes.new }
        ensures set { self.new.settings ≡ self.old.settings }
        ensures later { (D.faults disk.old ≤ D.faults disk.new) × (H.faults host.old ≤ H.faults host.new) }
    {
        match line {
            Line::Empty => Ok(()),
            Line::Fold { file } => fold_line(alloc, &self.settings, host, file.as_str(), out),
            Line::Headers { file, key } => headers_line(
                alloc,
                &mut self.session,
                disk,
                host,
                file.as_str(),
                *key,
                out,
            ),
            Line::Import { file, key } => import_line(
                alloc,
                &mut self.session,
                disk,
                host,
                file.as_str(),
                *key,
                out,
            ),
            Line::Generate {
                number,
                count,
                file,
            } => generate_line(alloc, host, *number, *count, file.as_str(), out),
            Line::Flush => {
                flush_line(alloc, &mut self.session, disk, Why::Command, flushes, out)
            }
            Line::GetTxOut { key } => coin_line(alloc, &mut self.session, disk, key, out),
            Line::Info => info_line(&self.session, disk, out),
        }
    }
}

// Says why a line is refused, unless no memory was left to read it.
fn refuse(out: &mut Vec<u8>, fault: LineFault) -> Result<(), StoreFault>
    ensures ok { OnOk result (SaysRefusal fault out.old.items out.new.items) }
    ensures err { IfErr result (λ why. why ≡ NoMemory) }
{
    match fault {
        LineFault::Refused(why) => say(out, &Reply::Refused(why)),
        LineFault::NoMemory => Err(StoreFault::NoMemory),
    }
}

impl Server for StoreServer {
    ghost set_to = { λ server. server.settings };

    ghost stands = { λ server. standing_of server.settings.limits.headers server.session };

    ghost causes = { store_causes };

    fn open<D: Disk>(
        alloc: Global,
        settings: &RunSettings,
        disk: &mut D,
    ) -> Result<(Self, FoundStore), StoreFault> {
        match Session::open(alloc, disk, &settings.limits, &settings.salt) {
            Ok(session) => {
                let found = FoundStore {
                    full: Some(session.found()),
                    snapshot: None,
                };
                let server = StoreServer {
                    session,
                    settings: *settings,
                };
                Ok((server, found))
            }
            Err(fault) => Err(fault),
        }
    }

    fn serve<D: Disk, H: Host>(
        &mut self,
        alloc: Global,
        disk: &mut D,
        host: &mut H,
        flushes: &mut Flushes,
        text: &[u8],
        out: &mut Vec<u8>,
    ) -> Result<(), StoreFault> {
        match parse(alloc, text) {
            Ok(line) => self.serve_line(alloc, disk, host, flushes, &line, out),
            Err(fault) => refuse(out, fault),
        }
    }

    fn finish<D: Disk>(
        &mut self,
        alloc: Global,
        disk: &mut D,
        flushes: &mut Flushes,
        out: &mut Vec<u8>,
    ) -> Result<(), StoreFault> {
        flush_line(alloc, &mut self.session, disk, Why::End, flushes, out)
    }
}
