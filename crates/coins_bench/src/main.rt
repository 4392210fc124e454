//! Measures crates of the repository. Each mode prints its times in microseconds; the scripts of `bench/` make ratios of
//! them.
#![tactic(auto)]

mod blocks;
mod files;
mod fold;
mod headers;
mod index;
mod scan;
mod shelf;
mod snapshot;
mod words;

ghost use Rattle.std.specs.Prelude.{◌≡◌, Some, IsSome, IsOk, IfOk};

use anyhow::{Result, bail};
use std::env;

const USAGE: &str =
    "usage: coins_bench make-blocks FILE COUNT | read-blocks FILE | accept-headers COUNT | index COUNT | fill-index COUNT | snapshot COUNT | fold COUNT | scan COUNT CLAIM | append FILE COUNT LENGTH | read-store HEADERS BODIES COINS";

// The number in a word.
fn count_of(word: Option<String>) -> Result<u32> {
    match word {
        Some(text) => Ok(text.as_str().parse::<u32>()?),
        None => bail!("{USAGE}"),
    }
}

// The word as it is.
fn name_of(word: Option<String>) -> Result<String>
    ensures some { IsSome word → IsOk result }
    ensures same { IfOk result (λ name. word ≡ Some name) }
{
    match word {
        Some(text) => Ok(text),
        None => bail!("{USAGE}"),
    }
}

fn main(rt: HostRuntime) -> Result<()> {
    let mut words = env::args(&rt)?.skip(1);
    let Some(mode) = words.next() else {
        println!(rt; "{USAGE}")?;
        return Ok(());
    };
    match mode.as_str() {
        "make-blocks" => {
            let file = name_of(words.next())?;
            blocks::make(&rt, file.as_str(), count_of(words.next())?)
        }
        "read-blocks" => blocks::read(&rt, name_of(words.next())?.as_str()),
        "accept-headers" => headers::accept(&rt, count_of(words.next())?),
        "index" => index::measure(&rt, count_of(words.next())?),
        "fill-index" => index::fill(&rt, count_of(words.next())?),
        "snapshot" => snapshot::read(&rt, count_of(words.next())?),
        "fold" => fold::measure(&rt, count_of(words.next())?),
        "scan" => {
            let count = count_of(words.next())?;
            scan::measure(&rt, count, count_of(words.next())?)
        }
        "append" => {
            let file = name_of(words.next())?;
            let count = count_of(words.next())?;
            files::append_all(&rt, file.as_str(), count, count_of(words.next())?)
        }
        "read-store" => {
            let headers = name_of(words.next())?;
            let bodies = name_of(words.next())?;
            let coins = name_of(words.next())?;
            files::read_all(&rt, headers.as_str(), bodies.as_str(), coins.as_str())
        }
        _ => bail!("{USAGE}"),
    }
}
