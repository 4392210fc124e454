//! Replies in JSON.

ghost use Rattle.std.specs.Prelude.{◌≡◌, ⊤, IfOk, OnOk, MatchOption, string_bytes};
ghost use Rattle.base_types.specs.Printed.{printed};
ghost use Rattle.command_text.specs.JsonValues.{IsPlain, coin_data, background_data, info_data};
ghost use Rattle.command_text.specs.Replies.{coin_json as coin_text, info_json as info_text};
ghost use Rattle.hex.specs.Hex.{encode_lower};
ghost use Rattle.serde_json.specs.View.{view};

use crate::names::role_name;
use crate::reply::{Background, Role, TxOutFound};
use base_types::Hash32;
use serde_json::{Value, json};
use std::alloc::{AllocError, Global};

// The state of a store.
#[derive(Clone, Copy)]
pub(crate) struct StoreInfo {
    pub(crate) background: Option<Background>,
    pub(crate) headers: u64,
    pub(crate) height: u64,
    pub(crate) role: Role,
    pub(crate) tip: Hash32,
}

// A coin as JSON without a space.
pub(crate) fn coin_json(alloc: Global, coin: &TxOutFound) -> Result<String, AllocError>
    ensures { IfOk result (λ text. string_bytes text ≡ coin_text coin.now) }
{
    let bestblock = hash_text(alloc, &coin.bestblock)?;
    let script = hex_text(alloc, coin.script.as_slice())?;
    let value = coin_value(alloc, coin, bestblock, script)?;
    value.to_string(alloc)
}

// The state of a store as JSON without a space.
pub(crate) fn info_json(alloc: Global, info: &StoreInfo) -> Result<String, AllocError>
    ensures { IfOk result (λ text. string_bytes text ≡ info_text info.now) }
{
    let background = background_value(alloc, &info.background)?;
    let tip = hash_text(alloc, &info.tip)?;
    let value = info_value(alloc, info, background, tip)?;
    value.to_string(alloc)
}

// Lower-case hexadecimal digits.
fn hex_text(alloc: Global, bytes: &[u8]) -> Result<String, AllocError>
    ensures text { IfOk result (λ text. string_bytes text ≡ encode_lower bytes.now) }
    ensures plain { IsPlain (encode_lower bytes.now) }
{
    hex::encode(alloc, bytes)
}

// A hash as people see it.
fn hash_text(alloc: Global, hash: &Hash32) -> Result<String, AllocError>
    ensures text { IfOk result (λ text. string_bytes text ≡ printed hash.now) }
    ensures plain { IsPlain (printed hash.now) }
{
    let mut bytes = hash.bytes;
    bytes.reverse();
    hex_text(alloc, &bytes)
}

fn coin_value(
    alloc: Global,
    coin: &TxOutFound,
    bestblock: String,
    script: String,
) -> Result<Value, AllocError>
    ensures { IfOk result (λ value.
        view value ≡ coin_data coin.now (string_bytes bestblock) (string_bytes script)) }
{
    json!(in alloc; {
        "bestblock": bestblock,
        "coinbase": coin.coinbase,
        "confirmations": coin.confirmations,
        "height": coin.height,
        "script": script,
        "value": coin.value
    })
}

fn background_value(alloc: Global, background: &Option<Background>) -> Result<Value, AllocError>
    ensures value { IfOk result (λ value. view value ≡ background_data background.now) }
    ensures plain { OnOk result (MatchOption background.now ⊤ (λ shown. IsPlain (printed shown.tip))) }
{
    match background {
        None => Ok(Value::Null),
        Some(Background { height, tip }) => {
            let tip = hash_text(alloc, tip)?;
            json!(in alloc; {"height": *height, "tip": tip})
        }
    }
}

fn info_value(
    alloc: Global,
    info: &StoreInfo,
    background: Value,
    tip: String,
) -> Result<Value, AllocError>
    ensures { IfOk result (λ value. view value ≡ info_data info.now (view background) (string_bytes tip)) }
{
    json!(in alloc; {
        "background": background,
        "chain": "regtest",
        "headers": info.headers,
        "height": info.height,
        "role": role_name(info.role),
        "tip": tip
    })
}
