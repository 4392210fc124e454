//! Writing replies.

ghost use Rattle.std.specs.Prelude.{◌≡◌, ◌++◌, OnOk, OnErr};
ghost use Rattle.command_text.specs.Replies.{reply_text};

use crate::json_text::{StoreInfo, coin_json, info_json};
use crate::names::{chain_name, refusal, rule_name};
use crate::reply::Reply;
use crate::word::Word::{Hash, Number, Text};
use crate::word::put_line;
use std::alloc::AllocError;

/// Adds a reply's line. Where memory runs out nothing is added.
pub fn write_reply(out: &mut Vec<u8>, reply: &Reply) -> Result<(), AllocError>
    ensures ok { OnOk result (out.new.items ≡ out.old.items ++ reply_text reply.now) }
    ensures err { OnErr result (out.new.items ≡ out.old.items) }
{
    match reply {
        Reply::Refused(why) => put_line(out, "refused", &[Text(refusal(*why))]),
        Reply::HostFault => put_line(out, "refused host-fault", &[]),
        Reply::FileTooLong => put_line(out, "refused file-too-long", &[]),
        Reply::TreeFull => put_line(out, "refused tree-full", &[]),
        Reply::NoNonce => put_line(out, "refused no-nonce", &[]),
        Reply::NotNext { hash } => put_line(out, "refused not-next", &[Hash(hash)]),
        Reply::Block { hash, rule } => {
            put_line(out, "refused block", &[Hash(hash), Text(rule_name(*rule))])
        }
        Reply::Body { hash, rule } => { put_line(out, "body", &[Hash(hash), Text(rule.name())]) }
        Reply::BlockOf { chain, hash, rule } => put_line(
            out,
            "block",
            &[Text(chain_name(*chain)), Hash(hash), Text(rule.name())],
        ),
        Reply::Folded {
            frames,
            height,
            tip,
            coins,
        } => put_line(
            out,
            "folded",
            &[Number(*frames), Number(*height), Hash(tip), Number(*coins)],
        ),
        Reply::Headers {
            frames,
            added,
            tree,
        } => put_line(
            out,
            "headers",
            &[Number(*frames), Number(*added), Number(*tree)],
        ),
        Reply::Import {
            frames,
            headers,
            bodies,
            height,
            tip,
        } => put_line(
            out,
            "import",
            &[
                Number(*frames),
                Number(*headers),
                Number(*bodies),
                Number(*height),
                Hash(tip),
            ],
        ),
        Reply::Generated { count, tip } => {
            put_line(out, "generated", &[Number(*count), Hash(tip)])
        }
        Reply::Flushed { chain, height, tip } => put_line(
            out,
            "flushed",
            &[Text(chain_name(*chain)), Number(*height), Hash(tip)],
        ),
        Reply::TxOut(None) => put_line(out, "null", &[]),
        Reply::TxOut(Some(found)) => {
            let text = coin_json(*out.allocator(), found)?;
            put_line(out, text.as_str(), &[])
        }
        Reply::Info {
            background,
            headers,
            height,
            role,
            tip,
        } => {
            let info = StoreInfo {
                background: *background,
                headers: *headers,
                height: *height,
                role: *role,
                tip: *tip,
            };
            let text = info_json(*out.allocator(), &info)?;
            put_line(out, text.as_str(), &[])
        }
    }
}
