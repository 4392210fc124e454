//! The names that replies print.

ghost use Rattle.std.specs.Prelude.{◌≡◌};
ghost use Rattle.command_text.specs.Replies.{refusal as name_of_refusal, rule_name as name_of_rule, chain_name as name_of_chain, role_name as name_of_role};

use crate::line::LineRefused;
use crate::reply::{Role, Rule};
use base_types::Chain;

pub(crate) fn refusal(why: LineRefused) -> &'static str
    ensures { result.now ≡ name_of_refusal why }
{
    match why {
        LineRefused::LineTooLong => "line-too-long",
        LineRefused::UnknownCommand => "unknown-command",
        LineRefused::BadName => "bad-name",
        LineRefused::BadKey => "bad-key",
        LineRefused::BadTxid => "bad-txid",
        LineRefused::BadIndex => "bad-index",
        LineRefused::BadNumber => "bad-number",
        LineRefused::BadCount => "bad-count",
    }
}

pub(crate) fn chain_name(chain: Chain) -> &'static str
    ensures { result.now ≡ name_of_chain chain }
{
    match chain {
        Chain::Full => "full",
        Chain::Snapshot => "snapshot",
    }
}

pub(crate) fn role_name(role: Role) -> &'static str
    ensures { result.now ≡ name_of_role role }
{
    match role {
        Role::Full => "full",
        Role::Unvalidated => "unvalidated",
        Role::Validated => "validated",
    }
}

pub(crate) fn rule_name(rule: Rule) -> &'static str
    ensures { result.now ≡ name_of_rule rule }
{
    match rule {
        Rule::Header(why) => why.name(),
        Rule::Body(why) => why.name(),
        Rule::Coin(why) => why.name(),
    }
}
