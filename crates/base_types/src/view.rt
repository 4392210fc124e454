//! Coins as layers see them.

ghost use Rattle.std.specs.Prelude.{◌≡◌, List, Contains, Option, option_map, false, IfOk, IfSome};
ghost use Rattle.base_types.specs.Coins.{Coins, CoinFits};
ghost use Rattle.base_types.specs.Views.{ViewCounts, FindsFault, AnswersCoin, HasNoCoin, with_coin, without_coin};

use crate::coin::Coin;
use crate::fault::StoreFault;
use crate::hash::OutPoint;

/// Coins that can be asked for (`CCoinsView` in Bitcoin Core's `coins.h`).
///
/// A call fails with `DiskFailed` only where the count of faults rose, with `Damaged` only with a record that it found
/// broken, and with `CacheFull` only where the largest cache has its greatest number of entries. None answers `Full`.
///
/// What lies behind a view, as a disk, is told by the relation `behind`: the layers above pass it on without knowing it.
pub trait View {
    ghost use Rattle.base_types.specs.declared.hash.OutPoint.{OutPoint};

    /// The coins by their outpoints, where the view tells them.
    ghost coins: { Self → Option Coins };

    /// How often it has failed, the records that it found broken, and how many entries its largest cache has.
    ghost counts: { Self → ViewCounts };

    /// By calls that name these outpoints alone, the view and what lies behind it may become so.
    ghost behind: { List OutPoint → Self → Self → Type 0 };

    /// The coin of an outpoint, if there is one. It changes no coin.
    fn get(&mut self, key: &OutPoint) -> Result<Option<Coin>, StoreFault>
        ensures coin { AnswersCoin (coins self.old) key.now result }
        ensures fits { IfOk result (λ coin. IfSome coin CoinFits) }
        ensures coins { coins self.new ≡ coins self.old }
        ensures cause { FindsFault 1 (counts self.old) (counts self.new) result }
        ensures behind { (keys : List OutPoint) → Contains keys key.now → behind keys self.old self.new };

    /// Without a call all stays as it is.
    ghost behind_none: { (keys : List OutPoint) (view : Self) → behind keys view view };

    /// Calls follow one another.
    ghost behind_then: { (keys : List OutPoint) (old mid new : Self) → behind keys old mid → behind keys mid new → behind keys old new };
}

/// Coins that can be changed. A call that fails leaves them as they were.
pub trait CoinEdit: View {
    /// Puts a coin at an outpoint. Without `may_overwrite` there has to be none.
    fn add(&mut self, key: &OutPoint, coin: Coin, may_overwrite: bool) -> Result<(), StoreFault>
        requires free { may_overwrite ≡ false → HasNoCoin (Self.coins self.old) key.now }
        requires fits { CoinFits coin }
        ensures coins { Self.coins self.new ≡ option_map (with_coin result key.now coin) (Self.coins self.old) }
        ensures cause { FindsFault 1 (Self.counts self.old) (Self.counts self.new) result }
        ensures behind { (keys : List OutPoint) → Contains keys key.now → Self.behind keys self.old self.new };

    /// Takes the coin of an outpoint away, and answers it, if there is one.
    fn spend(&mut self, key: &OutPoint) -> Result<Option<Coin>, StoreFault>
        ensures coin { AnswersCoin (Self.coins self.old) key.now result }
        ensures fits { IfOk result (λ coin. IfSome coin CoinFits) }
        ensures coins { Self.coins self.new ≡ option_map (without_coin result key.now) (Self.coins self.old) }
        ensures cause { FindsFault 1 (Self.counts self.old) (Self.counts self.new) result }
        ensures behind { (keys : List OutPoint) → Contains keys key.now → Self.behind keys self.old self.new };
}
