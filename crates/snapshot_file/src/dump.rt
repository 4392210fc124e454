//! What a dump is.

ghost use Rattle.base_types.specs.Coins.{Coins};
ghost use Rattle.base_types.specs.declared.hash.Hash32.{Hash32};
ghost use Rattle.snapshot_file.specs.Dump.{IsDump};

/// The law of dumps, by which who writes the coins in the order of their keys, group by group, writes the one dump of
/// them. It does nothing.
pub fn law_of_dumps()
    ensures { (base : Hash32) (coins : Coins) → IsDump base coins }
{}
