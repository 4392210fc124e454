//! What images of one header and of one block stand for, what the replay of two blocks is, and stores that aren't settled.

ghost use Rattle.std.specs.Prelude.{◌≡◌, ◌≢◌, ℕ, List, [], ◌∷◌, Some, Ok, Err};
ghost use Rattle.std.specs.Result.{result_ok};
ghost use Rattle.std.specs.FinMap.{empty, insert};
ghost use Rattle.base_types.specs.Coins.{Coins};
ghost use Rattle.base_types.specs.declared.program.Rules.{Rules};
ghost use Rattle.base_types.specs.declared.refused.CoinRefused.{CoinRefused};
ghost use Rattle.block_codec.specs.declared.block.Header.{Header};
ghost use Rattle.block_codec.specs.Fitting.{HeaderFits};
ghost use Rattle.block_store.specs.Headers.{headers_text};
ghost use Rattle.chain_model.specs.Apply.{outcome};
ghost use Rattle.chain_model.specs.Choice.{coins_at, refused_below};
ghost use Rattle.chain_model.specs.HeaderRules.{first_tree};
ghost use Rattle.block_codec.specs.Genesis.{genesis_hash};
ghost use Rattle.coin_store.specs.Batches.{Row, BatchFits};
ghost use Rattle.coin_store.specs.Places.{coins_after_rows};
ghost use Rattle.store_state.specs.Settled.{IsSettled};
ghost use Rattle.store_state.specs.SmallImages.{HasLogs, StandsSettled, batch_at, payload_at};
ghost use Rattle.store_state.specs.SmallStores.{FirstBlock, hash_of, body_payload, body_stored, store_of_block, store_of_header, store_with_rows, TwoBlocks, tree_of_two, first_hash, second_hash, choice_of_two};
ghost use Rattle.chain_model.specs.SmallTrees.{IsChild};
ghost use Rattle.store_state.specs.State.{StoreState, StoredBody, blocks_in, state_of, first_rules};

/// An image with one header, which is acceptable as a child of genesis, stands for the tree of genesis and this header, at
/// genesis and without coins, and is settled.
pub fn one_header_stands()
    ensures { (limit : ℕ) (given : Rules) (header : Header) → HeaderFits header → IsChild limit (first_tree first_rules) genesis_hash header → (image : ℕ → List ℕ)
        → HasLogs image (headers_text (header ∷ []) ∷ []) [] []
        → StandsSettled limit given image (store_of_header first_rules header) }
{}

/// An image with the header, the body and one batch of a block that can be applied above genesis stands for the tree of
/// genesis and this block, its body, and a chainstate at it with the coins after it, and is settled. The block is stored
/// under its hash.
pub fn one_block_stands()
    ensures stands { (limit : ℕ) (given : Rules) (first : FirstBlock limit first_rules) (image : ℕ → List ℕ)
        → HasLogs image (headers_text (first.block.header ∷ []) ∷ []) (body_payload limit first_rules first ∷ []) (payload_at (hash_of limit first_rules first) first.rows ∷ [])
        → StandsSettled limit given image (store_of_block limit first_rules first) }
    ensures stored { (limit : ℕ) (first : FirstBlock limit first_rules)
        → blocks_in empty (body_stored limit first_rules first ∷ []) ≡ insert empty (hash_of limit first_rules first) first.block }
{}

/// The coins after two blocks are those after the second over those after the first. Where a block breaks a rule, the lowest
/// that does is refused, with its rule.
pub fn two_blocks_replayed()
    ensures coins { (limit : ℕ) (given : Rules) (blocks : TwoBlocks limit given) (start middle : Coins)
        → outcome (tree_of_two limit given blocks) start blocks.first ≡ Ok middle
        → coins_at (choice_of_two limit given blocks start) (second_hash limit given blocks) ≡ result_ok (outcome (tree_of_two limit given blocks) middle blocks.second) }
    ensures second { (limit : ℕ) (given : Rules) (blocks : TwoBlocks limit given) (start middle : Coins) (rule : CoinRefused)
        → outcome (tree_of_two limit given blocks) start blocks.first ≡ Ok middle
        → outcome (tree_of_two limit given blocks) middle blocks.second ≡ Err rule
        → refused_below (choice_of_two limit given blocks start) (second_hash limit given blocks) ≡ Some (record { hash = second_hash limit given blocks; why = rule }) }
    ensures first { (limit : ℕ) (given : Rules) (blocks : TwoBlocks limit given) (start : Coins) (rule : CoinRefused)
        → outcome (tree_of_two limit given blocks) start blocks.first ≡ Err rule
        → refused_below (choice_of_two limit given blocks start) (second_hash limit given blocks) ≡ Some (record { hash = first_hash limit given blocks; why = rule }) }
{}

/// A store isn't settled in which a hash has two records, or whose rows give a coin at genesis; an image of such rows does
/// stand for such a store.
pub fn unsettled_stores()
    ensures twice { (store : StoreState) (a b : StoredBody) → a.hash ≡ b.hash → store.bodies ≡ a ∷ b ∷ [] → IsSettled store → ⊥ }
    ensures stands { (limit : ℕ) (given : Rules) (image : ℕ → List ℕ) (rows : List Row) → BatchFits (batch_at genesis_hash rows) → HasLogs image [] [] (payload_at genesis_hash rows ∷ [])
        → state_of limit given image ≡ Some (store_with_rows given rows) }
    ensures rows { (given : Rules) (rows : List Row) → coins_after_rows empty rows ≢ empty → IsSettled (store_with_rows given rows) → ⊥ }
{}
