//! The definitions of choice, of undo data and of closure, computed on small trees.

ghost use Rattle.std.specs.Prelude.{◌≡◌, ℕ, [], ◌∷◌, true, false, Some, None};
ghost use Rattle.std.specs.FinMap.{empty, insert};
ghost use Rattle.base_types.specs.declared.coin.Coin.{Coin};
ghost use Rattle.base_types.specs.declared.hash.OutPoint.{OutPoint};
ghost use Rattle.base_types.specs.declared.refused.CoinRefused.TheVariants.{CoinbaseAmount};
ghost use Rattle.base_types.specs.declared.refused.HeaderRefused.TheVariants.{Known, NoParent, TreeFull};
ghost use Rattle.block_codec.specs.Text.{is_coinbase};
ghost use Rattle.block_codec.specs.declared.block.Header.{Header};
ghost use Rattle.chain_model.specs.Apply.{undo_of};
ghost use Rattle.chain_model.specs.Choice.{candidates, best, tried, refusals, is_on_way};
ghost use Rattle.chain_model.specs.HeaderRules.{header_broken, with_header, closure};
ghost use Rattle.chain_model.specs.SmallChoices.{first, a, b, c, choice_at, greedy, block_on, one_satoshi, spending, chained};
ghost use Rattle.chain_model.specs.Tree.{Tree};

/// Two blocks of height 1, the second of which has a child. The child comes first, and of equal heights the smaller hash; a
/// chainstate stays at its tip where none is higher. A move from the other block goes over the fork, and a chainstate
/// that stays has no way.
pub fn higher_blocks_first()
    ensures order { candidates (choice_at first []) ≡ c ∷ a ∷ b ∷ [] }
    ensures best { best (choice_at first []) ≡ c }
    ensures higher { candidates (choice_at a []) ≡ c ∷ [] }
    ensures stays { best (choice_at c []) ≡ c }
    ensures tried { tried (choice_at a []) [] ≡ c ∷ [] }
    ensures none_refused { refusals (choice_at a []) [] ≡ [] }
    ensures way { (is_on_way (choice_at a []) [] first ≡ true) × (is_on_way (choice_at a []) [] b ≡ true) }
    ensures no_way { is_on_way (choice_at c []) [] c ≡ false }
{}

/// The same, where the child's coinbase pays one satoshi too much: it is tried once and refused, and the tip stays.
pub fn greedy_block_refused()
    ensures best { best (choice_at a greedy) ≡ a }
    ensures tried { tried (choice_at a greedy) [] ≡ c ∷ [] }
    ensures refused { refusals (choice_at a greedy) [] ≡ record { hash = c; why = CoinbaseAmount } ∷ [] }
    ensures not_again { tried (choice_at a greedy) (c ∷ []) ≡ [] }
{}

/// The undo data of a block that spends a coin, and then the output for which it was spent.
pub fn output_spent_in_its_block()
    ensures { (key : OutPoint) (coin : Coin) → undo_of (choice_at first []).tree (insert empty key coin) (block_on first (chained key))
        ≡ (coin ∷ []) ∷ (record { value = 1; script = []; height = 1; coinbase = is_coinbase (spending key (one_satoshi ∷ [])) } ∷ []) ∷ [] }
{}

/// The closure under headers of which a child comes before its parent, where the tree is full in a later round or at once.
pub fn headers_in_any_order()
    ensures child_first { (limit : ℕ) (tree : Tree) (child parent : Header)
        → header_broken limit tree child ≡ Some NoParent → header_broken limit tree parent ≡ None
        → header_broken limit (with_header tree parent) child ≡ None → header_broken limit (with_header (with_header tree parent) child) parent ≡ Some Known
        → closure limit tree (child ∷ parent ∷ []) ≡ record { tree = with_header (with_header tree parent) child; added = parent ∷ child ∷ []; full = false } }
    ensures full_later { (limit : ℕ) (tree : Tree) (child parent : Header)
        → header_broken limit tree child ≡ Some NoParent → header_broken limit tree parent ≡ None → header_broken limit (with_header tree parent) child ≡ Some TreeFull
        → closure limit tree (child ∷ parent ∷ []) ≡ record { tree = with_header tree parent; added = parent ∷ []; full = true } }
    ensures full_at_once { (limit : ℕ) (tree : Tree) (one two three : Header)
        → header_broken limit tree one ≡ None → header_broken limit (with_header tree one) two ≡ None → header_broken limit (with_header (with_header tree one) two) three ≡ Some TreeFull
        → closure limit tree (one ∷ two ∷ three ∷ []) ≡ record { tree = with_header (with_header tree one) two; added = one ∷ two ∷ []; full = true } }
{}
