//! Small images that are broken, one for each way, and the place of each.

ghost use Rattle.std.specs.Prelude.{◌≡◌, ◌<◌, ◌+◌, ◌^◌, ℕ, List, [], ◌∷◌, length, Ok};
ghost use Rattle.batch_log.specs.Records.{log};
ghost use Rattle.base_types.specs.declared.hash.Hash32.{Hash32};
ghost use Rattle.base_types.specs.declared.program.Rules.{Rules};
ghost use Rattle.block_codec.specs.declared.block.Block.{Block};
ghost use Rattle.block_codec.specs.declared.block.Header.{Header};
ghost use Rattle.block_codec.specs.Fitting.{HeaderFits};
ghost use Rattle.block_codec.specs.Text.{hash_of_header};
ghost use Rattle.block_store.specs.Bodies.{body_text};
ghost use Rattle.block_store.specs.Headers.{headers_text};
ghost use Rattle.chain_model.specs.HeaderRules.{first_tree};
ghost use Rattle.block_codec.specs.Genesis.{genesis_hash};
ghost use Rattle.coin_store.specs.Batches.{Row, HashFits, BatchFits, batch_text};
ghost use Rattle.coin_store.specs.declared.marker.Marker.TheVariants.{Between};
ghost use Rattle.store_state.specs.SmallImages.{HasLogs, IsBrokenAt, batch_at, payload_at, cut_in_second};
ghost use Rattle.chain_model.specs.SmallTrees.{IsChild};
ghost use Rattle.store_state.specs.State.{header_file, body_file, coin_file, first_key, first_rules};

/// An open gate without a whole record behind it is the place of a break: where a file of headers is such a gate and one
/// byte, and where the second record of a file of coins is cut.
pub fn damaged_logs()
    ensures alone { (limit : ℕ) (given : Rules) (image : ℕ → List ℕ) → image header_file ≡ 1 ∷ 0 ∷ [] → IsBrokenAt limit given image header_file 0 }
    ensures cut { (limit : ℕ) (given : Rules) (image : ℕ → List ℕ) (first second : List ℕ) (n : ℕ) → length first < 2 ^ 32 → length second < 2 ^ 32
        → log (image header_file) ≡ Ok [] → log (image body_file) ≡ Ok [] → image coin_file ≡ cut_in_second first second n
        → IsBrokenAt limit given image coin_file (5 + length first) }
{}

/// A record that isn't of its form is broken at its gate: one byte in a file of headers or of bodies, and a batch between
/// two tips, for as long as no call settles one.
pub fn malformed_records()
    ensures headers { (limit : ℕ) (given : Rules) (image : ℕ → List ℕ) → log (image header_file) ≡ Ok ((7 ∷ []) ∷ []) → IsBrokenAt limit given image header_file 0 }
    ensures body { (limit : ℕ) (given : Rules) (image : ℕ → List ℕ) → log (image header_file) ≡ Ok [] → log (image body_file) ≡ Ok ((7 ∷ []) ∷ []) → IsBrokenAt limit given image body_file 0 }
    ensures between { (limit : ℕ) (given : Rules) (image : ℕ → List ℕ) (new_tip old_tip : Hash32) (rows : List Row)
        → BatchFits (record { marker = Between new_tip old_tip; rows = rows })
        → HasLogs image [] [] (batch_text first_key (record { marker = Between new_tip old_tip; rows = rows }) ∷ [])
        → IsBrokenAt limit given image coin_file 0 }
{}

/// A reference is broken at the gate of its record: a tip of a first or of a second batch, or the hash of a body, that isn't
/// in the tree; a header that is there already; and a tip whose body has no record.
pub fn broken_references()
    ensures tip { (limit : ℕ) (given : Rules) (image : ℕ → List ℕ) (tip : Hash32) (rows : List Row) → (tip ≡ genesis_hash → ⊥) → BatchFits (batch_at tip rows)
        → HasLogs image [] [] (payload_at tip rows ∷ [])
        → IsBrokenAt limit given image coin_file 0 }
    ensures second_tip { (limit : ℕ) (given : Rules) (image : ℕ → List ℕ) (tip : Hash32) (first rows : List Row) → (tip ≡ genesis_hash → ⊥)
        → BatchFits (batch_at genesis_hash first) → BatchFits (batch_at tip rows)
        → HasLogs image [] [] (payload_at genesis_hash first ∷ payload_at tip rows ∷ [])
        → IsBrokenAt limit given image coin_file (5 + length (payload_at genesis_hash first)) }
    ensures body { (limit : ℕ) (given : Rules) (image : ℕ → List ℕ) (hash : Hash32) (block : Block) → (hash ≡ genesis_hash → ⊥) → HashFits hash
        → log (image header_file) ≡ Ok [] → log (image body_file) ≡ Ok (body_text hash block ∷ [])
        → IsBrokenAt limit given image body_file 0 }
    ensures header { (limit : ℕ) (given : Rules) (image : ℕ → List ℕ) (header : Header) → HeaderFits header → IsChild limit (first_tree first_rules) genesis_hash header
        → log (image header_file) ≡ Ok (headers_text (header ∷ []) ∷ headers_text (header ∷ []) ∷ [])
        → IsBrokenAt limit given image header_file 85 }
    ensures unreached { (limit : ℕ) (given : Rules) (image : ℕ → List ℕ) (header : Header) (rows : List Row) → HeaderFits header → IsChild limit (first_tree first_rules) genesis_hash header
        → BatchFits (batch_at (hash_of_header header) rows)
        → HasLogs image (headers_text (header ∷ []) ∷ []) [] (payload_at (hash_of_header header) rows ∷ [])
        → IsBrokenAt limit given image coin_file 0 }
{}
