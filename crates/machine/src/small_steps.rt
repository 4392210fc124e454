//! Steps of the machine from small states, one at least for each kind of line.

ghost use Rattle.std.specs.Prelude.{◌≡◌, ◌<◌, ◌≤◌, ℕ, List, [], ◌∷◌, length, codes, true, Some, None, Ok, Err, ◌++◌, nat_le};
ghost use Rattle.std.specs.FinMap.{get, insert, remove};
ghost use Rattle.base_types.specs.declared.flushes.Why.TheVariants.{Command, End};
ghost use Rattle.base_types.specs.declared.hash.OutPoint.{OutPoint};
ghost use Rattle.base_types.specs.declared.program.Rules.{Rules};
ghost use Rattle.block_codec.specs.Frames.{frames};
ghost use Rattle.block_codec.specs.Text.{hash_of_header};
ghost use Rattle.block_codec.specs.declared.block.Block.{Block};
ghost use Rattle.io_traits.specs.Host.{Files};
ghost use Rattle.chain_model.specs.Generated.{chain, file_text};
ghost use Rattle.block_codec.specs.Genesis.{genesis_hash};
ghost use Rattle.command_text.specs.Lines.{line_of};
ghost use Rattle.command_text.specs.declared.line.Line.TheVariants as line;
ghost use Rattle.command_text.specs.declared.line.LineRefused.TheVariants.{UnknownCommand, BadName};
ghost use Rattle.command_text.specs.declared.reply.Reply.TheVariants as says;
ghost use Rattle.command_text.specs.declared.reply.Role.TheVariants as role;
ghost use Rattle.store_state.specs.SmallStores.{FirstBlock};
ghost use Rattle.machine.specs.Moves.{Advances, touched_by, count_of};
ghost use Rattle.machine.specs.SmallStates.{at_start, genesis_flushed, asked_at_genesis, with_its_body, moved_and_flushed, imported, headers_taken};
ghost use Rattle.machine.specs.State.{Setting, still};
ghost use Rattle.machine.specs.Steps.{Now, Step, answered, faulted, longest_file, at_end};

/// What lines do where there is genesis alone, or anywhere: one that is empty or is no command, `flush` and the end of the
/// input, `info`, `gettxout` of an outpoint without a coin, `import` of a file that isn't there, `headers` of one that is too
/// long, `fold` of an empty one, and `generate` of one block, of two of which the second has no nonce, or with a fault.
pub fn steps_from_genesis()
    ensures empty { (setting : Setting) (now : Now) → Step setting now (line_of []) (answered now []) }
    ensures unknown { (setting : Setting) (now : Now) → Step setting now (line_of (codes "reflush")) (answered now (says.Refused UnknownCommand ∷ [])) }
    ensures no_name { (setting : Setting) (now : Now) → Step setting now (line_of (codes "import ")) (answered now (says.Refused BadName ∷ [])) }
    ensures flush { (setting : Setting) (given : Rules) (files : Files) → Step setting (at_start given files) (line_of (codes "flush")) (genesis_flushed Command given files) }
    ensures end { (given : Rules) (files : Files) → at_end (at_start given files) ≡ genesis_flushed End given files }
    ensures info { (setting : Setting) (given : Rules) (files : Files)
        → Step setting (at_start given files) (line_of (codes "info")) (answered (at_start given files) (says.Info None 1 0 role.Full genesis_hash ∷ [])) }
    ensures gettxout { (setting : Setting) (given : Rules) (files : Files) (key : OutPoint) → Step setting (at_start given files) (Ok (line.GetTxOut key)) (asked_at_genesis given files key) }
    ensures missing { (setting : Setting) (now : Now) (name : List ℕ) → get now.files name ≡ None → Step setting now (Ok (line.Import name None)) (answered now (says.HostFault ∷ [])) }
    ensures long { (setting : Setting) (now : Now) (name bytes : List ℕ) → get now.files name ≡ Some bytes → longest_file < length bytes
        → Step setting now (Ok (line.Headers name None)) (answered now (says.FileTooLong ∷ [])) }
    ensures fold { (setting : Setting) (now : Now) (name : List ℕ) → get now.files name ≡ Some [] → Step setting now (Ok (line.Fold name)) (answered now (says.Folded 0 0 genesis_hash 0 ∷ [])) }
    ensures generate { (setting : Setting) (now : Now) (number : ℕ) (name : List ℕ) (block : Block) → chain number 1 ≡ Ok (block ∷ [])
        → Step setting now (Ok (line.Generate number 1 name)) (record (answered now (says.Generated 1 (hash_of_header block.header) ∷ [])) { now = record now { files = insert now.files name (file_text (block ∷ [])) } }) }
    ensures no_nonce { (setting : Setting) (now : Now) (number : ℕ) (name : List ℕ) (block : Block) → chain number 2 ≡ Err (block ∷ [])
        → Step setting now (Ok (line.Generate number 2 name)) (record (answered now (says.NoNonce ∷ [])) { now = record now { files = insert now.files name (file_text (block ∷ [])) } }) }
    ensures fault { (setting : Setting) (now : Now) (number count : ℕ) (name : List ℕ)
        → Step setting now (Ok (line.Generate number count name)) (faulted (record now { files = remove now.files name }) (still now.state)) }
{}

/// What lines do with a file whose one frame is a block that can be applied above genesis. `import` stores the header and the
/// body, moves the tip to the block, and answers one frame, one header and one body at height 1; or it ends with a fault of
/// the host once the header is stored. `headers` stores the header alone. Where the cache has as many entries as it may, a
/// flush may stand behind the block.
pub fn steps_with_a_block()
    ensures import { (setting : Setting) (first : FirstBlock setting.limit setting.given) (files : Files) (name bytes : List ℕ)
        → get files name ≡ Some bytes → length bytes ≤ longest_file → frames bytes None ≡ first.block ∷ []
        → Step setting (at_start setting.given files) (Ok (line.Import name None)) (imported setting first files) }
    ensures fault { (setting : Setting) (first : FirstBlock setting.limit setting.given) (files : Files) (name bytes : List ℕ)
        → get files name ≡ Some bytes → length bytes ≤ longest_file → frames bytes None ≡ first.block ∷ []
        → Step setting (at_start setting.given files) (Ok (line.Import name None)) (record (headers_taken setting first files) { replies = says.HostFault ∷ []; faults = 1 }) }
    ensures headers { (setting : Setting) (first : FirstBlock setting.limit setting.given) (files : Files) (name bytes : List ℕ)
        → get files name ≡ Some bytes → length bytes ≤ longest_file → frames bytes None ≡ first.block ∷ []
        → Step setting (at_start setting.given files) (Ok (line.Headers name None)) (headers_taken setting first files) }
    ensures flush { (setting : Setting) (first : FirstBlock setting.limit setting.given) → nat_le setting.cache (count_of (touched_by first.block ++ [])) ≡ true
        → Advances setting (with_its_body setting.limit setting.given first) (moved_and_flushed setting.limit setting.given first) }
{}
