//! Reading a snapshot file piece by piece.

ghost use Rattle.std.specs.Prelude.{◌≡◌, ◌+◌, ◌*◌, ◌^◌, ◌≤◌, ◌++◌, [], length, None, Err, IfOk, IfErr, OnErr};

use crate::coins::{SnapCoins, with_room};
use crate::fault::SnapFault;
use crate::head::SnapHead;
use crate::progress::Progress;
use base_types::SnapError;
use std::alloc::{AllocError, Global};

// The room for an item that isn't whole yet, which is taken once: twice the longest, a coin with a script of 10,000 bytes.
const HELD: usize = 20_480;

/// What a piece made whole: the metadata, and coins in the order of the file.
#[derive(Debug, PartialEq, Eq, Drop)]
pub struct Pieces {
    pub head: Option<SnapHead>,
    pub coins: SnapCoins,
}

// Where a reader stands.
#[derive(Clone, Copy, Debug)]
pub(crate) enum Stage {
    // Within the metadata.
    Head,
    // Behind it.
    Coins(Progress),
    // No further: each later call answers this.
    Failed(SnapFault),
}

/// A reader of a snapshot file, which is fed its bytes piece by piece. Of the bytes it keeps those of one item that isn't
/// whole yet.
#[derive(Drop)]
pub struct Reader {
    alloc: Global,
    stage: Stage,
    // The offset of the first byte that is held.
    at: u64,
    held: Vec<u8>,
    ghost few: { at + length held.items ≤ 2 ^ 63 },
}

impl Pieces {
    ghost use Rattle.snapshot_file.specs.Fed.{is_empty as has_none};

    // Nothing.
    fn new(alloc: Global) -> Pieces
        ensures head { result.head ≡ None }
        ensures coins { result.coins ≡ [] }
    {
        Pieces {
            head: None,
            coins: SnapCoins::new(alloc),
        }
    }

    fn is_empty(&self) -> bool
        ensures { result ≡ has_none self.now }
    {
        self.head.is_none() && self.coins.as_slice().is_empty()
    }
}

impl Reader {
    ghost use Rattle.std.specs.Prelude.{ℕ, List, Option, Some};
    ghost use Rattle.snapshot_file.specs.Steps.{Waits};
    ghost use Rattle.snapshot_file.specs.Part.{read_part};
    ghost use Rattle.snapshot_file.specs.Fed.{bytes_fed, fault_of, first_progress, HasFed, feeding, move, FeedAnswer, Grows, finish_of, Finishes, MoveStep, TakeStep};
    ghost use Rattle.snapshot_file.specs.declared.reader.Stage.TheVariants.{Coins as InCoins};

    /// A reader that was fed nothing, with room for the bytes of one item. It fails where no memory is left for that.
    pub fn new(alloc: Global) -> Result<Reader, AllocError>
        ensures { IfOk result (λ reader. HasFed reader None []) }
    {
        Ok(Reader {
            alloc,
            stage: Stage::Head,
            at: 0,
            held: Vec::with_capacity(alloc, HELD)?,
        })
    }

    /// How many bytes it was fed.
    pub fn fed(&self) -> u64
        ensures { result ≡ bytes_fed self.now }
    {
        self.at + self.held.len() as u64
    }

    /// Sets the height of the base, above which no coin may be. The metadata is whole, and no byte behind it was fed.
    pub fn base_height(&mut self, height: u32)
        requires { bytes_fed self.old ≡ 51 }
        ensures set { (before : Option ℕ) (fed : List ℕ) → HasFed self.old before fed → HasFed self.new (Some height) fed }
        ensures count { bytes_fed self.new ≡ bytes_fed self.old }
        ensures failed { fault_of self.new ≡ fault_of self.old }
    {
        if let Stage::Coins(progress) = self.stage {
            self.stage = Stage::Coins(Progress {
                height: Some(height),
                ..progress
            });
        }
    }

    // Completes the item that was begun, and reads those that follow.
    fn take_items(
        &mut self,
        mut progress: Progress,
        piece: &[u8],
        coins: &mut SnapCoins,
    ) -> Result<(), SnapFault>
        requires fits { bytes_fed self.old + length piece.now ≤ 2 ^ 63 }
        requires none { coins.old ≡ [] }
        ensures step { self.old.stage ≡ InCoins progress → Waits progress self.old.held.items → MoveStep result (move progress piece.now coins.old coins.new) self.old self.new }
        ensures few { 4 * length coins.new ≤ 4 * length coins.old + length piece.now + 4 }
    {
        if piece.is_empty() {
            return Ok(());
        }
        *coins = with_room(self.alloc, progress.most_coins(piece.len()))?;
        let begun = self.fed();
        let mut used = 0;
        if !self.held.is_empty() {
            match progress.complete(self.alloc, self.at, &mut self.held, piece, coins)? {
                None => return Ok(()),
                Some(len) => used = len,
            }
        }
        let more = progress.read_items(self.alloc, begun + used as u64, &piece[used..], coins)?;
        self.held.clear();
        self.at = begun + (used + more) as u64;
        self.held.extend_from_slice(&piece[used + more..])?;
        self.stage = Stage::Coins(progress);
        Ok(())
    }

    // Takes the bytes of a piece, and adds what they make whole.
    fn take(&mut self, piece: &[u8], pieces: &mut Pieces) -> Result<(), SnapFault>
        requires fits { bytes_fed self.old + length piece.now ≤ 2 ^ 63 }
        requires none { pieces.old.coins ≡ [] }
        ensures step { (height : Option ℕ) (fed : List ℕ) → HasFed self.old height fed → fault_of self.old ≡ None → pieces.old.head ≡ None → TakeStep (feeding height fed piece.now) result self.new pieces.new }
        ensures few { 4 * length pieces.new.coins ≤ 4 * length pieces.old.coins + length piece.now + 4 }
    {
        match self.stage {
            Stage::Failed(fault) => Err(fault),
            Stage::Coins(progress) => self.take_items(progress, piece, &mut pieces.coins),
            Stage::Head => {
                let Some((head, used)) = SnapHead::complete(&mut self.held, piece)? else {
                    return Ok(());
                };
                pieces.head = Some(head);
                let progress = self.begin_coins(head);
                self.take_items(progress, &piece[used..], &mut pieces.coins)
            }
        }
    }

    // Stands behind the metadata.
    fn begin_coins(&mut self, head: SnapHead) -> Progress
        ensures result { result ≡ first_progress head }
        ensures stage { self.new.stage ≡ InCoins (first_progress head) }
        ensures at { self.new.at ≡ 51 }
        ensures held { self.new.held.items ≡ [] }
    {
        let progress = Progress {
            height: None,
            left: head.count,
            members: 0,
            txid: head.base,
        };
        self.held.clear();
        self.at = SnapHead::LEN as u64;
        self.stage = Stage::Coins(progress);
        progress
    }

    // Each later call answers the fault.
    fn fail(&mut self, fault: SnapFault, end: u64)
        requires { end ≤ 2 ^ 63 }
        ensures failed { fault_of self.new ≡ Some fault }
        ensures count { bytes_fed self.new ≡ end }
        ensures stage { self.new.stage ≡ Stage.Failed fault }
    {
        self.held.clear();
        self.at = end;
        self.stage = Stage::Failed(fault);
    }

    /// Takes the next bytes of the file. It answers what became whole with them, or what is wrong. Where something became
    /// whole and the bytes then break the form, the next call answers that. After an error every call answers the same. It
    /// takes one allocation for each coin and one for the list of them, which has room for a coin of each four bytes of the
    /// piece, 22 times the piece.
    pub fn feed(&mut self, piece: &[u8]) -> Result<Pieces, SnapFault>
        requires { bytes_fed self.old + length piece.now ≤ 2 ^ 63 }
        ensures answer { (height : Option ℕ) (fed : List ℕ) → HasFed self.old height fed → FeedAnswer (feeding height fed piece.now) result self.new }

        // At least four bytes make a coin whole, but for the one that was begun.
        ensures few { IfOk result (λ pieces. 4 * length pieces.coins ≤ length piece.now + 4) }

        // However the file is cut.
        ensures grows { (height : Option ℕ) (fed : List ℕ) → Grows (read_part height fed) (read_part height (fed ++ piece.now)) }

        // After an error.
        ensures same { (fault : SnapFault) → fault_of self.old ≡ Some fault → (result ≡ Err fault) × (self.new ≡ self.old) }
        ensures err { IfErr result (λ fault. fault_of self.new ≡ Some fault) }
        ensures count { OnErr result (fault_of self.old ≡ None → bytes_fed self.new ≡ bytes_fed self.old + length piece.now) }
    {
        if let Stage::Failed(fault) = self.stage {
            return Err(fault);
        }
        let end = self.fed() + piece.len() as u64;
        let mut pieces = Pieces::new(self.alloc);
        let Err(fault) = self.take(piece, &mut pieces) else {
            return Ok(pieces);
        };
        self.fail(fault, end);
        if pieces.is_empty() {
            return Err(fault);
        }
        match fault {
            SnapFault::NoMemory => Err(fault),
            SnapFault::Bad { .. } => Ok(pieces),
        }
    }

    /// Whether the bytes that were fed are a whole file, repeated outpoints aside: `Ok`, or the error of a call before, or
    /// Short at the end of the bytes.
    pub fn finish(&self) -> Result<(), SnapFault>
        ensures answer { (height : Option ℕ) (fed : List ℕ) → HasFed self.now height fed → result ≡ finish_of height fed }
        ensures whole { (height : Option ℕ) (fed : List ℕ) → HasFed self.now height fed → Finishes height fed result }
        ensures same { (fault : SnapFault) → fault_of self.now ≡ Some fault → result ≡ Err fault }
    {
        match self.stage {
            Stage::Failed(fault) => Err(fault),
            Stage::Head => Err(self.short()),
            Stage::Coins(progress) => {
                if progress.left > 0 {
                    return Err(self.short());
                }
                Ok(())
            }
        }
    }

    // The bytes end before the last coin.
    fn short(&self) -> SnapFault
        ensures { result ≡ SnapFault.Bad SnapError.Short (bytes_fed self.now) }
    {
        SnapFault::Bad {
            error: SnapError::Short,
            at: self.fed(),
        }
    }
}
