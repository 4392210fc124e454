use crate::body::check_at;
use crate::fault::CheckFault;
use crate::place::Place;
use base_types::{BodyRefused, Hash32, OutPoint, Rules, Script, TxOut};
use block_codec::{Block, GENESIS, Inputs, Outputs, Stack, Tx, TxIn, Txs, txids};
use merkle::{computed_commitment, root};
use std::alloc::{AllocError, Global};
use std::test::Fail;

const ZERO: Hash32 = Hash32 { bytes: [0; 32] };

const NOTHING: OutPoint = OutPoint {
    txid: ZERO,
    index: u32::MAX,
};

const PLACE: Place = Place {
    height: 1,
    median: 500_000_000,
    rules: Rules {
        version4: 1,
        bip34: 1,
        csv: 1,
        segwit: 1,
    },
};

// A transaction that spends outputs of the zero hash by their indexes, with an output of this script.
fn tx_of(
    alloc: Global,
    indexes: &[u32],
    script: &[u8],
    item: &[u8],
    paid_to: &[u8],
) -> Result<Tx, AllocError> {
    let mut inputs = Inputs::new(alloc);
    for index in indexes {
        let mut stack = Stack::new(alloc);
        stack.push(Script::from_slice(alloc, item)?)?;
        inputs.push(TxIn {
            prev: OutPoint {
                index: *index,
                ..NOTHING
            },
            script: Script::from_slice(alloc, script)?,
            sequence: 0,
            stack,
        })?;
    }
    let mut outputs = Outputs::new(alloc);
    outputs.push(TxOut {
        value: 1,
        script: Script::from_slice(alloc, paid_to)?,
    })?;
    Ok(Tx {
        version: 1,
        inputs,
        outputs,
        lock_time: 0,
    })
}

// A block of a coinbase that commits to this hash, and a transaction with a witness that spends outputs by their indexes.
fn block_of(alloc: Global, committed: &Hash32, indexes: &[u32]) -> Result<Block, AllocError> {
    let mut commitment = Vec::from_slice(alloc, &[0x6a, 0x24, 0xaa, 0x21, 0xa9, 0xed])?;
    commitment.extend_from_slice(&committed.bytes)?;
    let mut txs = Txs::new(alloc);
    txs.push(tx_of(alloc, &[u32::MAX], &[0x51, 0], &[0; 32], &commitment)?)?;
    txs.push(tx_of(alloc, indexes, &[], &[1], &[0x51])?)?;
    let txids = txids(alloc, txs.as_slice())?;
    let mut header = GENESIS;
    header.root = root(alloc, &txids)?.hash;
    Ok(Block { header, txs })
}

// Blocks that commit to their witnesses: one that breaks no rule, and one that spends an output twice.
#[test]
fn blocks_with_witnesses(rt: HostRuntime) -> Result<(), Fail> {
    let twice = Err(CheckFault::Refused(BodyRefused::DuplicateInput));
    for (indexes, want) in [([0, 1, 2], Ok(())), ([0, 1, 0], twice)] {
        let draft = block_of(rt.alloc(), &ZERO, &indexes)?;
        let committed = computed_commitment(rt.alloc(), &draft, &[0; 32])?;
        let block = block_of(rt.alloc(), &committed, &indexes)?;
        let txids = txids(rt.alloc(), block.txs.as_slice())?;
        assert_eq!(rt; check_at(rt.alloc(), &PLACE, &block, &txids), want);
    }
    Ok(())
}
