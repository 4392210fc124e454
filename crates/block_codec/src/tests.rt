use super::*;
use base_types::{Cursor, Hash32, OutPoint, Script, TxOut};
use std::alloc::{AllocError, Global};
use std::test::Fail;

// A header of version 0x20000000, time 1296689202 and nonce 7, above these bytes.
fn with_header(alloc: Global, parts: &[&[u8]]) -> Result<Vec<u8>, AllocError> {
    let mut bytes = Vec::new(alloc);
    bytes.extend_from_slice(&[0, 0, 0, 0x20])?;
    bytes.extend_from_slice(&[0x22; 32])?;
    bytes.extend_from_slice(&[0x33; 32])?;
    bytes.extend_from_slice(&[0x32, 0xe8, 0x49, 0x4d, 0xff, 0xff, 0x7f, 0x20, 7, 0, 0, 0])?;
    for part in parts {
        bytes.extend_from_slice(part)?;
    }
    Ok(bytes)
}

// The coinbase of the block of height 1 of a generated chain.
const PLAIN_COINBASE: [u8; 71] = [
    0x02, 0x00, 0x00, 0x00, 0x01, 0x00, 0x00, 0x00, 0x00, 0x00, 0x00, 0x00, 0x00, 0x00, 0x00, 0x00,
    0x00, 0x00, 0x00, 0x00, 0x00, 0x00, 0x00, 0x00, 0x00, 0x00, 0x00, 0x00, 0x00, 0x00, 0x00, 0x00,
    0x00, 0x00, 0x00, 0x00, 0x00, 0xff, 0xff, 0xff, 0xff, 0x0a, 0x51, 0x08, 0x02, 0x00, 0x00, 0x00,
    0x00, 0x00, 0x00, 0x00, 0xff, 0xff, 0xff, 0xff, 0x01, 0x00, 0xf2, 0x05, 0x2a, 0x01, 0x00, 0x00,
    0x00, 0x01, 0x51, 0x00, 0x00, 0x00, 0x00,
];

// A coinbase with a witness of one item.
const COINBASE: [u8; 99] = [
    0x02, 0x00, 0x00, 0x00, 0x00, 0x01, 0x01, 0x00, 0x00, 0x00, 0x00, 0x00, 0x00, 0x00, 0x00, 0x00,
    0x00, 0x00, 0x00, 0x00, 0x00, 0x00, 0x00, 0x00, 0x00, 0x00, 0x00, 0x00, 0x00, 0x00, 0x00, 0x00,
    0x00, 0x00, 0x00, 0x00, 0x00, 0x00, 0x00, 0xff, 0xff, 0xff, 0xff, 0x02, 0x51, 0x51, 0xff, 0xff,
    0xff, 0xff, 0x01, 0x00, 0xf2, 0x05, 0x2a, 0x01, 0x00, 0x00, 0x00, 0x01, 0x51, 0x01, 0x20, 0x00,
    0x00, 0x00, 0x00, 0x00, 0x00, 0x00, 0x00, 0x00, 0x00, 0x00, 0x00, 0x00, 0x00, 0x00, 0x00, 0x00,
    0x00, 0x00, 0x00, 0x00, 0x00, 0x00, 0x00, 0x00, 0x00, 0x00, 0x00, 0x00, 0x00, 0x00, 0x00, 0x00,
    0x00, 0x00, 0x00,
];

// Two inputs and one output; the first input's witness has two items, the second's none.
const SPEND: [u8; 113] = [
    0x02, 0x00, 0x00, 0x00, 0x00, 0x01, 0x02, 0x11, 0x11, 0x11, 0x11, 0x11, 0x11, 0x11, 0x11, 0x11,
    0x11, 0x11, 0x11, 0x11, 0x11, 0x11, 0x11, 0x11, 0x11, 0x11, 0x11, 0x11, 0x11, 0x11, 0x11, 0x11,
    0x11, 0x11, 0x11, 0x11, 0x11, 0x11, 0x11, 0x00, 0x00, 0x00, 0x00, 0x00, 0xfd, 0xff, 0xff, 0xff,
    0x11, 0x11, 0x11, 0x11, 0x11, 0x11, 0x11, 0x11, 0x11, 0x11, 0x11, 0x11, 0x11, 0x11, 0x11, 0x11,
    0x11, 0x11, 0x11, 0x11, 0x11, 0x11, 0x11, 0x11, 0x11, 0x11, 0x11, 0x11, 0x11, 0x11, 0x11, 0x11,
    0x01, 0x00, 0x00, 0x00, 0x01, 0x51, 0xff, 0xff, 0xff, 0xff, 0x01, 0xd2, 0x02, 0x96, 0x49, 0x00,
    0x00, 0x00, 0x00, 0x03, 0x00, 0x14, 0x52, 0x02, 0x02, 0xaa, 0xbb, 0x00, 0x00, 0x00, 0x65, 0xcd,
    0x1d,
];

#[test]
fn genesis_has_its_hash(rt: HostRuntime) {
    assert_eq!(rt;
        genesis_hash().printed().as_slice(),
        b"0f9188f13cb7b2c71f2a335e3a4fc328bf5beb436012afca590b1a11466e2206".as_slice()
    );
}

#[test]
fn blocks_read_and_write(rt: HostRuntime) -> Result<(), Fail> {
    let plain = with_header(rt.alloc(), &[&[1], &PLAIN_COINBASE])?;
    let full = with_header(rt.alloc(), &[&[2], &COINBASE, &SPEND])?;
    for (bytes, stripped, weighs) in [(&plain, 152, 608), (&full, 249, 1040)] {
        assert!(rt; is_block(bytes));
        let block = read_block(rt.alloc(), bytes).ok().ok_or("a block")?;
        let mut out = Vec::new(rt.alloc());
        out.push(9)?;
        write_block(&mut out, &block)?;
        assert_eq!(rt; out.as_slice().get(1..), Some(bytes.as_slice()));
        assert_eq!(rt; total_size(&block), bytes.len() as u64);
        assert_eq!(rt; stripped_size(&block), stripped);
        assert_eq!(rt; weight(&block), weighs);
        assert!(rt; block.clone()? == block);
        let mut first = Vec::new(rt.alloc());
        write_header(&mut first, &block.header)?;
        assert_eq!(rt; Some(first.as_slice()), bytes.as_slice().get(..80));
        assert_eq!(rt; read_header(&mut Cursor::new(bytes)), Ok(block.header));
        let printed = block_hash(&block.header).printed();
        assert_eq!(rt;
            printed.as_slice(),
            b"073cd435b1b6e2806bf7003d62bddda6b07887f57230b30623fcb59a8b4235ad".as_slice()
        );
    }
    Ok(())
}

#[test]
fn transactions_have_their_hashes(rt: HostRuntime) -> Result<(), Fail> {
    let rows: [(&[u8], &[u8], &[u8], bool, bool); 3] = [
        (
            &PLAIN_COINBASE,
            b"40c72cb25d6570b6c14e573c3656b717b82aea2fa45d2d7de3f55c87d04de2df",
            b"40c72cb25d6570b6c14e573c3656b717b82aea2fa45d2d7de3f55c87d04de2df",
            true,
            false,
        ),
        (
            &COINBASE,
            b"4a74dde0b97a8704f2aed3db8fcf4f9dc4b52bf99478c2ccd21a6ccc3d8c327f",
            b"0e4b92520dfc674f9a18c66122ae628e1147d517240ccda448d4c4d85da2fcd3",
            true,
            true,
        ),
        (
            &SPEND,
            b"09962b056812da7915199381b995211939ad402ad0180965d6da0eb057600568",
            b"ed54ed9cca0536cabf9141f031d2ab529bdc7c9685b59021d366727cd5bbe12f",
            false,
            true,
        ),
    ];
    for (text, id, witness_id, coinbase, witness) in rows {
        let bytes = with_header(rt.alloc(), &[&[1], text])?;
        let block = read_block(rt.alloc(), &bytes).ok().ok_or("a block")?;
        let block = HashedBlock::new(rt.alloc(), block)?;
        let [tx] = block.block().txs.as_slice() else {
            return Err("one transaction".into());
        };
        let alone = read_tx(rt.alloc(), text).ok().ok_or("a transaction")?;
        assert!(rt; alone == *tx);
        assert_eq!(rt; total_tx_size(tx), text.len() as u64);
        assert!(rt; read_tx(rt.alloc(), &bytes).is_err());
        assert_eq!(rt; block.txids(), [txid(tx)].as_slice());
        assert_eq!(rt; *block.hash(), block_hash(&block.block().header));
        assert_eq!(rt; txid(tx).printed().as_slice(), id);
        assert_eq!(rt; wtxid(tx).printed().as_slice(), witness_id);
        assert_eq!(rt; is_coinbase(tx), coinbase);
        assert_eq!(rt; has_witness(tx), witness);
    }
    Ok(())
}

// What is wrong with the bytes behind a header, and where.
#[test]
fn faults_have_their_offsets(rt: HostRuntime) -> Result<(), Fail> {
    let rows: [(&[u8], BlockError, usize); 8] = [
        (&[0xfd, 5, 0], BlockError::LongSpelling, 80),
        (&[0xfd, 0xfd], BlockError::Short, 82),
        (&[0xfe, 1, 0, 0, 2], BlockError::TooLarge, 80),
        (&[1, 1, 0, 0, 0, 0, 2], BlockError::BadFlag, 86),
        (&[1, 1, 0, 0, 0, 0, 1, 0, 0], BlockError::EmptyWitness, 86),
        (&[1, 1, 0, 0, 0, 0, 0, 0, 0], BlockError::Short, 89),
        (
            &[1, 1, 0, 0, 0, 0, 0, 0, 0, 0, 0, 7],
            BlockError::Trailing,
            91,
        ),
        (&[0, 7, 7], BlockError::Trailing, 81),
    ];
    for (tail, error, at) in rows {
        let bytes = with_header(rt.alloc(), &[tail])?;
        let fault = read_block(rt.alloc(), &bytes).err();
        assert_eq!(rt; fault, Some(BlockFault::Bad { error, at }), "at {at}");
        assert!(rt; !is_block(&bytes));
    }
    Ok(())
}

#[test]
fn lists_grow(rt: HostRuntime) -> Result<(), Fail> {
    let mut stack = Stack::new(rt.alloc());
    stack.push(Script::from_slice(rt.alloc(), &[1])?)?;
    let mut inputs = Inputs::new(rt.alloc());
    inputs.push(TxIn {
        prev: OutPoint {
            txid: Hash32 { bytes: [0; 32] },
            index: u32::MAX,
        },
        script: Script::new(rt.alloc()),
        sequence: 0,
        stack,
    })?;
    let mut outputs = Outputs::new(rt.alloc());
    outputs.push(TxOut {
        value: -1,
        script: Script::new(rt.alloc()),
    })?;
    let mut txs = Txs::new(rt.alloc());
    txs.push(Tx {
        version: 2,
        inputs,
        outputs,
        lock_time: 0,
    })?;
    assert_eq!(rt; txs.as_slice().len(), 1);
    assert!(rt;
        txs.as_slice()
            .iter()
            .all(|tx| is_coinbase(tx) && has_witness(tx))
    );
    Ok(())
}
