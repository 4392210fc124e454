use super::*;
use base_types::{Hash32, OutPoint, Script, TxOut};
use block_codec::{Block, GENESIS, Inputs, Outputs, Stack, Tx, TxIn, Txs};
use std::alloc::{AllocError, Global};
use std::test::Fail;

const ZERO: Hash32 = Hash32 { bytes: [0; 32] };

// Roots of hashes that repeat one byte each, by Python's hashlib. Those that are marked have the root of a shorter list,
// or twins that would allow one.
#[test]
fn roots_and_marks(rt: HostRuntime) -> Result<(), Fail> {
    let rows: [(&[u8], bool, &[u8]); 13] = [
        (
            &[],
            false,
            b"0000000000000000000000000000000000000000000000000000000000000000",
        ),
        (
            &[1],
            false,
            b"0101010101010101010101010101010101010101010101010101010101010101",
        ),
        (
            &[1, 2],
            false,
            b"b4100303b9e99ada4b479b0bb93d9b549cb057a1c4be08896bc982debe20ce39",
        ),
        (
            &[1, 2, 3],
            false,
            b"acbd47d5022a6c5e954ad677df8ec221c893f871889826df53f0f1ad3f023e22",
        ),
        (
            &[1, 2, 3, 4],
            false,
            b"12c8e8d4975689696b32029894a9266711df6b98a1c9871b706886f9aeab5a08",
        ),
        (
            &[1, 2, 3, 4, 5],
            false,
            b"d3e522600f2e93120ad9331f4e199c5dd98262a23ff8ae8b3f8b36720f87e226",
        ),
        (
            &[1, 2, 3, 4, 5, 6],
            false,
            b"e997cf87f07390b75c226efc45bf94094c307ba7a530877dd37f03a821d5667b",
        ),
        (
            &[1, 2, 3, 4, 5, 6, 7],
            false,
            b"69922ea57ef5956fdba7938afcaa0b2f08f384989b1b81d784e7949f7f31da5c",
        ),
        (
            &[1, 2, 3, 4, 5, 6, 7, 8],
            false,
            b"fc58b77eadb9340fcfdff91faec0d94b1eeba563de98cf4d7dbaffcf485910c1",
        ),
        (
            &[1, 2, 3, 3],
            true,
            b"acbd47d5022a6c5e954ad677df8ec221c893f871889826df53f0f1ad3f023e22",
        ),
        (
            &[1, 2, 3, 4, 5, 6, 5, 6],
            true,
            b"e997cf87f07390b75c226efc45bf94094c307ba7a530877dd37f03a821d5667b",
        ),
        (
            &[1, 2, 1, 2],
            true,
            b"65885cb83a8397ddc8300a3c42b6744ff746feb59ba5c4a307c3bb37a567ab75",
        ),
        (
            &[1, 1],
            true,
            b"95f0e7b5236e43c8ec7634f5bf5e13d6b7b391cd8fe8e5524e241fcfb488a061",
        ),
    ];
    for (names, mutated, digits) in rows {
        let mut hashes = Vec::new(rt.alloc());
        for name in names {
            hashes.push(Hash32 { bytes: [*name; 32] })?;
        }
        let found = root(rt.alloc(), &hashes)?;
        assert_eq!(rt;
            found.hash.printed().as_slice(),
            digits,
            "the root of {names:?}"
        );
        assert_eq!(rt; found.mutated, mutated, "the mark of {names:?}");
        assert!(rt; root_in_place(hashes) == found);
    }
    Ok(())
}

const NOTHING: OutPoint = OutPoint {
    txid: ZERO,
    index: u32::MAX,
};

// A transaction of one input, whose witness has these items, and one output.
fn tx_of(alloc: Global, prev: OutPoint, items: &[&[u8]], script: &[u8]) -> Result<Tx, AllocError> {
    let mut stack = Stack::new(alloc);
    for item in items {
        let item = Script::from_slice(alloc, item)?;
        stack.push(item)?;
    }
    let mut inputs = Inputs::new(alloc);
    let input = TxIn {
        prev,
        script: Script::from_slice(alloc, &[0x51, 0])?,
        sequence: 0xffff_fffe,
        stack,
    };
    inputs.push(input)?;
    let mut outputs = Outputs::new(alloc);
    let output = TxOut {
        value: 1_000,
        script: Script::from_slice(alloc, script)?,
    };
    outputs.push(output)?;
    Ok(Tx {
        version: 2,
        inputs,
        outputs,
        lock_time: 9,
    })
}

// A commitment to a hash that repeats the byte 5.
const COMMITMENT: [u8; 38] = [
    0x6a, 0x24, 0xaa, 0x21, 0xa9, 0xed, 5, 5, 5, 5, 5, 5, 5, 5, 5, 5, 5, 5, 5, 5, 5, 5, 5, 5, 5, 5,
    5, 5, 5, 5, 5, 5, 5, 5, 5, 5, 5, 5,
];

// A coinbase, a transaction with a witness and one without, by Python's hashlib.
#[test]
fn witnesses_are_committed_to(rt: HostRuntime) -> Result<(), Fail> {
    let first = OutPoint {
        txid: Hash32 { bytes: [0x11; 32] },
        index: 0,
    };
    let coinbase = tx_of(rt.alloc(), NOTHING, &[&[0; 32]], &COMMITMENT)?;
    let with_witness = tx_of(rt.alloc(), first, &[&[1, 2], &[3]], &[0x51])?;
    let without = tx_of(rt.alloc(), OutPoint { index: 1, ..first }, &[], &[])?;
    let mut txs = Txs::new(rt.alloc());
    txs.push(coinbase)?;
    txs.push(with_witness)?;
    txs.push(without)?;
    let block = Block {
        header: GENESIS,
        txs,
    };
    let root = witness_root(rt.alloc(), &block)?;
    assert_eq!(rt;
        root.printed().as_slice(),
        b"21bce30f03874793f2c508f78229ad30f34b41408d9a56c95e63b989d6bc49d6".as_slice()
    );
    assert_eq!(rt; commitment(&block), Some(Hash32 { bytes: [5; 32] }));
    let computed = computed_commitment(rt.alloc(), &block, &[7; 32])?;
    assert_eq!(rt;
        computed.printed().as_slice(),
        b"1ca26ac12a0f034bec389ceb459771c55fc95fbb89e65603cdd3bd6cae89eb64".as_slice()
    );
    Ok(())
}
