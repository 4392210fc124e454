use super::*;
use base_types::{Hash32, HeaderRefused, Limits, Rules, TARGET_BITS};
use block_codec::{GENESIS, Header, block_hash};
use chain_model::{TreeView, meets_target};
use std::test::Fail;

const ZERO: Hash32 = Hash32 { bytes: [0; 32] };

const LIMITS: Limits = Limits {
    file_bytes: 0,
    headers: 1000,
};

const RULES: Rules = Rules {
    version4: 1,
    bip34: 1,
    csv: 1,
    segwit: 1,
};

// The header of this parent and time with the least nonce whose hash meets the target.
fn mined(prev: Hash32, time: u32) -> Header {
    let mut header = Header {
        version: 4,
        prev,
        root: ZERO,
        time,
        bits: TARGET_BITS,
        nonce: 0,
    };
    for nonce in 0..100 {
        header.nonce = nonce;
        if meets_target(&block_hash(&header)) {
            return header;
        }
    }
    header
}

// The tree as the rules of blocks see it.
fn seen_at<T: TreeView>(tree: &T, hash: &Hash32) -> (Option<u32>, Option<Hash32>, Option<u32>) {
    (
        tree.height(hash),
        tree.ancestor(hash, 1),
        tree.median_time(hash),
    )
}

fn seen_under<T: TreeView>(tree: &T, hash: &Hash32) -> (Option<Header>, Rules) {
    (tree.header(hash).copied(), *tree.rules())
}

// Two blocks above genesis, and one beside the second.
#[test]
fn a_small_tree(rt: HostRuntime) -> Result<(), Fail> {
    let mut tree = Tree::new(rt.alloc(), &LIMITS, &RULES)?;
    let genesis = tree.at(0).ok_or("no genesis")?;
    let first = tree.accept(&mined(genesis, GENESIS.time + 600))?;
    let header = mined(first, GENESIS.time + 1200);
    let tip = tree.accept(&header)?;
    let beside = tree.accept(&mined(first, GENESIS.time + 1201))?;
    assert_eq!(rt; tree.size(), 4);
    assert_eq!(rt; tree.at(4), None);
    assert_eq!(rt; tree.fork(&tip, &beside), Some(first));
    assert_eq!(rt;
        tree.accept(&header),
        Err(AcceptFault::Refused(HeaderRefused::Known))
    );
    assert_eq!(rt;
        seen_at(&tree, &tip),
        (Some(2), Some(first), Some(GENESIS.time + 600))
    );
    assert_eq!(rt; seen_under(&tree, &tip), (Some(header), RULES));
    assert_eq!(rt; seen_at(&tree, &ZERO), (None, None, None));
    Ok(())
}
