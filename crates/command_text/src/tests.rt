use super::*;
use base_types::{BodyRefused, Chain, CoinRefused, Hash32, HeaderRefused, Script};
use std::alloc::Global;
use std::test::Fail;

const GENESIS: Hash32 = Hash32 {
    bytes: [
        0x06, 0x22, 0x6e, 0x46, 0x11, 0x1a, 0x0b, 0x59, 0xca, 0xaf, 0x12, 0x60, 0x43, 0xeb, 0x5b,
        0xbf, 0x28, 0xc3, 0x4f, 0x3a, 0x5e, 0x33, 0x2a, 0x1f, 0xc7, 0xb2, 0xb7, 0x3c, 0xf1, 0x88,
        0x91, 0x0f,
    ],
};

// Each line with what is printed of its command.
#[test]
fn lines_are_commands(rt: HostRuntime) -> Result<(), Fail> {
    let rows: [(&[u8], &str); 16] = [
        (b"", "Empty"),
        (b"flush", "Flush"),
        (b"info", "Info"),
        (b"fold a.dat", "Fold { file: Name { text: \"a.dat\" } }"),
        (b"fold !~", "Fold { file: Name { text: \"!~\" } }"),
        (
            b"headers a",
            "Headers { file: Name { text: \"a\" }, key: None }",
        ),
        (
            b"headers a 0001020304050607",
            "Headers { file: Name { text: \"a\" }, key: Some([0, 1, 2, 3, 4, 5, 6, 7]) }",
        ),
        (
            b"import a",
            "Import { file: Name { text: \"a\" }, key: None }",
        ),
        (
            b"import a abcdefABCDEF00Ff",
            "Import { file: Name { text: \"a\" }, key: Some([171, 205, 239, 171, 205, 239, 0, 255]) }",
        ),
        (
            b"generate 2 2 a.dat",
            "Generate { number: 2, count: 2, file: Name { text: \"a.dat\" } }",
        ),
        (
            b"generate 18446744073709551615 100000 a",
            "Generate { number: 18446744073709551615, count: 100000, file: Name { text: \"a\" } }",
        ),
        (
            b"generate 00000000000000000009 000001 a",
            "Generate { number: 9, count: 1, file: Name { text: \"a\" } }",
        ),
        (
            b"generate 0 1 a",
            "Generate { number: 0, count: 1, file: Name { text: \"a\" } }",
        ),
        (b"fold fold", "Fold { file: Name { text: \"fold\" } }"),
        (
            b"import info",
            "Import { file: Name { text: \"info\" }, key: None }",
        ),
        (
            b"headers headers",
            "Headers { file: Name { text: \"headers\" }, key: None }",
        ),
    ];
    for (line, shown) in rows {
        let parsed = parse(rt.alloc(), line).expect(&rt, "a command");
        let text = format!(in rt.alloc(); "{parsed:?}")?;
        assert_eq!(rt; text.as_str(), shown);
    }
    Ok(())
}

// The transaction of the genesis block as it is seen, and in the other case.
#[test]
fn outpoints_are_read_backwards(rt: HostRuntime) -> Result<(), Fail> {
    let shown = b"4a5e1e4baab89f3a32518a88c31bc87f618f76673e2cc77ab2127b7afdeda33b";
    let rows: [(&[u8], u32); 4] = [
        (
            b"gettxout 4a5e1e4baab89f3a32518a88c31bc87f618f76673e2cc77ab2127b7afdeda33b 0",
            0,
        ),
        (
            b"gettxout 4A5E1E4BAAB89F3A32518A88C31BC87F618F76673E2CC77AB2127B7AFDEDA33B 0000000001",
            1,
        ),
        (
            b"gettxout 4a5e1e4baab89f3a32518a88c31bc87f618f76673e2cc77ab2127b7afdeda33b 4294967295",
            4294967295,
        ),
        (
            b"gettxout 4a5e1e4BAAB89f3a32518a88c31bc87f618f76673e2cc77ab2127b7afdeda33b 16512",
            16512,
        ),
    ];
    for (line, index) in rows {
        match parse(rt.alloc(), line).expect(&rt, "a command") {
            Line::GetTxOut { key } => {
                assert!(rt; key.txid.printed() == *shown);
                assert!(rt; key.txid.bytes[0] == 0x3b);
                assert_eq!(rt; key.index, index);
            }
            _ => assert!(rt; false),
        }
    }
    Ok(())
}

fn is_refused(alloc: Global, line: &[u8], why: LineRefused) -> bool {
    match parse(alloc, line) {
        Err(LineFault::Refused(found)) => found == why,
        _ => false,
    }
}

// Each malformed line with the reason that is found first.
#[test]
fn lines_are_refused(rt: HostRuntime) -> Result<(), Fail> {
    let rows: [(&[u8], LineRefused); 49] = [
        (b" ", LineRefused::UnknownCommand),
        (b"coins", LineRefused::UnknownCommand),
        (b"Info", LineRefused::UnknownCommand),
        (b"info ", LineRefused::UnknownCommand),
        (b" info", LineRefused::UnknownCommand),
        (b"infos", LineRefused::UnknownCommand),
        (b"inf", LineRefused::UnknownCommand),
        (b"info a", LineRefused::UnknownCommand),
        (b"flush\r", LineRefused::UnknownCommand),
        (b"flush a", LineRefused::UnknownCommand),
        (b"fold", LineRefused::UnknownCommand),
        (b"fold  a", LineRefused::UnknownCommand),
        (b"fold a 0001020304050607", LineRefused::UnknownCommand),
        (b"fold\ta", LineRefused::UnknownCommand),
        (b"headers", LineRefused::UnknownCommand),
        (b"headers a 00 00", LineRefused::UnknownCommand),
        (b"import", LineRefused::UnknownCommand),
        (b"import a 0001020304050607 ", LineRefused::UnknownCommand),
        (b"generate", LineRefused::UnknownCommand),
        (b"generate 1 1", LineRefused::UnknownCommand),
        (b"generate 1 1 a b", LineRefused::UnknownCommand),
        (b"generate 1 1 a b c d e f", LineRefused::UnknownCommand),
        (b"gettxout 4a", LineRefused::UnknownCommand),
        (b"gettxout 4a 0 0", LineRefused::UnknownCommand),
        (b"fold ", LineRefused::BadName),
        (b"fold a\tb", LineRefused::BadName),
        (b"fold \x7f", LineRefused::BadName),
        (b"fold \xc3\xa9", LineRefused::BadName),
        (b"headers ", LineRefused::BadName),
        (b"headers  0001020304050607", LineRefused::BadName),
        (b"headers \x01 00", LineRefused::BadName),
        (b"import  00", LineRefused::BadName),
        (b"headers a ", LineRefused::BadKey),
        (b"headers a 000102030405060", LineRefused::BadKey),
        (b"headers a 000102030405060g", LineRefused::BadKey),
        (b"import a 00010203040506070", LineRefused::BadKey),
        (b"import a 000102030405060708", LineRefused::BadKey),
        (b"generate  1 a", LineRefused::BadNumber),
        (b"generate -1 0 ", LineRefused::BadNumber),
        (b"generate +1 1 a", LineRefused::BadNumber),
        (b"generate 1a 1 a", LineRefused::BadNumber),
        (b"generate 18446744073709551616 0 a", LineRefused::BadNumber),
        (
            b"generate 000000000000000000001 1 a",
            LineRefused::BadNumber,
        ),
        (b"generate 1 0 a", LineRefused::BadCount),
        (b"generate 1  ", LineRefused::BadCount),
        (b"generate 1 100001 ", LineRefused::BadCount),
        (b"generate 1 0000001 a", LineRefused::BadCount),
        (b"generate 1 +1 a", LineRefused::BadCount),
        (b"generate 1 1 ", LineRefused::BadName),
    ];
    for (line, why) in rows {
        assert!(rt; is_refused(rt.alloc(), line, why));
    }
    Ok(())
}

#[test]
fn outpoints_are_refused(rt: HostRuntime) -> Result<(), Fail> {
    let rows: [(&[u8], LineRefused); 8] = [
        (b"gettxout 4a 0", LineRefused::BadTxid),
        (b"gettxout 4a 4294967296", LineRefused::BadTxid),
        (
            b"gettxout 4a5e1e4baab89f3a32518a88c31bc87f618f76673e2cc77ab2127b7afdeda33 0",
            LineRefused::BadTxid,
        ),
        (
            b"gettxout 4a5e1e4baab89f3a32518a88c31bc87f618f76673e2cc77ab2127b7afdeda33g 0",
            LineRefused::BadTxid,
        ),
        (
            b"gettxout 4a5e1e4baab89f3a32518a88c31bc87f618f76673e2cc77ab2127b7afdeda33b 4294967296",
            LineRefused::BadIndex,
        ),
        (
            b"gettxout 4a5e1e4baab89f3a32518a88c31bc87f618f76673e2cc77ab2127b7afdeda33b 00000000000",
            LineRefused::BadIndex,
        ),
        (
            b"gettxout 4a5e1e4baab89f3a32518a88c31bc87f618f76673e2cc77ab2127b7afdeda33b ",
            LineRefused::BadIndex,
        ),
        (
            b"gettxout 4a5e1e4baab89f3a32518a88c31bc87f618f76673e2cc77ab2127b7afdeda33b -1",
            LineRefused::BadIndex,
        ),
    ];
    for (line, why) in rows {
        assert!(rt; is_refused(rt.alloc(), line, why));
    }
    Ok(())
}

// The longest line and the longest name, and those that have a byte more.
#[test]
fn lengths_are_limited(rt: HostRuntime) -> Result<(), Fail> {
    let alloc = rt.alloc();
    assert!(rt; is_refused(alloc, &[b'x'; 4096], LineRefused::UnknownCommand));
    assert!(rt; is_refused(alloc, &[b'x'; 4097], LineRefused::LineTooLong));
    let mut line = Vec::from_slice(alloc, b"fold ")?;
    line.extend_from_slice(&[b'n'; 200])?;
    assert!(rt; parse(alloc, &line).is_ok());
    line.push(b'n')?;
    assert!(rt; is_refused(alloc, &line, LineRefused::BadName));
    Ok(())
}

fn is_written(alloc: Global, reply: &Reply, line: &[u8]) -> Result<bool, Fail> {
    let mut out = Vec::from_slice(alloc, b"before\n")?;
    write_reply(&mut out, reply)?;
    Ok(out.starts_with(b"before\n") && &out[7..] == line)
}

// Each reply with its line.
#[test]
fn replies_have_their_lines(rt: HostRuntime) -> Result<(), Fail> {
    let hash = Hash32 { bytes: [0xab; 32] };
    let rows: [(Reply, &[u8]); 23] = [
        (
            Reply::Refused(LineRefused::LineTooLong),
            b"refused line-too-long\n",
        ),
        (
            Reply::Refused(LineRefused::UnknownCommand),
            b"refused unknown-command\n",
        ),
        (Reply::Refused(LineRefused::BadName), b"refused bad-name\n"),
        (Reply::Refused(LineRefused::BadKey), b"refused bad-key\n"),
        (Reply::Refused(LineRefused::BadTxid), b"refused bad-txid\n"),
        (
            Reply::Refused(LineRefused::BadIndex),
            b"refused bad-index\n",
        ),
        (
            Reply::Refused(LineRefused::BadNumber),
            b"refused bad-number\n",
        ),
        (
            Reply::Refused(LineRefused::BadCount),
            b"refused bad-count\n",
        ),
        (Reply::HostFault, b"refused host-fault\n"),
        (Reply::FileTooLong, b"refused file-too-long\n"),
        (Reply::TreeFull, b"refused tree-full\n"),
        (Reply::NoNonce, b"refused no-nonce\n"),
        (
            Reply::NotNext { hash },
            b"refused not-next abababababababababababababababababababababababababababababababab\n",
        ),
        (
            Reply::Block {
                hash,
                rule: Rule::Header(HeaderRefused::BadBits),
            },
            b"refused block abababababababababababababababababababababababababababababababab BadBits\n",
        ),
        (
            Reply::Block {
                hash,
                rule: Rule::Body(BodyRefused::BadMerkle),
            },
            b"refused block abababababababababababababababababababababababababababababababab BadMerkle\n",
        ),
        (
            Reply::Block {
                hash,
                rule: Rule::Coin(CoinRefused::CoinbaseAmount),
            },
            b"refused block abababababababababababababababababababababababababababababababab CoinbaseAmount\n",
        ),
        (
            Reply::Body {
                hash,
                rule: BodyRefused::Mutated,
            },
            b"body abababababababababababababababababababababababababababababababab Mutated\n",
        ),
        (
            Reply::BlockOf {
                chain: Chain::Snapshot,
                hash,
                rule: CoinRefused::Immature,
            },
            b"block snapshot abababababababababababababababababababababababababababababababab Immature\n",
        ),
        (
            Reply::Folded {
                frames: 2,
                height: 2,
                tip: hash,
                coins: 2,
            },
            b"folded 2 2 abababababababababababababababababababababababababababababababab 2\n",
        ),
        (
            Reply::Headers {
                frames: 120,
                added: 119,
                tree: 18446744073709551615,
            },
            b"headers 120 119 18446744073709551615\n",
        ),
        (
            Reply::Import {
                frames: 2,
                headers: 0,
                bodies: 1,
                height: 3,
                tip: hash,
            },
            b"import 2 0 1 3 abababababababababababababababababababababababababababababababab\n",
        ),
        (
            Reply::Generated {
                count: 2,
                tip: hash,
            },
            b"generated 2 abababababababababababababababababababababababababababababababab\n",
        ),
        (
            Reply::Flushed {
                chain: Chain::Full,
                height: 0,
                tip: GENESIS,
            },
            b"flushed full 0 0f9188f13cb7b2c71f2a335e3a4fc328bf5beb436012afca590b1a11466e2206\n",
        ),
    ];
    for (reply, line) in &rows {
        assert!(rt; is_written(rt.alloc(), reply, line)?);
    }
    Ok(())
}

#[test]
fn coins_and_states_are_json(rt: HostRuntime) -> Result<(), Fail> {
    let alloc = rt.alloc();
    let hash = Hash32 { bytes: [0xab; 32] };
    assert!(rt; is_written(alloc, &Reply::TxOut(None), b"null\n")?);
    let found = TxOutFound {
        bestblock: hash,
        coinbase: true,
        confirmations: 2,
        height: 1,
        script: Script::from_slice(alloc, b"\x51")?,
        value: 5_000_000_000,
    };
    assert!(rt;
        is_written(
            alloc,
            &Reply::TxOut(Some(found)),
            b"{\"bestblock\":\"abababababababababababababababababababababababababababababababab\",\"coinbase\":true,\"confirmations\":2,\"height\":1,\"script\":\"51\",\"value\":5000000000}\n"
        )?
    );
    let found = TxOutFound {
        bestblock: GENESIS,
        coinbase: false,
        confirmations: 1,
        height: 0,
        script: Script::from_slice(alloc, b"\xaf\x00")?,
        value: 0,
    };
    assert!(rt;
        is_written(
            alloc,
            &Reply::TxOut(Some(found)),
            b"{\"bestblock\":\"0f9188f13cb7b2c71f2a335e3a4fc328bf5beb436012afca590b1a11466e2206\",\"coinbase\":false,\"confirmations\":1,\"height\":0,\"script\":\"af00\",\"value\":0}\n"
        )?
    );
    let new = Reply::Info {
        background: None,
        headers: 1,
        height: 0,
        role: Role::Full,
        tip: GENESIS,
    };
    assert!(rt;
        is_written(
            alloc,
            &new,
            b"{\"background\":null,\"chain\":\"regtest\",\"headers\":1,\"height\":0,\"role\":\"full\",\"tip\":\"0f9188f13cb7b2c71f2a335e3a4fc328bf5beb436012afca590b1a11466e2206\"}\n"
        )?
    );
    let loaded = Reply::Info {
        background: Some(Background {
            height: 3,
            tip: GENESIS,
        }),
        headers: 121,
        height: 110,
        role: Role::Unvalidated,
        tip: hash,
    };
    assert!(rt;
        is_written(
            alloc,
            &loaded,
            b"{\"background\":{\"height\":3,\"tip\":\"0f9188f13cb7b2c71f2a335e3a4fc328bf5beb436012afca590b1a11466e2206\"},\"chain\":\"regtest\",\"headers\":121,\"height\":110,\"role\":\"unvalidated\",\"tip\":\"abababababababababababababababababababababababababababababababab\"}\n"
        )?
    );
    Ok(())
}
