//! What a script begins with and holds, what replies come to, and a summary's text.

use crate::{Summary, script, summarize, write_summary};
use std::test::Fail;

#[test]
fn the_script_of_the_seed_0(rt: HostRuntime) -> Result<(), Fail> {
    let script = script(rt.alloc(), 0)?;
    assert!(rt; script.starts_with(b"load\n<doc id=\"d0\"><sec><t>w63</t><p>"));
    assert!(rt; script.ends_with(b"\ncheck\n"));
    Ok(())
}

#[test]
fn a_summary_has_eight_lines(rt: HostRuntime) -> Result<(), Fail> {
    let summary = Summary {
        commands: 801,
        accepted: 490,
        refused: 10,
        answers: 1234,
        nodes: 8200,
        weight: 987_654,
        digest: [0xab; 32],
    };
    let text = write_summary(rt.alloc(), 7, &summary)?;
    let due =
        b"sample 7\ncommands 801\naccepted 490\nrefused 10\nanswers 1234\nnodes 8200\nweight 987654\nsha256 abababababababababababababababababababababababababababababababab\n";
    assert_eq!(rt; text.as_slice(), due.as_slice());
    Ok(())
}

const REPLIES: &str =
    "ok 1 3\nok 1.1 2\nno 3 absent\nhits 2\n1.1 book\n1.3.-1 title\nfragments 1\nfragment 1 2\n1 book data\n1.1 #text data\nsound 3\nok 3 1\nunsound 01ff\nhits 0\nsound 4\nno 7 full\n";

#[test]
fn replies_of_all_sorts(rt: HostRuntime) -> Result<(), Fail> {
    let summary = summarize(REPLIES, 4096);
    let text = write_summary(rt.alloc(), 0, &summary)?;
    let due =
        b"sample 0\ncommands 11\naccepted 3\nrefused 2\nanswers 3\nnodes 4\nweight 4096\nsha256 27bcf45183996c1a04f0afe6a72460684caba056b835e750c5717896d9e8e239\n";
    assert_eq!(rt; text.as_slice(), due.as_slice());
    Ok(())
}
