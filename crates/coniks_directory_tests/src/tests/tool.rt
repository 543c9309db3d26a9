//! Runs of `keydir` over streams, and a run whose board is full.

mod failing;
mod refused;
mod scripts;

use coniks_tool::{MemoryIn, MemoryOut, run_script};
use std::process::Abort;

/// The greatest number of epochs of a run.
const MOST: u64 = 1024;

const OPEN: &str =
    "{\"cmd\":\"open\",\"key\":\"0000000000000000000000000000000000000000000000000000000000000000\",\"nonce\":\"1111111111111111111111111111111111111111111111111111111111111111\",\"policy\":\"2222222222222222222222222222222222222222222222222222222222222222\"}\n";

/// Returns a script that opens a directory and adds an empty batch for each epoch from 1 to `MOST` + 1. A lookup and a
/// batch at epoch `MOST` follow.
fn script<R: Abort + AllocGlobal>(rt: &R) -> String {
    let mut lines = String::from_str(rt.alloc(), OPEN).expect(rt, "memory");
    for place in 1..=MOST + 3 {
        let line = if place == MOST + 2 {
            format!(in rt.alloc(); "{{\"cmd\":\"lookup\",\"epoch\":{MOST},\"name\":\"a\"}}\n")
        } else {
            let epoch = if place <= MOST + 1 { place } else { MOST };
            format!(in rt.alloc(); "{{\"cmd\":\"batch\",\"epoch\":{epoch},\"ops\":[]}}\n")
        };
        let added = lines.push_str(&line.expect(rt, "memory"));
        added.expect(rt, "memory");
    }
    lines
}

/// The board takes at most 1,024 heads. The next batch is refused, and lookups still succeed. If the epoch isn't later
/// either, that error is returned first.
#[test]
fn board_is_full(rt: HostRuntime) {
    let alloc = rt.alloc();
    let script = script(&rt);
    let mut reader = MemoryIn::new(Vec::from_slice(alloc, script.as_bytes()).expect(&rt, "memory"));
    let mut writer = MemoryOut::new(alloc);
    let ran = run_script(&rt, alloc, &mut reader, &mut writer, 1, 0);
    assert!(rt; ran == Ok(false));
    let written = str::from_utf8(writer.bytes()).expect(&rt, "text");
    let answers = written.lines().skip(MOST as usize);
    for (place, answer) in answers.enumerate() {
        let is_well = match place {
            0 => answer.contains("\"epoch\":1024") && answer.contains("\"ok\":\"batch\""),
            1 => answer == "{\"fault\":\"BoardFull\"}",
            2 => answer.contains("\"ok\":\"lookup\""),
            _ => answer == "{\"fault\":\"EpochNotLater\",\"latest\":1024}",
        };
        assert!(rt; is_well, "{place}: {answer}");
    }
    assert!(rt; written.lines().count() == MOST as usize + 4);
}
