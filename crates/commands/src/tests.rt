// What the crate does on examples.
use crate::account::*;
use crate::command::*;
use crate::dump::*;
use crate::name::*;
use crate::number::*;
use crate::verb::*;
use std::alloc::Global;
use std::process::Abort;
use std::test::Fail;

fn stands_for(rt: &impl Abort, heap: Global, text: &str, bytes: &[u8]) -> Result<(), Fail> {
    let name = name_bytes(heap, text)?;
    assert_eq!(rt; name.as_slice(), bytes, "{text}");
    Ok(())
}

#[test]
fn names_stand_for_bytes(rt: HostRuntime) -> Result<(), Fail> {
    let heap = rt.alloc();
    stands_for(&rt, heap, "ST HELIER", b"ST HELIER")?;
    stands_for(&rt, heap, "", b"")?;
    stands_for(&rt, heap, "\\x41\\xfF\\x0dx", b"A\xff\x0dx")?;
    stands_for(&rt, heap, "\\x5cx41", b"\\x41")?;
    stands_for(&rt, heap, "é", b"\xc3\xa9")
}

#[test]
fn bad_escapes_are_no_names(rt: HostRuntime) -> Result<(), Fail> {
    for text in ["\\", "A\\x", "\\x4", "\\x4g", "\\X41", "\\y41", "\\\\x41"] {
        let Err(NameError::BadEscape) = name_bytes(rt.alloc(), text) else {
            return Err(Fail::new(text));
        };
    }
    Ok(())
}

#[test]
fn numbers_are_decimal_bytes(rt: HostRuntime) {
    assert_eq!(rt; number("0"), Some(0));
    assert_eq!(rt; number("018"), Some(18));
    assert_eq!(rt; number("255"), Some(255));
    for text in [
        "",
        "256",
        "+1",
        "-1",
        "1 ",
        "0x12",
        "99999999999999999999999",
    ] {
        assert_eq!(rt; number(text), None, "{text}");
    }
}

#[test]
fn accounts_are_one_line(rt: HostRuntime) -> Result<(), Fail> {
    let account = Account {
        name: "OBAN",
        bytes: 254,
        blocks: 1,
    };
    let shown = account.to_string(rt.alloc())?;
    assert_eq!(rt; shown.as_str(), "OBAN: 254 bytes, 1 blocks");
    Ok(())
}

#[test]
fn lines_have_sixteen_pairs(rt: HostRuntime) -> Result<(), Fail> {
    let bytes = [
        0x12, 0x01, 0x41, 0, 255, 0xa0, 9, 10, 15, 16, 0x99, 0x9a, 0xaf, 0xf0, 0x7f, 0x80,
    ];
    let line = HexLine(&bytes).to_string(rt.alloc())?;
    assert_eq!(rt;
        line.as_str(),
        "12 01 41 00 ff a0 09 0a 0f 10 99 9a af f0 7f 80"
    );
    Ok(())
}

fn words_of(heap: Global, line: &str) -> Result<Vec<String>, Fail> {
    let words = line
        .split(' ')
        .map(|word| String::from_str(heap, word))
        .try_collect(heap)?;
    Ok(words)
}

#[test]
fn words_ask_for_commands(rt: HostRuntime) -> Result<(), Fail> {
    let words = words_of(rt.alloc(), "extract disk.d64 A\\x42 out")?;
    let Ok(Command::Extract { image, name, out }) = parse(rt.alloc(), words.as_slice()) else {
        return Err(Fail::new("no extract"));
    };
    assert_eq!(rt; image, "disk.d64");
    assert_eq!(rt; name.text, "A\\x42");
    assert_eq!(rt; name.bytes.as_slice(), b"AB".as_slice());
    assert_eq!(rt; out, "out");
    Ok(())
}

#[test]
fn numbers_ask_for_a_block(rt: HostRuntime) -> Result<(), Fail> {
    let words = words_of(rt.alloc(), "block disk.d64 18 0")?;
    let Ok(Command::Block { image, place }) = parse(rt.alloc(), words.as_slice()) else {
        return Err(Fail::new("no block"));
    };
    assert_eq!(rt; image, "disk.d64");
    assert_eq!(rt; place, (18, 0));
    Ok(())
}

fn is_refused(rt: &impl Abort, heap: Global, line: &str, complaint: &str) -> Result<(), Fail> {
    let words = words_of(heap, line)?;
    match parse(heap, words.as_slice()) {
        Ok(_) => Err(Fail::new(line)),
        Err(error) => {
            let shown = error.to_string(heap)?;
            assert_eq!(rt; shown.as_str(), complaint);
            Ok(())
        }
    }
}

#[test]
fn other_words_are_refused(rt: HostRuntime) -> Result<(), Fail> {
    let heap = rt.alloc();
    is_refused(&rt, heap, "scratch disk.d64", "no such command: scratch")?;
    is_refused(
        &rt,
        heap,
        "extract disk.d64 OBAN",
        "expected extract IMAGE NAME OUT",
    )?;
    is_refused(
        &rt,
        heap,
        "block disk.d64 18 0 1",
        "expected block IMAGE TRACK SECTOR",
    )?;
    is_refused(
        &rt,
        heap,
        "block disk.d64 256 x",
        "not a number from 0 to 255: 256",
    )?;
    is_refused(
        &rt,
        heap,
        "block disk.d64 18 x",
        "not a number from 0 to 255: x",
    )?;
    is_refused(
        &rt,
        heap,
        "extract disk.d64 A\\x out",
        "bad escape in the name: A\\x",
    )
}

#[test]
fn usage_has_a_line_for_each_command(rt: HostRuntime) -> Result<(), Fail> {
    let usage = Usage.to_string(rt.alloc())?;
    assert_eq!(rt; usage.lines().count(), 2 + Verb::ALL.len());
    Ok(())
}
