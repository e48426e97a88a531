//! Maps whose keys are sorted.
use indexmap::IndexMap;
use key_order::sort_entries;
use std::alloc::Global;
use std::test::Fail;

// The keys of a text's lines, each with the number of its line, sorted: a line each, behind its number.
fn sorted(alloc: Global, lines: &[&[u8]]) -> Result<Vec<u8>, Fail> {
    let mut values: IndexMap<Vec<u8>, u8> = IndexMap::new(alloc);
    let mut number = b'0';
    for line in lines {
        let mut key = Vec::new(alloc);
        key.extend_from_slice(line)?;
        values.insert(key, number)?;
        number = number.wrapping_add(1);
    }
    sort_entries(&mut values)?;
    let mut text = Vec::new(alloc);
    for (key, number) in &values {
        text.push(*number)?;
        text.extend_from_slice(key)?;
        text.push(b'\n')?;
    }
    Ok(text)
}

#[test]
fn keys_stand_in_byte_order(rt: HostRuntime) -> Result<(), Fail> {
    let lines: [&[u8]; 6] = [b"b", b"a\xff", b"ab", b"", b"a", b"B"];
    let text = sorted(rt.alloc(), &lines)?;
    assert_eq!(rt; text.as_slice(), b"3\n5B\n4a\n2ab\n1a\xff\n0b\n".as_slice());
    Ok(())
}
