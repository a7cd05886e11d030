//! Words of the command line.

use scope_words::{known_lines, read};
use std::alloc::{AllocError, Global};
use std::test::Fail;

// The script and the sizes of the words' reading, where they have one.
fn reads_as(
    alloc: Global,
    texts: &[&str],
    script: &str,
    sizes: Option<&str>,
) -> Result<bool, AllocError> {
    let mut words = Vec::new(alloc);
    for text in texts {
        words.push(String::from_str(alloc, text)?)?;
    }
    Ok(match read(alloc, words.as_slice())? {
        Some(reading) => reading.script == script && reading.sizes == sizes,
        None => false,
    })
}

fn has_none(alloc: Global, texts: &[&str]) -> Result<bool, AllocError> {
    let mut words = Vec::new(alloc);
    for text in texts {
        words.push(String::from_str(alloc, text)?)?;
    }
    Ok(read(alloc, words.as_slice())?.is_none())
}

#[test]
fn words_have_one_reading(rt: HostRuntime) -> Result<(), Fail> {
    known_lines();
    let alloc = rt.alloc();
    assert!(rt; reads_as(alloc, &["scope", "run", "s"], "s", None)?);
    assert!(rt;
        reads_as(
            alloc,
            &["scope", "run", "s", "--sizes", "z"],
            "s",
            Some("z")
        )?
    );
    assert!(rt; reads_as(alloc, &["scope", "--sizes=z", "run", "s"], "s", Some("z"))?);
    assert!(rt; has_none(alloc, &["scope", "run"])?);
    assert!(rt; has_none(alloc, &["scope", "plan", "s"])?);
    assert!(rt; has_none(alloc, &["scope", "run", "s", "--parts", "2"])?);
    Ok(())
}
