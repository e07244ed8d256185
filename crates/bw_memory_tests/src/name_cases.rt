//! Names of groups: only a long one takes memory.
use bw_tree::Name;
use std::alloc::{AllocError, Global};
use std::process::Abort;
use std::test::Fail;

// Texts of up to 24 bytes, which are never refused.
static SHORT: [&str; 3] = ["", "n", "name-of-twenty-four-byte"];

// One byte more.
static LONG: &str = "name-of-twenty-five-bytes";

fn assert_text(rt: &impl Abort, name: &Name, text: &str) {
    assert!(rt; name.as_str() == text, "{text}");
}

// A name and its copy.
fn name_and_copy(alloc: Global, text: &str) -> Result<(Name, Name), AllocError> {
    let name = Name::new(alloc, text)?;
    let copy = name.clone()?;
    Ok((name, copy))
}

fn assert_short(rt: &impl Abort, alloc: Global) -> Result<(), AllocError> {
    for text in &SHORT {
        let (name, copy) = name_and_copy(alloc, text)?;
        assert_text(rt, &name, text);
        assert_text(rt, &copy, text);
    }
    Ok(())
}

#[test]
fn names(rt: HostRuntime) -> Result<(), Fail> {
    assert_short(&rt, rt.alloc())?;
    let (name, copy) = match name_and_copy(rt.alloc(), LONG) {
        Err(_) => name_and_copy(rt.alloc(), LONG)?,
        Ok(both) => both,
    };
    assert_text(&rt, &name, LONG);
    assert_text(&rt, &copy, LONG);
    Ok(())
}
