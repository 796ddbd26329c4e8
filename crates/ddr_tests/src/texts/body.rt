//! Inputs taken apart at their mark.
use ddr_text::body::{split, take_apart};
use ddr_text::fault::Fault;
use ddr_timing::key::Key;
use ddr_timing::profile::{PROFILE_S, PROFILE_S2};
use std::alloc::{AllocError, Global};
use std::process::Abort;
use std::test::Fail;

/// Texts with the mark, and their two parts.
const MARKED: &[(&str, &str, &str)] = &[
    ("a = 1\n---\nb\n", "a = 1\n", "b\n"),
    ("a = 1\r\n---\r\nb\r\n", "a = 1\r\n", "b\r\n"),
    ("a\r\n---\nb", "a\r\n", "b"),
    ("---", "", ""),
    ("---\n", "", ""),
    ("---\r\n", "", ""),
    ("a\n---", "a\n", ""),
    // The first mark is the mark.
    ("---\n---\n", "", "---\n"),
    ("a\n---\n\n---\nb", "a\n", "\n---\nb"),
    // A line of more characters is none.
    (
        "----\n--- \n ---\n#---\n--\n---\nb",
        "----\n--- \n ---\n#---\n--\n",
        "b",
    ),
    ("é\n---\nü", "é\n", "ü"),
];

/// Texts without it.
const UNMARKED: &[&str] = &[
    "",
    "\n",
    "a\n",
    "----\n",
    "a---\n",
    // A carriage return ends a line only before a line feed, and there is one of them.
    "---\r",
    "---\r\r\n",
    "a\r---\n",
];

#[test]
fn first_marks(rt: HostRuntime) {
    for (text, config, body) in MARKED {
        assert_eq!(rt; split(text).ok(), Some((*config, *body)), "{text:?}");
    }
}

#[test]
fn no_marks(rt: HostRuntime) {
    for text in UNMARKED {
        assert_eq!(rt; split(text).err(), Some(Fault::InputHasNoMark), "{text:?}");
    }
}

/// The sample configuration, and what stands behind it.
fn input_of(alloc: Global, rest: &str) -> Result<String, AllocError> {
    let mut text = String::from_str(alloc, PROFILE_S)?;
    text.push_str(rest)?;
    Ok(text)
}

/// That a text has the sample configuration, or one with as many rows, and this body.
fn is_opened(
    rt: &impl Abort,
    alloc: Global,
    sample: bool,
    text: &str,
    wanted: &str,
) -> Result<(), Fail> {
    let (config, body) = take_apart(alloc, sample, text)?;
    assert_eq!(rt; config.geometry.rows, 16);
    assert_eq!(rt; body, wanted);
    Ok(())
}

#[test]
fn opened(rt: HostRuntime) -> Result<(), Fail> {
    is_opened(&rt, rt.alloc(), true, "---\nx", "---\nx")?;
    let text = input_of(rt.alloc(), "---\nx")?;
    is_opened(&rt, rt.alloc(), false, text.as_str(), "x")
}

/// Texts, and the fault of each.
const REFUSED: &[(&str, Fault)] = &[
    ("version = 1\n", Fault::InputHasNoMark),
    // No mark comes before the configuration's refusals.
    ("version = \n", Fault::InputHasNoMark),
    ("version = \n---\n", Fault::ConfigSyntax),
    ("---\n", Fault::ConfigMissing { key: Key::Version }),
];

/// That a text has this fault.
fn is_refused(rt: &impl Abort, alloc: Global, text: &str, fault: Fault) {
    assert_eq!(rt;
        take_apart(alloc, false, text).err(),
        Some(fault),
        "{text:?}"
    );
}

#[test]
fn refused(rt: HostRuntime) -> Result<(), Fail> {
    for (text, fault) in REFUSED {
        is_refused(&rt, rt.alloc(), text, *fault);
    }
    let text = input_of(rt.alloc(), "unknown = 1\n---\n")?;
    is_refused(&rt, rt.alloc(), text.as_str(), Fault::ConfigUnknownKey);
    Ok(())
}

/// Profile S2 with a line behind it, and the mark.
fn second_of(alloc: Global, line: &str) -> Result<String, AllocError> {
    let mut text = String::from_str(alloc, PROFILE_S2)?;
    text.push_str(line)?;
    text.push_str("---\n")?;
    Ok(text)
}

/// Version 2 is read, and refused where it is at fault.
#[test]
fn version_2(rt: HostRuntime) -> Result<(), Fail> {
    let text = second_of(rt.alloc(), "")?;
    let (config, body) = take_apart(rt.alloc(), false, text.as_str())?;
    assert_eq!(rt; config.geometry.ranks, 2);
    assert_eq!(rt; body, "");
    let text = second_of(rt.alloc(), "unknown = 1\n")?;
    is_refused(&rt, rt.alloc(), text.as_str(), Fault::ConfigUnknownKey);
    Ok(())
}
