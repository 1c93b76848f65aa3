//! `viper_main` over a shelf and a page: worked cases, whose answers are known from outside.

use std::alloc::Global;
use std::test::Fail;
use viper_io::{Page, Shelf, Sink, SinkFault, SurePage, SureShelf};
use viper_top::{Status, sure_main, viper_main};

/// A program of one instruction that jumps to itself.
pub(crate) const LOOP: &str = "00000 06300000\n";

/// The plan of so many words with the marker 00000, where the machine starts in any state.
pub(crate) const LOOP_PLAN: &str = "code 00000 00000\nmarker 00000\nstart 00000 any any any any\n";

/// The shipped certificate: one node with any registers that leads to itself, of rank 1.
pub(crate) const ONE_NODE: [u8; 85] = [
    86, 83, 66, 67, 1, 0, 0, 0, 0, 1, 1, 0, 0, 0, 0, 0, 0, 0, 0, 128, 0, 0, 0, 127, 255, 255, 255,
    0, 0, 0, 1, 0, 0, 0, 0, 128, 0, 0, 0, 127, 255, 255, 255, 0, 0, 0, 1, 0, 0, 0, 0, 128, 0, 0, 0,
    127, 255, 255, 255, 0, 0, 0, 1, 0, 0, 0, 0, 255, 255, 255, 6, 1, 0, 0, 0, 0, 0, 0, 0, 0, 0, 0,
    0, 1, 0,
];

/// A shelf that holds the three contents.
pub(crate) fn shelf_of(alloc: Global, image: &str, plan: &str, cert: &[u8]) -> Result<Shelf, Fail> {
    let mut shelf = Shelf::new(alloc);
    shelf.hold("image", image.as_bytes())?;
    shelf.hold("plan", plan.as_bytes())?;
    shelf.hold("cert", cert)?;
    Ok(shelf)
}

pub(crate) const CHECK: [&str; 4] = ["check", "image", "plan", "cert"];

/// Over this shelf the words are answered so.
pub(crate) fn answers(
    alloc: Global,
    shelf: &mut Shelf,
    words: &[&str],
    status: Status,
    text: &'static str,
) -> Result<(), Fail> {
    let mut page = Page::new(alloc);
    let ends = viper_main(alloc, words, shelf, &mut page);
    if ends == status && page.bytes() == text.as_bytes() {
        Ok(())
    } else {
        Err(Fail::from(text))
    }
}

#[test]
fn the_first_content_that_breaks_a_rule_ends_it(rt: HostRuntime) -> Result<(), Fail> {
    let mut shelf = Shelf::new(rt.alloc());
    shelf.hold("image", b"no image")?;
    answers(
        rt.alloc(),
        &mut shelf,
        &CHECK,
        Status::Input,
        "image line 1 Form\n",
    )
}

/// What is put where the words are no command: its first line, and the commands.
const USAGE_ALONE: &str = "usage\n";

const COMMANDS: &str = "usage
Usage: viper <COMMAND>

Commands:
  check     IMAGE PLAN CERT: judges a certificate
  certify   IMAGE PLAN CERT: searches for a certificate and writes it
  run       IMAGE PLAN SCRIPT STEPS: runs a program over a script of answers
  upgrade   IMAGE PLAN CERT NEW: writes a certificate anew, in version 2
  assemble  SRC IMAGE: writes the image of a source
  disasm    IMAGE: lists an image as a source
  sample    N: makes a program of N loops, certifies it and checks the certificate
";

/// Words that are no command, and what is put.
const USAGE: [(&[&str], &str); 13] = [
    (&[], COMMANDS),
    (&["help"], COMMANDS),
    (&["sample"], COMMANDS),
    (&["sample", "0"], USAGE_ALONE),
    (&["sample", "1001"], USAGE_ALONE),
    (&["check", "a", "b"], COMMANDS),
    (&["check", "image", "plan", "cert", "more"], COMMANDS),
    (&["assemble", "image"], COMMANDS),
    (&["upgrade", "image", "plan", "cert"], COMMANDS),
    (&["upgrade", "image", "plan", "cert", "-x"], USAGE_ALONE),
    (&["check", "-x", "plan", "cert"], USAGE_ALONE),
    (&["check", "image", "", "cert"], USAGE_ALONE),
    (&["run", "image", "plan", "script", "0"], USAGE_ALONE),
];

#[test]
fn other_words_are_usage(rt: HostRuntime) -> Result<(), Fail> {
    for (words, text) in USAGE {
        let mut shelf = shelf_of(rt.alloc(), LOOP, LOOP_PLAN, &ONE_NODE)?;
        shelf.fail_at(0)?;
        answers(rt.alloc(), &mut shelf, words, Status::Usage, text)?;
    }
    Ok(())
}

#[test]
fn a_fetch_that_fails_is_outside(rt: HostRuntime) -> Result<(), Fail> {
    for call in 0..3 {
        let mut shelf = shelf_of(rt.alloc(), LOOP, LOOP_PLAN, &ONE_NODE)?;
        shelf.fail_at(call)?;
        answers(rt.alloc(), &mut shelf, &CHECK, Status::Outside, "")?;
    }
    Ok(())
}

#[test]
fn a_put_that_fails_is_outside(rt: HostRuntime) -> Result<(), Fail> {
    let mut shelf = shelf_of(rt.alloc(), LOOP, LOOP_PLAN, &ONE_NODE)?;
    let mut page = Page::new(rt.alloc());
    page.fail_at(0, 3)?;
    let status = viper_main(rt.alloc(), &CHECK, &mut shelf, &mut page);
    assert_eq!(rt; status, Status::Outside);
    assert_eq!(rt; page.bytes(), b"yes".as_slice());
    Ok(())
}

#[test]
fn a_check_makes_three_fetches_and_one_put(rt: HostRuntime) -> Result<(), Fail> {
    let mut shelf = shelf_of(rt.alloc(), LOOP, LOOP_PLAN, &ONE_NODE)?;
    shelf.fail_at(3)?;
    let mut page = Page::new(rt.alloc());
    page.fail_at(1, 0)?;
    let status = viper_main(rt.alloc(), &CHECK, &mut shelf, &mut page);
    assert_eq!(rt;
        status,
        Status::Done,
        "no call of the store after the third"
    );
    assert_eq!(rt;
        page.put(b"more"),
        Err(SinkFault::Failed),
        "the next put is the second"
    );
    Ok(())
}

#[test]
fn a_content_over_its_limit_is_long(rt: HostRuntime) -> Result<(), Fail> {
    let alloc = rt.alloc();
    let cases: [(&str, usize, &str); 4] = [
        ("image", 15_728_640, "image line 1 Form\n"),
        ("image", 15_728_641, "image long\n"),
        ("plan", 1_000_000, "plan line 2 Start\n"),
        ("plan", 1_000_001, "plan long\n"),
    ];
    for (name, bytes, text) in cases {
        let mut shelf = shelf_of(alloc, LOOP, LOOP_PLAN, &ONE_NODE)?;
        let content = vec![in alloc; b'#'; bytes]?;
        shelf.hold(name, &content)?;
        answers(rt.alloc(), &mut shelf, &CHECK, Status::Input, text)?;
    }
    Ok(())
}

/// The statuses, in the order of their numbers.
const STATUSES: [Status; 6] = [
    Status::Done,
    Status::Refused,
    Status::Usage,
    Status::Input,
    Status::Outside,
    Status::Memory,
];

#[test]
fn each_status_has_its_number(rt: HostRuntime) -> Result<(), Fail> {
    for (number, status) in STATUSES.iter().enumerate() {
        assert_eq!(rt; usize::from(status.number()), number);
    }
    Ok(())
}

#[test]
fn sure_contents_are_answered(rt: HostRuntime) -> Result<(), Fail> {
    let alloc = rt.alloc();
    let mut shelf = SureShelf::new(alloc);
    let mut page = SurePage::new(alloc);
    assert_eq!(rt;
        sure_main(alloc, &CHECK, &mut shelf, &mut page),
        Status::Input
    );
    assert_eq!(rt; page.bytes(), b"plan line 1 Start\n".as_slice());
    Ok(())
}
