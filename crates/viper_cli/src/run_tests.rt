//! `run` over a shelf and a page: worked cases, whose answers are known from outside.

use std::test::Fail;
use viper_io::{Page, Shelf};
use viper_top::{Status, viper_main};

/// An image, a plan, a script and a number of steps, and how their run is answered.
#[derive(Clone, Copy)]
struct Case {
    image: &'static str,
    plan: &'static str,
    script: &'static str,
    steps: &'static str,
    status: Status,
    text: &'static str,
}

macro_rules! cases {
    ($($image:literal $plan:literal $script:literal $steps:literal => $status:ident $text:literal,)*) => {
        [$(Case { image: $image, plan: $plan, script: $script, steps: $steps, status: Status::$status, text: $text },)*]
    };
}

#[test]
fn run_does_what_the_machine_does(rt: HostRuntime) -> Result<(), Fail> {
    // A is read from 00020, and back: no answer left, one out of range, all performed; comments and
    // empty lines. An undeclared address uses its answer up. An overflow in the first step. An
    // output. A right shift in each profile. Data that the image doesn't give begins at the least number
    // of its range. Each shift, an addition with its carry, a jump that is skipped, and the end of memory.
    let cases: [Case; 18] = cases! {
        "00000 10200020\n00001 06300000\n" "code 00000 00001\ninput 00020 00020 0..255\nmarker 00000\nstart 00000 any any any any\n" "state 00000 00000000 00000000 00000000 0\n00000005\n" "4" => Refused "script ended 2 00020\n",
        "00000 10200020\n00001 06300000\n" "code 00000 00001\ninput 00020 00020 0..255\nmarker 00000\nstart 00000 any any any any\n" "state 00000 00000000 00000000 00000000 0\n00000005\n00000100" "4" => Refused "out of range 2 00020 00000100\n",
        "00000 10200020\n00001 06300000\n" "code 00000 00001\ninput 00020 00020 0..255\nmarker 00000\nstart 00000 any any any any\n" "# a\n\nstate 00000 00000000 00000000 00000000 0\n00000005\n#\n00000007\n" "4" => Done "ran 4 P 00000 A 00000007 X 00000000 Y 00000000 B 0\n",
        "00000 10200020\n00001 06300000\n" "code 00000 00001\nmarker 00000\nstart 00000 any any any any\n" "state 00000 00000000 00000000 00000000 1\nFFFFFFFF\n" "3" => Refused "script ended 2 00020\n",
        "00000 00500001\n00001 06300000\n" "code 00000 00001\nmarker 00000\nstart 00000 any any any any\n" "state 00000 7FFFFFFF 00000000 00000000 0\n" "5" => Refused "stopped 0 overflow\n",
        "00000 10200020\n00001 1C000021\n00002 06300000\n" "code 00000 00002\ninput 00020 00020 0..255\noutput 00021 00021 0..255\nmarker 00000\nstart 00000 any any any any\n" "state 00000 00000000 00000000 00000000 0\n00000007\n" "3" => Done "out 1 00021 00000007\nran 3 P 00000 A 00000007 X 00000000 Y 00000000 B 0\n",
        "00000 00C00000\n00001 06300000\n" "profile 2\ncode 00000 00001\nmarker 00000\nstart 00000 any any any any\n" "state 00000 00000003 00000000 00000000 0\n" "1" => Done "ran 1 P 00001 A 00000001 X 00000000 Y 00000000 B 1\n",
        "00000 00C00000\n00001 06300000\n" "profile 1\ncode 00000 00001\nmarker 00000\nstart 00000 any any any any\n" "state 00000 00000003 00000000 00000000 0\n" "1" => Done "ran 1 P 00001 A 00000001 X 00000000 Y 00000000 B 0\n",
        "00000 10300100\n00001 06300000\n" "code 00000 00001\ndata 00100 00101 -3..9/3\nmarker 00000\nstart 00000 any any any any\n" "state 00000 00000000 00000000 00000000 0\n" "1" => Done "ran 1 P 00001 A FFFFFFFD X 00000000 Y 00000000 B 0\n",
        "00000 10300100\n00001 06300000\n00100 00000006\n" "code 00000 00001\ndata 00100 00101 -3..9/3\nmarker 00000\nstart 00000 any any any any\n" "state 00000 00000000 00000000 00000000 0\n" "1" => Done "ran 1 P 00001 A 00000006 X 00000000 Y 00000000 B 0\n",
        "00000 1C000021\n00001 06300000\n" "code 00000 00001\nmarker 00000\nstart 00000 any any any any\n" "state 00000 00000009 00000000 00000000 0\n" "3" => Done "out 0 00021 00000009\nout 2 00021 00000009\nran 3 P 00001 A 00000009 X 00000000 Y 00000000 B 0\n",
        "00000 00C00000\n" "code 00000 00000\nmarker 00000\nstart 00000 any any any any\n" "state 00000 80000001 00000000 00000000 1\n" "1" => Done "ran 1 P 00001 A C0000000 X 00000000 Y 00000000 B 1\n",
        "00000 10C00000\n" "code 00000 00000\nmarker 00000\nstart 00000 any any any any\n" "state 00000 80000001 00000000 00000000 1\n" "1" => Done "ran 1 P 00001 A C0000000 X 00000000 Y 00000000 B 1\n",
        "00000 20C00000\n" "code 00000 00000\nmarker 00000\nstart 00000 any any any any\n" "state 00000 40000000 00000000 00000000 0\n" "1" => Refused "stopped 0 overflow\n",
        "00000 30C00000\n" "code 00000 00000\nmarker 00000\nstart 00000 any any any any\n" "state 00000 80000001 00000000 00000000 1\n" "1" => Done "ran 1 P 00001 A 00000003 X 00000000 Y 00000000 B 1\n",
        "00000 00400001\n" "code 00000 00000\nmarker 00000\nstart 00000 any any any any\n" "state 00000 FFFFFFFF 00000000 00000000 0\n" "1" => Done "ran 1 P 00001 A 00000000 X 00000000 Y 00000000 B 1\n",
        "00000 28300000\n" "code 00000 00000\nmarker 00000\nstart 00000 any any any any\n" "state 00000 00000000 FFFFFFFF 00000000 0\n" "1" => Done "ran 1 P 00001 A 00000000 X FFFFFFFF Y 00000000 B 0\n",
        "FFFFF 06300000\n" "code FFFFF FFFFF\nmarker FFFFF\nstart FFFFF any any any any\n" "state FFFFF 00000000 00000000 00000000 0\n" "1" => Refused "stopped 0 end\n",
    };
    for case in &cases {
        let mut shelf = Shelf::new(rt.alloc());
        shelf.hold("image", case.image.as_bytes())?;
        shelf.hold("plan", case.plan.as_bytes())?;
        shelf.hold("script", case.script.as_bytes())?;
        let mut page = Page::new(rt.alloc());
        let words = ["run", "image", "plan", "script", case.steps];
        assert_eq!(rt;
            viper_main(rt.alloc(), &words, &mut shelf, &mut page),
            case.status
        );
        assert_eq!(rt; page.bytes(), case.text.as_bytes());
    }
    Ok(())
}

const IMAGE: &str = "00000 06300000\n";

const PLAN: &str = "code 00000 00000\nmarker 00000\nstart 00000 0..9 any any any\n";

const SCRIPT: &str = "state 00000 00000000 00000000 00000000 0\n";

/// What stands in place of a text, and how the run is answered.
const FAULTS: [(&str, &str, &str, &str, Status, &str); 18] = [
    // image plan script steps => status text
    (
        "0000 06300000",
        PLAN,
        SCRIPT,
        "1",
        Status::Input,
        "image line 1 Form\n",
    ),
    (
        "00000 06300000\n00000 06300000\n",
        PLAN,
        SCRIPT,
        "1",
        Status::Input,
        "image line 2 Order\n",
    ),
    (
        IMAGE,
        "code 00000 00000\nmarker 00000\nstart 00000 0..9/2 any any any\n",
        SCRIPT,
        "1",
        Status::Input,
        "plan line 3 Number\n",
    ),
    (
        IMAGE,
        "code 00000 00000\nmarker 00000\n",
        SCRIPT,
        "1",
        Status::Input,
        "plan line 3 Start\n",
    ),
    (IMAGE, PLAN, "", "1", Status::Input, "script line 1 Form\n"),
    (
        IMAGE,
        PLAN,
        "# a\n\n",
        "1",
        Status::Input,
        "script line 3 Form\n",
    ),
    (
        IMAGE,
        PLAN,
        "state 00000 00000000 00000000 00000000 0\nstate 00000 00000000 00000000 00000000 0\n",
        "1",
        Status::Input,
        "script line 2 Form\n",
    ),
    (
        IMAGE,
        PLAN,
        "state 00000 00000000 00000000 00000000 0\n000000005\n",
        "1",
        Status::Input,
        "script line 2 Form\n",
    ),
    (
        IMAGE,
        PLAN,
        "state 00000 00000000 00000000 00000000 0\r\n",
        "1",
        Status::Input,
        "script line 1 Form\n",
    ),
    (
        IMAGE,
        PLAN,
        "\nstate 00000 0000000A 00000000 00000000 0\n\n00000001\n",
        "1",
        Status::Input,
        "script line 2 Start\n",
    ),
    (
        IMAGE,
        PLAN,
        "state 00000 0000000A 00000000 00000000 0\n\nx\n",
        "1",
        Status::Input,
        "script line 3 Form\n",
    ),
    (
        IMAGE,
        PLAN,
        SCRIPT,
        "1",
        Status::Done,
        "ran 1 P 00000 A 00000000 X 00000000 Y 00000000 B 0\n",
    ),
    (
        IMAGE,
        PLAN,
        SCRIPT,
        "1000000",
        Status::Done,
        "ran 1000000 P 00000 A 00000000 X 00000000 Y 00000000 B 0\n",
    ),
    (IMAGE, PLAN, SCRIPT, "0", Status::Usage, "usage\n"),
    (IMAGE, PLAN, SCRIPT, "1000001", Status::Usage, "usage\n"),
    (IMAGE, PLAN, SCRIPT, "00000001", Status::Usage, "usage\n"),
    (IMAGE, PLAN, SCRIPT, "+1", Status::Usage, "usage\n"),
    (IMAGE, PLAN, SCRIPT, "", Status::Usage, "usage\n"),
];

#[test]
fn run_names_the_first_fault(rt: HostRuntime) -> Result<(), Fail> {
    for (image, plan, script, steps, status, text) in FAULTS {
        let mut shelf = Shelf::new(rt.alloc());
        shelf.hold("image", image.as_bytes())?;
        shelf.hold("plan", plan.as_bytes())?;
        shelf.hold("script", script.as_bytes())?;
        let mut page = Page::new(rt.alloc());
        let words = ["run", "image", "plan", "script", steps];
        assert_eq!(rt;
            viper_main(rt.alloc(), &words, &mut shelf, &mut page),
            status
        );
        assert_eq!(rt; page.bytes(), text.as_bytes());
    }
    Ok(())
}

#[test]
fn a_script_over_its_limit_is_long(rt: HostRuntime) -> Result<(), Fail> {
    // bytes => text
    let cases: [(usize, &str); 2] = [
        (16_000_000, "script line 2 Form\n"),
        (16_000_001, "script long\n"),
    ];
    for (bytes, text) in &cases {
        let mut shelf = Shelf::new(rt.alloc());
        shelf.hold("image", IMAGE.as_bytes())?;
        shelf.hold("plan", PLAN.as_bytes())?;
        let script = vec![in rt.alloc(); b'#'; *bytes]?;
        shelf.hold("script", &script)?;
        let mut page = Page::new(rt.alloc());
        let words = ["run", "image", "plan", "script", "1"];
        let status = viper_main(rt.alloc(), &words, &mut shelf, &mut page);
        assert_eq!(rt; status, Status::Input);
        assert_eq!(rt; page.bytes(), text.as_bytes());
    }
    Ok(())
}
