use crate::{
    ImageFault, ImageRule, Plan, PlanFault, PlanRule, Range, read_image, read_plan, write_image,
};
use line_text::address_digits;
use std::alloc::Global;
use std::test::Fail;
use viper_word::{Addr, Profile, Word};

/// Texts that are shorter than this are read.
const SHORT: usize = 300_000;

/// The fault of a text as an image. None where it is one, or longer than those of these tests.
fn image_fault(alloc: Global, text: &[u8]) -> Option<ImageFault> {
    if text.len() > SHORT {
        return None;
    }
    read_image(alloc, text).err()
}

/// The fault of a text as a plan over an image. None where it is one, or longer.
fn plan_fault(alloc: Global, image: &[u8], text: &[u8]) -> Option<PlanFault> {
    if image.len() > SHORT || text.len() > SHORT {
        return None;
    }
    let image = read_image(alloc, image).ok()?;
    read_plan(alloc, text, &image).err()
}

/// A rule that a plan breaks at a line.
fn broken(line: u32, rule: PlanRule) -> PlanFault {
    PlanFault::At { line, rule }
}

macro_rules! image_rows {
    ($($text:literal => $line:literal $rule:ident,)*) => {
        [$(($text.as_slice(), $line, ImageRule::$rule),)*]
    };
}

macro_rules! plan_rows {
    ($($text:literal => $line:literal $rule:ident,)*) => {
        [$(($text.as_slice(), $line, PlanRule::$rule),)*]
    };
}

#[test]
fn the_first_bad_line_of_an_image_is_named(rt: HostRuntime) {
    let rows = image_rows! {
        b"\n" => 1 Form,
        b"00000 06300000\n\n" => 2 Form,
        b"00000 06300000\r\n" => 1 Form,
        b"00000  06300000" => 1 Form,
        b" 00000 06300000" => 1 Form,
        b"00000 0630000G" => 1 Form,
        b"00000 0630000\xC3" => 1 Form,
        b"000000 06300000" => 1 Form,
        b"# a comment\n" => 1 Form,
        b"00001 06300000\n00001 06300000\n" => 2 Order,
        b"00001 06300000\n00000 06300000\nx\n" => 2 Order,
        b"00001 06300000\n00000 0630000\n" => 2 Form,
    };
    for (text, line, rule) in &rows {
        let fault = ImageFault::At {
            line: *line,
            rule: *rule,
        };
        assert_eq!(rt; image_fault(rt.alloc(), text), Some(fault));
    }
}

/// Words at 00000 to 00002, and 11 at 00100.
const IMAGE: &[u8] = b"00000 00500001\n00001 00300000\n00002 06300000\n00100 0000000B\n";

#[test]
fn a_plan_line_of_no_form_is_named(rt: HostRuntime) {
    let rows = plan_rows! {
        b"code 00000  00002" => 1 Form,
        b"code 00000 00002\r\n" => 1 Form,
        b"code 00000 000002" => 1 Form,
        b" code 00000 00002" => 1 Form,
        b"Code 00000 00002" => 1 Form,
        b"marker" => 1 Form,
        b"data 00200 00200 1...2" => 1 Form,
        b"data 00200 00200 12345678901" => 1 Form,
        b"data 00200 00200 0..9/12345678901" => 1 Form,
        b"profile x" => 1 Form,
        b"cost MUL 2" => 1 Form,
        b"profile 01" => 1 Number,
        b"profile 3" => 1 Number,
        b"data 00200 00200 5..4" => 1 Number,
        b"data 00200 00200 5..5/1" => 1 Number,
        b"data 00200 00200 0..9/2" => 1 Number,
        b"data 00200 00200 0..10/-5" => 1 Number,
        b"data 00200 00200 2147483648" => 1 Number,
        b"threshold -2147483649" => 1 Number,
        b"cost NEG 0" => 1 Number,
        b"cost NEG 1001" => 1 Number,
    };
    for (text, line, rule) in &rows {
        assert_eq!(rt;
            plan_fault(rt.alloc(), IMAGE, text),
            Some(broken(*line, *rule))
        );
    }
}

#[test]
fn the_first_rule_that_a_plan_breaks_is_named(rt: HostRuntime) {
    let rows = plan_rows! {
        b"# a line\n\nthreshold 5\ncode 00000 00002\n" => 4 Order,
        b"code 00000 00002\nprofile 2\n" => 2 Order,
        b"profile 2\nprofile 2\n" => 2 Limit,
        b"code 00000 04000" => 1 Limit,
        b"cost NEG 5\ncost NEG 5\n" => 2 Limit,
        b"code 00002 00000" => 1 Span,
        b"code 00000 00002\ndata 00002 00005 any\n" => 2 Span,
        b"input 00000 00001 any\ninput 00001 00002 any\n" => 2 Span,
        b"code 00000 00003" => 1 Image,
        b"data 00100 00100 0..10" => 1 Image,
        b"code 00000 00002\nmarker 00003\n" => 2 Code,
        b"code 00000 00002\nmarker 00000\nmarker 00000\n" => 3 Marker,
        b"code 00000 00002\nmarker 00000\nstart 00001 any any any any" => 3 Marker,
        b"code 00000 00002\nmarker 00000\n" => 3 Start,
        b"code 00000 00002\nmarker 00000" => 3 Start,
        b"" => 1 Start,
    };
    for (text, line, rule) in &rows {
        assert_eq!(rt;
            plan_fault(rt.alloc(), IMAGE, text),
            Some(broken(*line, *rule))
        );
    }
}

/// Appends a line, in which `@` stands for an address.
fn push_line(text: &mut Vec<u8>, form: &[u8], at: u32) -> Result<(), Fail> {
    let at = Addr::new(at).ok_or("an address")?;
    for byte in form {
        if *byte == b'@' {
            text.extend_from_slice(&address_digits(at))
                .map_err(|_| "memory")?;
        } else {
            text.push(*byte).map_err(|_| "memory")?;
        }
    }
    text.push(b'\n').map_err(|_| "memory")?;
    Ok(())
}

/// Lines in front, and so many behind them, at the addresses from 00000 on.
fn repeated(alloc: Global, front: &[u8], form: &[u8], count: u32) -> Result<Vec<u8>, Fail> {
    let mut text = Vec::from_slice(alloc, front).map_err(|_| "memory")?;
    for at in 0..count {
        push_line(&mut text, form, at)?;
    }
    Ok(text)
}

#[test]
fn as_many_lines_are_taken_as_there_may_be(rt: HostRuntime) -> Result<(), Fail> {
    let alloc = rt.alloc();
    let image = repeated(alloc, b"", b"@ 00000000", 1_025)?;
    // lines in front, the line that is repeated, how often it may be, where it is one too many
    let rows: [(&[u8], &[u8], u32, u32); 7] = [
        (b"", b"code @ @", 256, 257),
        (b"", b"data @ @ any", 256, 257),
        (b"", b"input @ @ any", 256, 257),
        (b"", b"output @ @ any", 256, 257),
        (b"code 00000 00400\n", b"marker @", 1_024, 1_026),
        (
            b"code 00000 00000\nmarker 00000\n",
            b"start 00000 0 0 0 0",
            16,
            19,
        ),
        (b"", b"threshold 5", 1_024, 1_025),
    ];
    for (front, form, most, line) in &rows {
        let limit = Some(broken(*line, PlanRule::Limit));
        let mut text = repeated(alloc, front, form, *most)?;
        assert!(rt; plan_fault(alloc, image.as_slice(), text.as_slice()) != limit);
        push_line(&mut text, form, *most)?;
        assert_eq!(rt; plan_fault(alloc, image.as_slice(), text.as_slice()), limit);
    }
    Ok(())
}

#[test]
fn as_many_code_words_are_taken_as_there_may_be(rt: HostRuntime) -> Result<(), Fail> {
    let image = repeated(rt.alloc(), b"", b"@ 00000000", 16_385)?;
    let rows = plan_rows! {
        b"code 00000 03FFF" => 2 Start,
        b"code 00000 04000" => 1 Limit,
        b"code 02000 03FFF\ncode 00000 01FFF" => 3 Start,
        b"code 02000 03FFF\ncode 00000 02000" => 2 Limit,
        b"code 02000 03FFF\ncode 00001 02000" => 2 Span,
        b"code 00000 03FFF\ncode 00001 00000" => 2 Span,
    };
    for (text, line, rule) in &rows {
        assert_eq!(rt;
            plan_fault(rt.alloc(), image.as_slice(), text),
            Some(broken(*line, *rule))
        );
    }
    Ok(())
}

const PLAN: &[u8] = b"profile 2\ncode 00002 00002\ncode 00000 00001\ndata 00100 00101 -1..11/4\n\
input 00020 00020 7\noutput 00020 00021 any\nmarker 00000\nstart 00000 -0 any 0..255 1\n\
threshold -5\ncost READ 3\ncost OUT 9\n";

/// The plan of that text.
fn plan_of_tests(alloc: Global) -> Result<Plan, Fail> {
    let image = read_image(alloc, IMAGE).map_err(|_| "an image")?;
    let plan = read_plan(alloc, PLAN, &image).map_err(|_| "a plan")?;
    Ok(plan)
}

#[test]
fn a_plan_gives_words_and_costs(rt: HostRuntime) -> Result<(), Fail> {
    let plan = plan_of_tests(rt.alloc())?;
    // an address, its code word, its word of the image
    let rows = [
        (0x0, Some(Word(0x0050_0001)), Some(Word(0x0050_0001))),
        (0x1, Some(Word(0x0030_0000)), Some(Word(0x0030_0000))),
        (0x2, Some(Word(0x0630_0000)), Some(Word(0x0630_0000))),
        (0x3, None, None),
        (0x100, None, Some(Word(11))),
        (0x101, None, None),
    ];
    for (number, code, word) in &rows {
        let at = Addr::new(*number).ok_or("an address")?;
        assert_eq!(rt; plan.code_word(at), *code);
        assert_eq!(rt; plan.image_word(at), *word);
    }
    for (word, cost) in &[(0x0630_0000, 3), (0x1C30_0020, 9), (0x0130_0000, 1)] {
        assert_eq!(rt; plan.cost(Word(*word)), *cost);
    }
    Ok(())
}

#[test]
fn a_plan_gives_ranges(rt: HostRuntime) -> Result<(), Fail> {
    let plan = plan_of_tests(rt.alloc())?;
    // an address, and the ranges of data, of what is read and of what is put out there
    let rows = [
        (0x101, Range::steps(-1, 11, 4), None, None),
        (0x102, None, None, None),
        (0x20, None, Range::one(7), Some(Range::any())),
        (0x21, None, None, Some(Range::any())),
    ];
    for (number, data, input, output) in &rows {
        let at = Addr::new(*number).ok_or("an address")?;
        assert_eq!(rt; plan.data_range(at), *data);
        assert_eq!(rt; plan.input_range(at), *input);
        assert_eq!(rt; plan.output_range(at), *output);
    }
    Ok(())
}

#[test]
fn a_plan_lists_its_lines(rt: HostRuntime) -> Result<(), Fail> {
    let plan = plan_of_tests(rt.alloc())?;
    let first = Addr::new(0).ok_or("an address")?;
    assert_eq!(rt; plan.profile(), Profile::Two);
    assert_eq!(rt; plan.markers(), [first].as_slice());
    assert_eq!(rt; plan.thresholds(), [-5].as_slice());
    assert_eq!(rt; plan.code_spans().len(), 2);
    assert_eq!(rt; plan.starts().len(), 1);
    Ok(())
}

#[test]
fn a_range_has_each_step_from_its_lower_end(rt: HostRuntime) -> Result<(), Fail> {
    let range = Range::steps(-1, 11, 4).ok_or("a range")?;
    // a number, and whether it is in the range
    for (n, is_in) in &[(-1, true), (0, false), (3, true), (11, true), (15, false)] {
        assert_eq!(rt; range.has(*n), *is_in);
    }
    Ok(())
}

#[test]
fn an_image_is_written_in_upper_case(rt: HostRuntime) -> Result<(), Fail> {
    let mut image = read_image(rt.alloc(), b"0000a 0630ffFf").map_err(|_| "an image")?;
    let first = Addr::new(9).ok_or("an address")?;
    assert_eq!(rt; image.put(first, Word(1)).ok(), Some(true));
    assert_eq!(rt; image.put(first, Word(2)).ok(), Some(false));
    let text = write_image(rt.alloc(), &image).map_err(|_| "memory")?;
    assert_eq!(rt;
        text.as_slice(),
        b"00009 00000001\n0000A 0630FFFF\n".as_slice()
    );
    Ok(())
}
