//! `assemble` and `disasm` over a shelf and a page: worked cases, whose answers are known from outside.

use std::alloc::Global;
use std::test::Fail;
use viper_io::{Page, Shelf};
use viper_top::{Status, viper_main};

/// A source, and how its assembly is answered: the text, and what then stands under `image`.
#[derive(Clone, Copy)]
struct Case {
    source: &'static str,
    status: Status,
    text: &'static str,
    placed: &'static str,
}

macro_rules! cases {
    ($($source:literal => $status:ident $text:literal $placed:literal,)*) => {
        [$(Case { source: $source, status: Status::$status, text: $text, placed: $placed },)*]
    };
}

#[test]
fn assemble_places_the_image_of_a_source(rt: HostRuntime) -> Result<(), Fail> {
    // source => status text placed; what stood there before is `old`.
    let cases: [Case; 14] = cases! {
        "00000 READ A LIT A 0000A\nlabel loop\n+ SUBS A LIT A 00001\n+ EQ A LIT A 00000\n+ READ A LIT PNB loop\n+ READ A LIT P 00000\n" => Done "words 5\n" "00000 0030000A\n00001 00700001\n00002 01200000\n00003 0A300001\n00004 06300000\n",
        "00000 READ A LIT A 0000A\nlabel loop\n+ SUBS A LIT A 00001\n+ EQ A LIT A 00000\n+ READ A LIT PNB lop\n+ READ A LIT P 00000\n" => Input "source line 5 Label\n" "old",
        "00000 READ A LIT A 0000A\n00000 WORD 00000000\n" => Input "source line 2 Twice\n" "old",
        "00000 READ A LIT A 0000G" => Input "source line 1 Number\n" "old",
        "FFFFF WORD 00000000\n+ WORD 00000000\n" => Input "source line 2 Range\n" "old",
        "" => Done "words 0\n" "",
        "label end\n+ READ A LIT P end\n" => Done "words 1\n" "00000 06300000\n",
        "+ READ A LIT P end\nlabel end\n# over\n\n+ WORD 0000000A" => Done "words 2\n" "00000 06300001\n00001 0000000A\n",
        "label WORD 00000000" => Input "source line 1 Number\n" "old",
        "00000 READ A LIT B 0000g" => Input "source line 1 Name\n" "old",
        "00000 WORD 0000000g\n00000 READ B LIT A 00000" => Input "source line 1 Number\n" "old",
        "label a2345678901234567890123456789012\n+ WORD 00000000" => Done "words 1\n" "00000 00000000\n",
        "label a23456789012345678901234567890123\n+ WORD 00000000" => Input "source line 1 Name\n" "old",
        "label a\nlabel a" => Input "source line 2 Twice\n" "old",
    };
    for case in &cases {
        let mut shelf = Shelf::new(rt.alloc());
        shelf.hold("source", case.source.as_bytes())?;
        shelf.hold("image", b"old")?;
        let mut page = Page::new(rt.alloc());
        let status = viper_main(
            rt.alloc(),
            &["assemble", "source", "image"],
            &mut shelf,
            &mut page,
        );
        assert_eq!(rt; status, case.status);
        assert_eq!(rt; page.bytes(), case.text.as_bytes());
        assert_eq!(rt; shelf.content("image"), Some(case.placed.as_bytes()));
    }
    Ok(())
}

/// A shelf whose `source` is of one word, where `image` holds `old`.
fn shelf_of_one(alloc: Global) -> Result<Shelf, Fail> {
    let mut shelf = Shelf::new(alloc);
    shelf.hold("source", b"00000 WORD 0000000A\n")?;
    shelf.hold("image", b"old")?;
    Ok(shelf)
}

#[test]
fn an_assembly_whose_place_fails_puts_nothing(rt: HostRuntime) -> Result<(), Fail> {
    // the fetch, the place
    for call in 0..2 {
        let mut shelf = shelf_of_one(rt.alloc())?;
        shelf.fail_at(call)?;
        let mut page = Page::new(rt.alloc());
        let words = ["assemble", "source", "image"];
        let status = viper_main(rt.alloc(), &words, &mut shelf, &mut page);
        assert_eq!(rt; status, Status::Outside);
        assert_eq!(rt; page.bytes(), b"".as_slice());
        assert_eq!(rt; shelf.content("image"), Some(b"old".as_slice()));
    }
    Ok(())
}

/// A put fails after three bytes, which are the first of the command's text.
fn puts_its_first(alloc: Global, words: &[&str], text: &'static str) -> Result<(), Fail> {
    let mut shelf = shelf_of_one(alloc)?;
    let mut page = Page::new(alloc);
    page.fail_at(0, 3)?;
    let status = viper_main(alloc, words, &mut shelf, &mut page);
    if status == Status::Outside && page.bytes() == text.as_bytes() {
        Ok(())
    } else {
        Err(Fail::from(text))
    }
}

#[test]
fn a_put_that_fails_leaves_its_first_bytes(rt: HostRuntime) -> Result<(), Fail> {
    puts_its_first(rt.alloc(), &["assemble", "source", "image"], "wor")?;
    puts_its_first(rt.alloc(), &["disasm", "source"], "ima")?;
    puts_its_first(rt.alloc(), &["help"], "usa")
}

/// A word for each name of a function, a comparison, a destination, a mode and a register.
const NAMED: &str = "\
00000 00000000
00001 00100000
00002 00200000
00003 00300000
00004 00400000
00005 00500000
00006 00600000
00007 00700000
00008 00800000
00009 00900000
0000A 00A00000
0000B 00B00000
0000C 00C00000
0000D 00D00000
0000E 00E00000
0000F 00F00000
00010 01000000
00011 01100000
00012 01200000
00013 01300000
00014 01400000
00015 01500000
00016 01600000
00017 01700000
00018 01800000
00019 01900000
0001A 01A00000
0001B 01B00000
0001C 01C00000
0001D 01D00000
0001E 01E00000
0001F 01F00000
00020 00000000
00021 02000000
00022 04000000
00023 06000000
00024 08000000
00025 0A000000
00026 0C000000
00027 0E000000
00028 00000000
00029 10000000
0002A 20000000
0002B 30000000
0002C 00000000
0002D 40000000
0002E 80000000
0002F C0000000
";

/// Their listing.
const NAMES: &str = "\
00000 NEG A LIT A 00000
00001 CALL A LIT A 00000
00002 INP A LIT A 00000
00003 READ A LIT A 00000
00004 ADDB A LIT A 00000
00005 ADDS A LIT A 00000
00006 SUBB A LIT A 00000
00007 SUBS A LIT A 00000
00008 XOR A LIT A 00000
00009 AND A LIT A 00000
0000A NOR A LIT A 00000
0000B ANDN A LIT A 00000
0000C SHIFT A LIT A 00000
0000D F13 A LIT A 00000
0000E F14 A LIT A 00000
0000F F15 A LIT A 00000
00010 LT A LIT A 00000
00011 GE A LIT A 00000
00012 EQ A LIT A 00000
00013 NE A LIT A 00000
00014 LE A LIT A 00000
00015 GT A LIT A 00000
00016 ULT A LIT A 00000
00017 UGE A LIT A 00000
00018 LTOR A LIT A 00000
00019 GEOR A LIT A 00000
0001A EQOR A LIT A 00000
0001B NEOR A LIT A 00000
0001C LEOR A LIT A 00000
0001D GTOR A LIT A 00000
0001E ULTOR A LIT A 00000
0001F UGEOR A LIT A 00000
00020 NEG A LIT A 00000
00021 NEG A LIT X 00000
00022 NEG A LIT Y 00000
00023 NEG A LIT P 00000
00024 NEG A LIT PIF 00000
00025 NEG A LIT PNB 00000
00026 NEG A LIT OUT 00000
00027 NEG A LIT STO 00000
00028 NEG A LIT A 00000
00029 NEG A MEM A 00000
0002A NEG A IDX A 00000
0002B NEG A IDY A 00000
0002C NEG A LIT A 00000
0002D NEG X LIT A 00000
0002E NEG Y LIT A 00000
0002F NEG P LIT A 00000
";

#[test]
fn each_name_is_listed_and_assembles(rt: HostRuntime) -> Result<(), Fail> {
    let mut shelf = Shelf::new(rt.alloc());
    shelf.hold("image", NAMED.as_bytes())?;
    shelf.hold("source", NAMES.as_bytes())?;
    let mut page = Page::new(rt.alloc());
    let status = viper_main(rt.alloc(), &["disasm", "image"], &mut shelf, &mut page);
    assert_eq!(rt; status, Status::Done);
    assert_eq!(rt; page.bytes(), NAMES.as_bytes());
    let words = ["assemble", "source", "again"];
    let status = viper_main(rt.alloc(), &words, &mut shelf, &mut page);
    assert_eq!(rt; status, Status::Done);
    assert_eq!(rt; shelf.content("again"), Some(NAMED.as_bytes()));
    Ok(())
}

#[test]
fn disasm_lists_an_image(rt: HostRuntime) -> Result<(), Fail> {
    // image => status text
    let cases: [(&str, Status, &str); 4] = [
        (
            "00000 00D00000\n00001 01D00000\n00002 FFFFFFFF\n",
            Status::Done,
            "00000 F13 A LIT A 00000\n00001 GTOR A LIT A 00000\n00002 UGEOR P IDY STO FFFFF\n",
        ),
        ("", Status::Done, ""),
        (
            "00000 06300000\n00000 06300000\n",
            Status::Input,
            "image line 2 Order\n",
        ),
        ("00000 0630000\n", Status::Input, "image line 1 Form\n"),
    ];
    for (image, ends, text) in &cases {
        let mut shelf = Shelf::new(rt.alloc());
        shelf.hold("image", image.as_bytes())?;
        let mut page = Page::new(rt.alloc());
        let status = viper_main(rt.alloc(), &["disasm", "image"], &mut shelf, &mut page);
        assert_eq!(rt; status, *ends);
        assert_eq!(rt; page.bytes(), text.as_bytes());
    }
    Ok(())
}

#[test]
fn a_source_over_its_limit_is_long(rt: HostRuntime) -> Result<(), Fail> {
    let mut shelf = Shelf::new(rt.alloc());
    let source = vec![in rt.alloc(); b'#'; 33_554_433]?;
    shelf.hold("source", &source)?;
    let mut page = Page::new(rt.alloc());
    let words = ["assemble", "source", "image"];
    let status = viper_main(rt.alloc(), &words, &mut shelf, &mut page);
    assert_eq!(rt; status, Status::Input);
    assert_eq!(rt; page.bytes(), b"source long\n".as_slice());
    Ok(())
}
