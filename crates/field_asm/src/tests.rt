use crate::{AsmFault, AsmRule, assemble};
use memory_plan::write_image;
use std::alloc::Global;
use std::test::Fail;

/// Texts that are shorter than this are assembled.
const SHORT: usize = 100_000;

/// The fault of a source. None where it has none, or is longer than those of these tests.
fn fault_of(alloc: Global, source: &[u8]) -> Option<AsmFault> {
    if source.len() > SHORT {
        return None;
    }
    assemble(alloc, source).err()
}

/// The image text of a source. None where it has a fault, or is longer than those of these tests.
fn text_of(alloc: Global, source: &[u8]) -> Option<Vec<u8>> {
    if source.len() > SHORT {
        return None;
    }
    let image = assemble(alloc, source).ok()?;
    write_image(alloc, &image).ok()
}

macro_rules! rows {
    ($($text:literal => $line:literal $rule:ident,)*) => {
        [$(($text.as_slice(), $line, AsmRule::$rule),)*]
    };
}

#[test]
fn the_first_broken_rule_of_a_source_is_named(rt: HostRuntime) {
    let rows = rows! {
        b"00000 READ A LIT A 0000G" => 1 Number,
        b"FFFFF WORD 00000000\n+ WORD 00000000" => 2 Range,
        b"00000 READ A LIT A 0000A\n00000 WORD 00000000" => 2 Twice,
        b"00000 READ A LIT A  0000A" => 1 Form,
        b"00000 WORD\n" => 1 Form,
        b"label WORD 00000000" => 1 Number,
        b"label READ A LIT A 00000" => 1 Number,
        b"label \n" => 1 Name,
        b"00000 READ A LIT A \n" => 1 Number,
        b"0000a WORD 00000000" => 1 Number,
        b"00000 WORD 0000000a" => 1 Number,
        b"0000G REED A LIT A 00000" => 1 Number,
        b"00000 REED A LIT A 0000G" => 1 Name,
        b"00000 READ B LIT A 0000G" => 1 Name,
        b"00000 READ A A A 00000" => 1 Name,
        b"00000 READ LIT A A 00000" => 1 Name,
        b"00000 WORD 00000000\n00000 WORD 0000" => 2 Twice,
        b"00000 WORD 00000000\n00000 REED A LIT A 00000" => 2 Twice,
        b"label l\nlabel l" => 2 Twice,
        b"label l\nFFFFF WORD 00000000\nlabel l" => 3 Range,
        b"FFFFF WORD 00000000\nlabel Up" => 2 Name,
        b"label abcdefghijklmnopqrstuvwxyz0123456" => 1 Name,
        b"00000 READ A LIT A lOop" => 1 Name,
        b"# one\n\n00000 READ A LIT P up\nlabel down\nlabel down" => 5 Twice,
        b"# one\n\n00000 READ A LIT P up\nlabel down" => 3 Label,
    };
    for (text, line, rule) in &rows {
        let fault = AsmFault::At {
            line: *line,
            rule: *rule,
        };
        assert_eq!(rt; fault_of(rt.alloc(), text), Some(fault));
    }
}

#[test]
fn sources_have_their_images(rt: HostRuntime) -> Result<(), Fail> {
    let rows = [
        (b"".as_slice(), b"".as_slice()),
        (
            b"00000 READ A LIT A 0000A\nlabel loop\n+ SUBS A LIT A 00001\n+ EQ A LIT A 00000\n+ READ A LIT PNB loop\n+ READ A LIT P 00000",
            b"00000 0030000A\n00001 00700001\n00002 01200000\n00003 0A300001\n00004 06300000\n",
        ),
        (
            b"00003 READ A LIT P up\n+ WORD FFFFFFFF\nlabel up\n00001 F13 Y IDX STO FFFFF",
            b"00001 AEDFFFFF\n00003 06300005\n00004 FFFFFFFF\n",
        ),
        (
            b"label abcdefghijklmnopqrstuvwxyz012345\n+ CALL X MEM PIF abcdefghijklmnopqrstuvwxyz012345\n",
            b"00000 58100000\n",
        ),
    ];
    for (source, text) in &rows {
        let image = text_of(rt.alloc(), source).ok_or("an image")?;
        assert_eq!(rt; image.as_slice(), *text);
    }
    Ok(())
}
