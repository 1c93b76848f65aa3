use crate::listing;
use line_text::LineText;
use memory_plan::read_image;
use std::test::Fail;
use viper_word::{Addr, Word};

/// A function that there isn't, a comparison that joins, one whose destination is a store's, and a
/// store, whose function is listed too.
#[test]
fn a_listing_has_a_line_for_each_word(rt: HostRuntime) -> Result<(), Fail> {
    let text = b"00000 00D00000\n00001 01D00000\n00100 FFFFFFFF\n00101 1E000210\n";
    let image = read_image(rt.alloc(), text).map_err(|_| "an image")?;
    let listed = listing(rt.alloc(), &image).map_err(|_| "memory")?;
    assert_eq!(rt;
        listed.as_slice(),
        b"00000 F13 A LIT A 00000\n\
          00001 GTOR A LIT A 00000\n\
          00100 UGEOR P IDY STO FFFFF\n\
          00101 NEG A MEM STO 00210\n"
            .as_slice()
    );
    Ok(())
}

/// The pieces of a text stand one behind the other.
#[test]
fn a_text_is_made_of_its_pieces(rt: HostRuntime) -> Result<(), Fail> {
    let at = Addr::new(0xA_BCDE).ok_or("an address")?;
    let mut text = LineText::new(rt.alloc());
    text.plain("at ").map_err(|_| "memory")?;
    text.address(at).map_err(|_| "memory")?;
    text.word(Word(0x0012_CDEF)).map_err(|_| "memory")?;
    text.number(18_446_744_073_709_551_615)
        .map_err(|_| "memory")?;
    assert_eq!(rt;
        text.bytes(),
        b"at ABCDE0012CDEF18446744073709551615".as_slice()
    );
    Ok(())
}
