//! Calls of the abstract step, over a small plan.

use abs_step::start_fact;
use flag_relation::{Fact, Flag};
use memory_plan::{read_image, read_plan};
use std::test::Fail;
use val_dom::Val;
use viper_word::Addr;

/// A word of code, a word of data, and what the plan says of them.
const IMAGE: &[u8] = b"00000 06300000\n00101 00000005\n";

const PLAN: &[u8] =
    b"code 00000 00000\ndata 00100 00101 0..10/5\nmarker 00000\nstart 00000 -4..4/8 any 3 0\n";

#[test]
fn a_start_has_the_image_or_its_range(rt: HostRuntime) -> Result<(), Fail> {
    let alloc = rt.alloc();
    let image = read_image(alloc, IMAGE)?;
    let plan = read_plan(alloc, PLAN, &image)?;
    let start = plan.starts().first().ok_or("a start line")?;
    let cells = [
        Addr::new(0x100).ok_or("a cell")?,
        Addr::new(0x101).ok_or("a cell")?,
    ];
    let mut fact: Fact<Val> = Fact::new(alloc, 2)?;
    start_fact(&plan, &cells, start, &mut fact);
    let wanted = [
        (-4, 4, 8),
        (-2_147_483_648, 2_147_483_647, 1),
        (3, 3, 0),
        (0, 10, 5),
        (5, 5, 0),
    ];
    let values = [fact.a, fact.x, fact.y, fact.cell(0), fact.cell(1)];
    for (value, wanted) in values.iter().zip(wanted) {
        let interval = value.pair.left;
        assert_eq!(rt;
            (interval.lo, interval.hi, value.pair.right.modulus),
            wanted
        );
    }
    assert!(rt; matches!(fact.flag(), Flag::Or(_)));
    Ok(())
}
