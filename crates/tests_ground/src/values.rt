//! Lists and texts, sets of sites, and starts. By hand: what was put in is there, and an argument or a patch fits up to its type's or its page's last number.
use bl_base::{List, Patch, Pos, SiteSet, Start, Text, ValueType, fits};
use std::test::Fail;

#[test]
fn a_list_and_a_text_hold_what_was_put_into_them(rt: HostRuntime) -> Result<(), Fail> {
    let mut list = List::new(rt.alloc());
    list.push(7u32)?;
    list.push(9)?;
    assert_eq!(rt; list.as_slice(), [7, 9].as_slice());
    let text = Text::copy_of(rt.alloc(), b"ab")?;
    assert_eq!(rt; text.as_slice(), b"ab".as_slice());
    Ok(())
}

#[test]
fn a_site_set_answers_whether_a_site_was_absent(rt: HostRuntime) -> Result<(), Fail> {
    let mut sites = SiteSet::new(rt.alloc());
    let answers = [
        sites.insert(Pos(9))?,
        sites.insert(Pos(2))?,
        sites.insert(Pos(9))?,
        sites.insert(Pos(4_000_000_000))?,
        sites.insert(Pos(4_000_000_000))?,
    ];
    assert_eq!(rt; answers, [true, true, false, true, false]);
    assert!(rt; sites.contains(Pos(2)) && !sites.contains(Pos(3)));
    assert!(rt; sites.contains(Pos(4_000_000_000)) && !sites.contains(Pos(1_048_576)));
    Ok(())
}

#[test]
fn a_start_fits_up_to_the_last_byte_of_the_first_pages(rt: HostRuntime) -> Result<(), Fail> {
    for (argument, offset, fitting) in [
        (4_294_967_295, 65_534, true),
        (4_294_967_296, 0, false),
        (0, 65_535, false),
    ] {
        let mut start = Start {
            args: List::new(rt.alloc()),
            patches: List::new(rt.alloc()),
        };
        start.args.push(argument)?;
        let bytes = Text::copy_of(rt.alloc(), &[1, 2])?;
        start.patches.push(Patch {
            memory: 0,
            offset,
            bytes,
        })?;
        assert_eq!(rt; fits(&[ValueType::I32], &[1], &start), fitting);
    }
    Ok(())
}
