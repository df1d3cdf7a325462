//! Profiles that no text gives, and boxes that are not there. The program `profile_rows` shows what texts give.
use ec_code::{Code, Plugin, Profile, ProfileFault};
use lrc_layers::Lrc;
use plugin_reg::{pick, print_profile};
use rs_van::RsVan;
use std::alloc::Global;
use std::test::Fail;

/// A profile of 2 data chunks and 2 coding chunks with no other setting than these.
fn profile(plugin: Plugin, l: Option<u32>, w: Option<u32>) -> Profile {
    Profile {
        plugin,
        k: Some(2),
        m: Some(2),
        c: None,
        l,
        w,
        technique: None,
        mapping: None,
        layers: None,
        stripe_unit: 32,
        min_size: Some(2),
    }
}

/// Whether a profile's box is made, and its canonical lines are these.
fn is_printed(alloc: Global, boxes: &mut [Box<dyn Code>], profile: &Profile, lines: &str) -> bool {
    match pick(boxes, profile) {
        Ok(i) => match print_profile(alloc, profile, boxes[i].shape()) {
            Ok(text) => text.as_slice() == lines.as_bytes(),
            Err(_) => false,
        },
        Err(_) => false,
    }
}

/// Whether a profile of a plugin is refused because no box has its name.
fn is_unknown(boxes: &mut [Box<dyn Code>], plugin: Plugin) -> bool {
    pick(boxes, &profile(plugin, Some(4), None)) == Err(ProfileFault::UnknownPlugin)
}

const MADE: &str = "k=2\nl=4\nm=2\nmin_size=2\nplugin=lrc\nstripe_unit=32\n";

const PLAIN: &str =
    "k=2\nm=2\nmin_size=2\nplugin=jerasure\nstripe_unit=32\ntechnique=reed_sol_van\nw=8\n";

// The plugin lrc has no w, so the w of a profile does not count. Settings of jerasure that are left out are printed.
#[test]
fn a_profile_that_no_text_gives_has_its_lines(rt: HostRuntime) -> Result<(), Fail> {
    let alloc = rt.alloc();
    let mut boxes: Vec<Box<dyn Code>> = Vec::new(alloc);
    boxes.push(Box::new(alloc, RsVan::new())?)?;
    boxes.push(Box::new(alloc, Lrc::new())?)?;
    let made = profile(Plugin::Lrc, Some(4), Some(9));
    assert!(rt; is_printed(alloc, &mut boxes, &made, MADE));
    let plain = profile(Plugin::Jerasure, None, None);
    assert!(rt; is_printed(alloc, &mut boxes, &plain, PLAIN));
    Ok(())
}

#[test]
fn without_a_box_the_plugin_is_unknown(rt: HostRuntime) -> Result<(), Fail> {
    let alloc = rt.alloc();
    let mut boxes: Vec<Box<dyn Code>> = Vec::new(alloc);
    assert!(rt; is_unknown(&mut boxes, Plugin::Jerasure));
    boxes.push(Box::new(alloc, RsVan::new())?)?;
    assert!(rt; is_unknown(&mut boxes, Plugin::Lrc) && is_unknown(&mut boxes, Plugin::Shec));
    Ok(())
}
