// What no clause says: with ample memory a text is filled, behind what was there.
use std::test::Fail;
use uri_template::{Template, TemplateFault};

#[test]
fn templates_of_the_standard(rt: HostRuntime) -> Result<(), Fail> {
    let alloc = rt.alloc();
    let rows: [(&str, u32, u32, [u32; 3], &str); 9] = [
        ("{level}{level}-{q}{x}.{z}", 2, 1, [1, 0, 0], "11-{q}1.{z}"),
        (
            "s/{level}/{x}/{y}.subtree",
            2,
            25,
            [33554431, 7, 0],
            "s/25/33554431/7.subtree",
        ),
        ("{z}{y}{x}/{level}", 3, 2, [1, 2, 3], "321/2"),
        ("{x}{z}", 3, 31, [4294967295, 0, 10], "429496729510"),
        ("all.subtree", 2, 4, [3, 3, 0], "all.subtree"),
        ("{{x}}{y", 2, 4, [3, 0, 0], "{3}{y"),
        ("{X}{x }{level", 2, 4, [3, 0, 0], "{X}{x }{level"),
        ("äö{y}{", 2, 4, [3, 100, 0], "äö100{"),
        ("", 3, 0, [0, 0, 0], ""),
    ];
    for (text, axes, level, coords, wanted) in rows {
        let template = Template::new(String::from_str(alloc, text)?)?;
        assert!(rt; template.as_str() == text);
        let mut out = String::from_str(alloc, "> ")?;
        assert!(rt; template.fill(axes, level, coords, &mut out).is_ok());
        assert!(rt; out.as_str().strip_prefix("> ") == Some(wanted));
        assert!(rt; template.filled_length(axes, level, coords) == wanted.len() as u64);
    }
    Ok(())
}

#[test]
fn texts_that_are_no_templates(rt: HostRuntime) -> Result<(), Fail> {
    let alloc = rt.alloc();
    let rows: [(usize, &str, Option<TemplateFault>); 7] = [
        (1024, "", None),
        (1025, "", Some(TemplateFault::TooLong)),
        (1024, "\n", Some(TemplateFault::TooLong)),
        (1023, "\u{1f}", Some(TemplateFault::ControlCharacter)),
        (0, "a\u{7f}", Some(TemplateFault::ControlCharacter)),
        (0, " ~é\u{80}", None),
        (0, "", None),
    ];
    for (count, end, wanted) in rows {
        let mut text = String::new(alloc);
        for _ in 0..count {
            text.push('a')?;
        }
        text.push_str(end)?;
        assert!(rt; Template::new(text).err() == wanted);
    }
    Ok(())
}
